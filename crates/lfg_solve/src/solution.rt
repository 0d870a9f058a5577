ghost use Rattle.std.specs.Prelude.{◌≡◌, ℕ, ◌<◌, ◌≤◌, [], ◌∷◌, ◌++◌, length, vec_len, IfNone, IfOk, IfSome, OnOk, Some, option_to_list, slice_get};
ghost use Rattle.std.specs.List.Sorted.{IsStrictlySortedBy};
ghost use Rattle.lfg_terms.specs.Order.{node_cmp};
ghost use Rattle.lfg_terms.specs.declared.node.Node.{Node};
ghost use Rattle.lfg_model.specs.declared.constant.Constant.{Constant};
ghost use Rattle.lfg_model.specs.Lists.{In};
ghost use Rattle.lfg_model.specs.Literals.{given, given_of, members, members_of, values, values_of};
ghost use Rattle.lfg_model.specs.Terms.{Name};
ghost use Rattle.lfg_solve.specs.Links.{ArcsWithin, GivenWithin};
ghost use Rattle.lfg_solve.specs.Numbers.{ArePlaces, Corresponds, HasClass, IsArcOf, IsLabelled, IsMemberOf, IsStep, IsStepTo, IsValueOf};

use crate::classes::{Arc, Classes, close};
use crate::nodes::{defined_nodes, last_step, with_starts};
use lfg_model::Constant;
use lfg_terms::{Literal, Node};
use std::alloc::{AllocError, Global};

/// That a class has a value.
#[derive(Drop)]
pub(crate) struct Value {
    pub class: usize,
    pub constant: Constant,
}

/// That the class `item` is a member of the class `set`.
#[derive(Drop)]
pub(crate) struct Membership {
    pub item: usize,
    pub set: usize,
}

/// The least solution of a list of literals (Kaplan and Bresnan 1982): their nodes, divided into
/// classes of equal nodes, with the arcs, values and members of the classes.
#[derive(Drop)]
pub struct Solution {
    // In order, each once. A class goes by the place of its least node.
    pub(crate) nodes: Vec<Node>,
    pub(crate) classes: Classes,
    pub(crate) arcs: Vec<Arc>,
    pub(crate) values: Vec<Value>,
    pub(crate) members: Vec<Membership>,
}

impl Solution {
    ghost use Rattle.std.specs.Prelude.{◌≡◌, ℕ, IfNone, IfOk, IfSome, List};
    ghost use Rattle.lfg_terms.specs.declared.literal.Literal.{Literal};
    ghost use Rattle.lfg_solve.specs.Solves.{ClassOf, Solves};

    /// The least solution of these literals. Checks and marks add nothing to it but the nodes at
    /// which the walks of checks start.
    ///
    /// # Errors
    ///
    /// Only for want of memory.
    pub fn new(alloc: Global, literals: &[Literal]) -> Result<Solution, AllocError>
        ensures { IfOk result (Solves literals.now) }
    {
        let defined = defined_nodes(alloc, literals)?;
        let nodes = with_starts(alloc, &defined, literals)?;
        let arcs = arcs_between(alloc, &nodes, &defined)?;
        let given = given_pairs(alloc, &nodes, literals)?;
        let classes = close(alloc, nodes.len(), &given, &arcs)?;
        let labelled = arcs_of_classes(alloc, &classes, &arcs)?;
        let values = values_of_classes(alloc, &nodes, &classes, literals)?;
        let members = members_of_classes(alloc, &nodes, &classes, literals)?;
        Ok(Solution {
            nodes,
            classes,
            arcs: labelled,
            values,
            members,
        })
    }

    /// The class of the node, if it is one of the solution's nodes.
    pub(crate) fn class_of(&self, node: &Node) -> Option<usize>
        ensures found { IfSome result (ClassOf self.now node.now) }
        ensures missing { IfNone result ((ls : List Literal) → Solves ls self.now → (class : ℕ) → ¬ ClassOf self.now node.now class) }
    {
        class_in(&self.nodes, &self.classes, node)
    }
}

/// The place of the node among the nodes.
fn place_of(nodes: &[Node], node: &Node) -> Option<usize>
    ensures within { IfSome result (λ place. place < length nodes.now) }
    ensures found { IfSome result (λ place. slice_get nodes.now place ≡ Some node.now) }
    ensures missing { IfNone result (IsStrictlySortedBy node_cmp nodes.now → ¬ In node.now nodes.now) }
{
    nodes.binary_search(node).ok()
}

/// The class of the node, if it is one of the nodes.
fn class_in(nodes: &[Node], classes: &Classes, node: &Node) -> Option<usize>
    ensures found { IfSome result (HasClass nodes.now classes.now node.now) }
    ensures missing { IfNone result (IsStrictlySortedBy node_cmp nodes.now → length classes.now ≡ length nodes.now
        → ¬ In node.now nodes.now) }
{
    match place_of(nodes, node) {
        Some(place) if place < classes.count() => Some(classes.of(place)),
        _ => None,
    }
}

/// Appends the item, if there is one.
pub(crate) fn push_some<T: Drop>(items: &mut Vec<T>, item: Option<T>) -> Result<(), AllocError>
    ensures { OnOk result (items.new.items ≡ items.old.items ++ option_to_list item) }
{
    if let Some(item) = item {
        items.push(item)?;
    }
    Ok(())
}

/// The arc by the last attribute of the node's path, between places among the nodes.
fn last_arc(alloc: Global, nodes: &[Node], node: &Node) -> Result<Option<Arc>, AllocError>
    requires sorted { IsStrictlySortedBy node_cmp nodes.now }
    requires listed { In node.now nodes.now }
    requires before { (x : Node) (a : Name) → IsStep x a node.now → In x nodes.now }
    ensures { IfOk result (λ found. Corresponds (IsArcOf nodes.now) (IsStepTo (node.now ∷ [])) (option_to_list found)) }
{
    let Some((before, attribute)) = last_step(alloc, node)? else {
        return Ok(None);
    };
    let Some(from) = place_of(nodes, &before) else {
        return Ok(None);
    };
    let Some(to) = place_of(nodes, node) else {
        return Ok(None);
    };
    Ok(Some(Arc {
        from,
        attribute,
        to,
    }))
}

/// The arcs along the paths of the defined nodes, between places among the nodes.
fn arcs_between(alloc: Global, nodes: &[Node], defined: &[Node]) -> Result<Vec<Arc>, AllocError>
    requires sorted { IsStrictlySortedBy node_cmp nodes.now }
    requires listed { (t : Node) → In t defined.now → In t nodes.now }
    requires before { (x : Node) (a : Name) (t : Node) → In t defined.now → IsStep x a t → In x nodes.now }
    ensures within { IfOk result (λ arcs. ArcsWithin (length nodes.now) arcs.items) }
    ensures exact { IfOk result (λ arcs. Corresponds (IsArcOf nodes.now) (IsStepTo defined.now) arcs.items) }
{
    let mut arcs = Vec::new(alloc);
    for node in defined {
        push_some(&mut arcs, last_arc(alloc, nodes, node)?)?;
    }
    Ok(arcs)
}

/// The places of the nodes that the literal states to be equal.
fn given_pair(nodes: &[Node], literal: &Literal) -> Option<(usize, usize)>
    requires sorted { IsStrictlySortedBy node_cmp nodes.now }
    requires listed { (x y : Node) → In (x, y) (given_of literal.now) → In x nodes.now × In y nodes.now }
    ensures { Corresponds (ArePlaces nodes.now) (λ p. In p (given_of literal.now)) (option_to_list result) }
{
    let Literal::Equal { a, b } = literal else {
        return None;
    };
    let Some(first) = place_of(nodes, a) else {
        return None;
    };
    let Some(second) = place_of(nodes, b) else {
        return None;
    };
    Some((first, second))
}

/// The pairs that the literals state to be equal, by places among the nodes.
fn given_pairs(
    alloc: Global,
    nodes: &[Node],
    literals: &[Literal],
) -> Result<Vec<(usize, usize)>, AllocError>
    requires sorted { IsStrictlySortedBy node_cmp nodes.now }
    requires listed { (x y : Node) → In (x, y) (given literals.now) → In x nodes.now × In y nodes.now }
    ensures within { IfOk result (λ given. GivenWithin (length nodes.now) given.items) }
    ensures exact { IfOk result (λ pairs. Corresponds (ArePlaces nodes.now) (λ p. In p (given literals.now)) pairs.items) }
{
    let mut given = Vec::new(alloc);
    for literal in literals {
        push_some(&mut given, given_pair(nodes, literal))?;
    }
    Ok(given)
}

/// The arcs, between the classes of their ends.
fn arcs_of_classes(alloc: Global, classes: &Classes, arcs: &[Arc]) -> Result<Vec<Arc>, AllocError>
    requires { ArcsWithin (length classes.now) arcs.now }
    ensures { IfOk result (λ found. Corresponds (IsLabelled classes.now) (λ arc. In arc arcs.now) found.items) }
{
    let mut found = Vec::new(alloc);
    for arc in arcs {
        found.push(Arc {
            from: classes.of(arc.from),
            attribute: arc.attribute.clone()?,
            to: classes.of(arc.to),
        })?;
    }
    Ok(found)
}

/// The value that the literal gives, with the class of its node.
fn value_of_class(
    nodes: &[Node],
    classes: &Classes,
    literal: &Literal,
) -> Result<Option<Value>, AllocError>
    requires sorted { IsStrictlySortedBy node_cmp nodes.now }
    requires covers { length classes.now ≡ length nodes.now }
    requires listed { (x : Node) (c : Constant) → In (x, c) (values_of literal.now) → In x nodes.now }
    ensures { IfOk result (λ found. Corresponds (IsValueOf nodes.now classes.now)
        (λ p. In p (values_of literal.now)) (option_to_list found)) }
{
    let Some((node, constant)) = value_of(literal)? else {
        return Ok(None);
    };
    let Some(class) = class_in(nodes, classes, node) else {
        return Ok(None);
    };
    Ok(Some(Value { class, constant }))
}

/// The values that the literals give, with the classes of their nodes.
fn values_of_classes(
    alloc: Global,
    nodes: &[Node],
    classes: &Classes,
    literals: &[Literal],
) -> Result<Vec<Value>, AllocError>
    requires sorted { IsStrictlySortedBy node_cmp nodes.now }
    requires covers { length classes.now ≡ length nodes.now }
    requires listed { (x : Node) (c : Constant) → In (x, c) (values literals.now) → In x nodes.now }
    ensures { IfOk result (λ found. Corresponds (IsValueOf nodes.now classes.now)
        (λ p. In p (values literals.now)) found.items) }
{
    let mut values = Vec::new(alloc);
    for literal in literals {
        push_some(&mut values, value_of_class(nodes, classes, literal)?)?;
    }
    Ok(values)
}

/// The value that the literal gives to a node.
fn value_of(literal: &Literal) -> Result<Option<(&Node, Constant)>, AllocError>
    ensures some { IfOk result (λ found. IfSome found (λ p. values_of literal.now ≡ (p.0.now, p.1) ∷ [])) }
    ensures none { IfOk result (λ found. IfNone found (values_of literal.now ≡ [])) }
{
    match literal {
        Literal::Value { at, atom } => Ok(Some((at, Constant::Atom(atom.clone()?)))),
        Literal::Form {
            at,
            form,
            site,
            index,
        } => Ok(Some((
            at,
            Constant::Form {
                form: form.clone()?,
                site: site.clone()?,
                index: *index,
            },
        ))),
        _ => Ok(None),
    }
}

/// The membership that the literal states, between the classes of its nodes.
fn member_of_class(nodes: &[Node], classes: &Classes, literal: &Literal) -> Option<Membership>
    requires sorted { IsStrictlySortedBy node_cmp nodes.now }
    requires covers { length classes.now ≡ length nodes.now }
    requires listed { (k x : Node) → In (k, x) (members_of literal.now) → In k nodes.now × In x nodes.now }
    ensures { Corresponds (IsMemberOf nodes.now classes.now) (λ p. In p (members_of literal.now)) (option_to_list result) }
{
    let Literal::Member { item, set } = literal else {
        return None;
    };
    let Some(item) = class_in(nodes, classes, item) else {
        return None;
    };
    let Some(set) = class_in(nodes, classes, set) else {
        return None;
    };
    Some(Membership { item, set })
}

/// The memberships that the literals state, between the classes of their nodes.
fn members_of_classes(
    alloc: Global,
    nodes: &[Node],
    classes: &Classes,
    literals: &[Literal],
) -> Result<Vec<Membership>, AllocError>
    requires sorted { IsStrictlySortedBy node_cmp nodes.now }
    requires covers { length classes.now ≡ length nodes.now }
    requires listed { (k x : Node) → In (k, x) (members literals.now) → In k nodes.now × In x nodes.now }
    ensures { IfOk result (λ found. Corresponds (IsMemberOf nodes.now classes.now)
        (λ p. In p (members literals.now)) found.items) }
{
    let mut members = Vec::new(alloc);
    for literal in literals {
        push_some(&mut members, member_of_class(nodes, classes, literal))?;
    }
    Ok(members)
}
