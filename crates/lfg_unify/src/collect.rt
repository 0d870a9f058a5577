ghost use Rattle.std.specs.Prelude.{◌≡◌, ◌++◌, ◌∷◌, ◌⊎◌, ◌<◌, ℕ, List, [], length, map, Bool, IfOk, OnOk, IfSome, IfNone};
ghost use Rattle.std.specs.List.{flat_map};
ghost use Rattle.std.specs.List.Sorted.{IsStrictlySortedBy};
ghost use Rattle.lfg_terms.specs.Order.{node_cmp};
ghost use Rattle.lfg_terms.specs.declared.node.Node.{Node};
ghost use Rattle.lfg_terms.specs.declared.literal.Literal.{Literal};
ghost use Rattle.lfg_model.specs.declared.constant.Constant.{Constant};
ghost use Rattle.lfg_context.specs.Seen.{Set};
ghost use Rattle.lfg_context.specs.Sets.{Assignment, member, IsMade, AreMade, IsGrown, HasSamePicks};
ghost use Rattle.lfg_model.specs.Lists.{In};
ghost use Rattle.lfg_model.specs.Terms.{Name};
ghost use Rattle.lfg_unify.specs.Closures.{Ascends, place_in};
ghost use Rattle.lfg_unify.specs.Rows.{IsRow};
ghost use Rattle.lfg_unify.specs.Marks.{arc_in, AreArcs, given_in, IsStep, IsMarked, Marks, members_in, values_in};

use crate::closure::place_of;
use crate::nodes::{last_step, nodes_of};
use crate::system::Arc;
use crate::table::widen_row;
use lfg_context::{Contexts, Ctx};
use lfg_model::Constant;
use lfg_terms::{Literal, Name, Node};
use std::alloc::{AllocError, Global};

/// The place of the node among the nodes; their number where it is not there.
pub(crate) fn place_or_end(nodes: &[Node], node: &Node) -> usize
    requires { IsStrictlySortedBy node_cmp nodes.now }
    ensures { result ≡ place_in nodes.now node.now }
{
    match place_of(nodes, node) {
        Some(place) => place,
        None => nodes.len(),
    }
}

/// Adds the place of the node to the row, where the context holds.
#[tactic(auto, using(crate::proofs::RowLaws::rows))]
fn mark_one(
    nodes: &[Node],
    node: &Node,
    ctx: &Ctx,
    row: &mut Vec<(usize, Ctx)>,
    contexts: &mut Contexts,
) -> Result<(), AllocError>
    requires sorted { IsStrictlySortedBy node_cmp nodes.now }
    requires ascends { Ascends (length nodes.now) 0 row.old.items }
    requires row { IsRow contexts.old row.old.items }
    requires made { IsMade contexts.old ctx.now }
    ensures grown { IsGrown contexts.old contexts.new }
    ensures picks { HasSamePicks contexts.old contexts.new }
    ensures ascends { Ascends (length nodes.now) 0 row.new.items }
    ensures row { IsRow contexts.new row.new.items }
    ensures marks { OnOk result (Marks nodes.now (node.now ∷ []) ctx.now row.old.items row.new.items) }
{
    let place = place_or_end(nodes, node);
    if place >= nodes.len() {
        return Ok(());
    }
    let _changed = widen_row(row, nodes.len(), place, ctx, contexts)?;
    Ok(())
}

/// Adds the places of the nodes found to the row, where the context holds.
#[tactic(auto, using(crate::proofs::RowLaws::rows))]
fn mark(
    nodes: &[Node],
    found: &[Node],
    ctx: &Ctx,
    row: &mut Vec<(usize, Ctx)>,
    contexts: &mut Contexts,
) -> Result<(), AllocError>
    requires sorted { IsStrictlySortedBy node_cmp nodes.now }
    requires ascends { Ascends (length nodes.now) 0 row.old.items }
    requires row { IsRow contexts.old row.old.items }
    requires made { IsMade contexts.old ctx.now }
    ensures grown { IsGrown contexts.old contexts.new }
    ensures picks { HasSamePicks contexts.old contexts.new }
    ensures ascends { Ascends (length nodes.now) 0 row.new.items }
    ensures row { IsRow contexts.new row.new.items }
    ensures marks { OnOk result (Marks nodes.now found.now ctx.now row.old.items row.new.items) }
{
    for node in found {
        mark_one(nodes, node, ctx, row, contexts)?;
    }
    Ok(())
}

/// The places of the nodes of the literals, in the contexts in which literals hold that have them: of
/// the nodes that defining literals name and those on the way to them, and if `whole` also of the
/// nodes at which walks start.
#[tactic(auto, using(crate::proofs::RowLaws::rows))]
pub(crate) fn marked(
    alloc: Global,
    nodes: &[Node],
    literals: &[(Literal, Ctx)],
    whole: bool,
    contexts: &mut Contexts,
) -> Result<Vec<(usize, Ctx)>, AllocError>
    requires sorted { IsStrictlySortedBy node_cmp nodes.now }
    requires made { AreMade contexts.old (λ l. l.1) literals.now }
    ensures grown { IsGrown contexts.old contexts.new }
    ensures picks { HasSamePicks contexts.old contexts.new }
    ensures ascends { IfOk result (λ row. Ascends (length nodes.now) 0 row.items) }
    ensures row { IfOk result (λ row. IsRow contexts.new row.items) }
    ensures marked { IfOk result (λ row. IsMarked nodes.now whole literals.now row.items) }
{
    let mut row = Vec::new(alloc);
    for literal in literals {
        let found = nodes_of(alloc, &literal.0, whole)?;
        mark(nodes, found.as_slice(), &literal.1, &mut row, contexts)?;
    }
    Ok(row)
}

/// Appends the arc by the last attribute of the node, if its path has one.
fn push_arc(
    alloc: Global,
    arcs: &mut Vec<(Node, Name, Node, Ctx)>,
    node: &Node,
    ctx: &Ctx,
) -> Result<(), AllocError>
    ensures sound { OnOk result ((x : Node) (n : Name) (t : Node) (z : Set) → In (x, n, t, z) arcs.new.items → In (x, n, t, z) arcs.old.items ⊎ (IsStep x n t × (t ≡ node.now) × (z ≡ ctx.now))) }
    ensures keeps { OnOk result ((r : Node × Name × Node × Set) → In r arcs.old.items → In r arcs.new.items) }
    ensures has { OnOk result ((x : Node) (n : Name) → IsStep x n node.now → In (x, n, node.now, ctx.now) arcs.new.items) }
{
    let Some((before, name)) = last_step(alloc, node)? else {
        return Ok(());
    };
    arcs.push((before, name, node.clone()?, ctx.share()?))?;
    Ok(())
}

/// The arcs along the last attributes of the nodes at the places of the row, with their contexts.
pub(crate) fn arcs_of(
    alloc: Global,
    nodes: &[Node],
    row: &[(usize, Ctx)],
) -> Result<Vec<(Node, Name, Node, Ctx)>, AllocError>
    requires sorted { IsStrictlySortedBy node_cmp nodes.now }
    requires ascends { Ascends (length nodes.now) 0 row.now }
    ensures { IfOk result (λ arcs. AreArcs nodes.now row.now arcs.items) }
{
    let mut arcs = Vec::new(alloc);
    for entry in row {
        let node = &nodes[entry.0];
        push_arc(alloc, &mut arcs, node, &entry.1)?;
    }
    Ok(arcs)
}

/// The arcs, between places.
pub(crate) fn numbered_arcs(
    alloc: Global,
    nodes: &[Node],
    arcs: &[(Node, Name, Node, Ctx)],
) -> Result<Vec<Arc>, AllocError>
    requires { IsStrictlySortedBy node_cmp nodes.now }
    ensures { IfOk result (λ found. found.items ≡ map (arc_in nodes.now) arcs.now) }
{
    let mut found = Vec::new(alloc);
    for arc in arcs {
        let from = place_or_end(nodes, &arc.0);
        let to = place_or_end(nodes, &arc.2);
        found.push(((from, arc.1.clone()?, to), arc.3.share()?))?;
    }
    Ok(found)
}

/// Appends the pair of places that the literal states to be equal, if it states one.
fn push_given(
    given: &mut Vec<((usize, usize), Ctx)>,
    nodes: &[Node],
    literal: &(Literal, Ctx),
) -> Result<(), AllocError>
    requires { IsStrictlySortedBy node_cmp nodes.now }
    ensures { OnOk result (given.new.items ≡ given.old.items ++ given_in nodes.now literal.now) }
{
    if let Literal::Equal { a, b } = &literal.0 {
        let first = place_or_end(nodes, a);
        let second = place_or_end(nodes, b);
        given.push(((first, second), literal.1.share()?))?;
    }
    Ok(())
}

/// The pairs of places that literals state to be equal, with their contexts.
pub(crate) fn given_pairs(
    alloc: Global,
    nodes: &[Node],
    literals: &[(Literal, Ctx)],
) -> Result<Vec<((usize, usize), Ctx)>, AllocError>
    requires { IsStrictlySortedBy node_cmp nodes.now }
    ensures { IfOk result (λ given. given.items ≡ flat_map (given_in nodes.now) literals.now) }
{
    let mut given = Vec::new(alloc);
    for literal in literals {
        push_given(&mut given, nodes, literal)?;
    }
    Ok(given)
}

/// Appends the value that the literal states, if it states one.
fn push_value(
    values: &mut Vec<(Node, Constant, Ctx)>,
    literal: &(Literal, Ctx),
) -> Result<(), AllocError>
    ensures { OnOk result (values.new.items ≡ values.old.items ++ values_in literal.now) }
{
    match &literal.0 {
        Literal::Value { at, atom } => {
            let constant = Constant::Atom(atom.clone()?);
            values.push((at.clone()?, constant, literal.1.share()?))?;
            Ok(())
        }
        Literal::Form {
            at,
            form,
            site,
            index,
        } => {
            let constant = Constant::Form {
                form: form.clone()?,
                site: site.clone()?,
                index: *index,
            };
            values.push((at.clone()?, constant, literal.1.share()?))?;
            Ok(())
        }
        _ => Ok(()),
    }
}

/// The values that literals state, with their contexts.
pub(crate) fn values_of(
    alloc: Global,
    literals: &[(Literal, Ctx)],
) -> Result<Vec<(Node, Constant, Ctx)>, AllocError>
    ensures { IfOk result (λ values. values.items ≡ flat_map values_in literals.now) }
{
    let mut values = Vec::new(alloc);
    for literal in literals {
        push_value(&mut values, literal)?;
    }
    Ok(values)
}

/// Appends the member that the literal states, if it states one.
fn push_member(
    members: &mut Vec<(Node, Node, Ctx)>,
    literal: &(Literal, Ctx),
) -> Result<(), AllocError>
    ensures { OnOk result (members.new.items ≡ members.old.items ++ members_in literal.now) }
{
    if let Literal::Member { item, set } = &literal.0 {
        members.push((item.clone()?, set.clone()?, literal.1.share()?))?;
    }
    Ok(())
}

/// The members that literals state, with their contexts.
pub(crate) fn members_of(
    alloc: Global,
    literals: &[(Literal, Ctx)],
) -> Result<Vec<(Node, Node, Ctx)>, AllocError>
    ensures { IfOk result (λ members. members.items ≡ flat_map members_in literals.now) }
{
    let mut members = Vec::new(alloc);
    for literal in literals {
        push_member(&mut members, literal)?;
    }
    Ok(members)
}

/// The places of the sources and targets of arcs.
pub(crate) fn places_of_arcs(
    alloc: Global,
    nodes: &[Node],
    arcs: &[(Node, Name, Node, Ctx)],
) -> Result<Vec<(usize, usize)>, AllocError>
    requires { IsStrictlySortedBy node_cmp nodes.now }
    ensures { IfOk result (λ places. places.items ≡ map (λ r. (place_in nodes.now r.0, place_in nodes.now r.2)) arcs.now) }
{
    let mut places = Vec::new(alloc);
    for arc in arcs {
        let from = place_or_end(nodes, &arc.0);
        let to = place_or_end(nodes, &arc.2);
        places.push((from, to))?;
    }
    Ok(places)
}

/// The places of the nodes of values.
pub(crate) fn places_of_values(
    alloc: Global,
    nodes: &[Node],
    values: &[(Node, Constant, Ctx)],
) -> Result<Vec<usize>, AllocError>
    requires { IsStrictlySortedBy node_cmp nodes.now }
    ensures { IfOk result (λ places. places.items ≡ map (λ v. place_in nodes.now v.0) values.now) }
{
    let mut places = Vec::new(alloc);
    for value in values {
        places.push(place_or_end(nodes, &value.0))?;
    }
    Ok(places)
}

/// The places of the items and the sets of members.
pub(crate) fn places_of_members(
    alloc: Global,
    nodes: &[Node],
    members: &[(Node, Node, Ctx)],
) -> Result<Vec<(usize, usize)>, AllocError>
    requires { IsStrictlySortedBy node_cmp nodes.now }
    ensures { IfOk result (λ places. places.items ≡ map (λ m. (place_in nodes.now m.0, place_in nodes.now m.1)) members.now) }
{
    let mut places = Vec::new(alloc);
    for member in members {
        let item = place_or_end(nodes, &member.0);
        let set = place_or_end(nodes, &member.1);
        places.push((item, set))?;
    }
    Ok(places)
}
