ghost use Rattle.std.specs.Prelude.{◌≡◌, ◌++◌, ◌∷◌, [], IfNone, IfOk, IfSome, OnOk, true};
ghost use Rattle.std.specs.List.{flat_map};
ghost use Rattle.lfg_context.specs.Seen.{Set};
ghost use Rattle.lfg_terms.specs.Order.{node_cmp};
ghost use Rattle.lfg_terms.specs.declared.literal.Literal.{Literal};
ghost use Rattle.lfg_terms.specs.declared.node.Node as node;
ghost use Rattle.lfg_terms.specs.declared.node.Node.{Node};
ghost use Rattle.lfg_model.specs.Lists.{In, Lists};
ghost use Rattle.lfg_model.specs.Literals.{checks_of, named, starts, with_prefixes};
ghost use Rattle.lfg_model.specs.Terms.{Name};
ghost use Rattle.lfg_unify.specs.Marks.{found_in, IsStep};

use lfg_context::Ctx;
use lfg_terms::{Check, Edge, Literal, Name, Node, Path, Target, Walk};
use std::alloc::{AllocError, Global};

/// The node that the path leads to from the edge.
fn node_at(alloc: Global, edge: &Edge, path: &[Name]) -> Result<Node, AllocError>
    ensures { IfOk result (λ n. n ≡ node.At edge.now path.now) }
{
    let mut names = Vec::new(alloc);
    for name in path {
        names.push(name.clone()?)?;
    }
    Ok(Node::At {
        edge: edge.clone()?,
        path: Path::new(alloc, names)?,
    })
}

/// Appends the node and all nodes on the way to it from its edge.
fn push_with_prefixes(alloc: Global, nodes: &mut Vec<Node>, node: &Node) -> Result<(), AllocError>
    ensures { OnOk result (nodes.new.items ≡ nodes.old.items ++ with_prefixes node.now) }
{
    match node {
        Node::New { .. } => {
            nodes.push(node.clone()?)?;
            Ok(())
        }
        Node::At { edge, path } => push_prefixes(alloc, nodes, edge, path.list()),
    }
}

/// Appends the nodes to which the path and its prefixes lead from the edge.
fn push_prefixes(
    alloc: Global,
    nodes: &mut Vec<Node>,
    edge: &Edge,
    path: &[Name],
) -> Result<(), AllocError>
    ensures { OnOk result (nodes.new.items ≡ nodes.old.items ++ with_prefixes (node.At edge.now path.now)) }
{
    for length in 0..path.len() {
        nodes.push(node_at(alloc, edge, &path[..length])?)?;
    }
    nodes.push(node_at(alloc, edge, path)?)?;
    Ok(())
}

/// Appends the nodes that the literal names with all nodes on the way to them.
fn push_named(alloc: Global, nodes: &mut Vec<Node>, literal: &Literal) -> Result<(), AllocError>
    ensures { OnOk result (nodes.new.items ≡ nodes.old.items ++ flat_map with_prefixes (named literal.now)) }
{
    match literal {
        Literal::Equal { a, b } => push_both(alloc, nodes, a, b),
        Literal::Value { at, .. } => push_with_prefixes(alloc, nodes, at),
        Literal::Form { at, .. } => push_with_prefixes(alloc, nodes, at),
        Literal::Member { item, set } => push_both(alloc, nodes, item, set),
        Literal::Check(_) => Ok(()),
        Literal::Mark(_) => Ok(()),
    }
}

/// Appends two nodes with all nodes on the way to them.
fn push_both(alloc: Global, nodes: &mut Vec<Node>, a: &Node, b: &Node) -> Result<(), AllocError>
    ensures { OnOk result (nodes.new.items ≡ nodes.old.items ++ (with_prefixes a.now ++ with_prefixes b.now)) }
{
    push_with_prefixes(alloc, nodes, a)?;
    push_with_prefixes(alloc, nodes, b)
}

/// Appends the nodes at which the walks of the literal start, if it is a check.
fn push_starts_of(nodes: &mut Vec<Node>, literal: &Literal) -> Result<(), AllocError>
    ensures { OnOk result (nodes.new.items ≡ nodes.old.items ++ flat_map starts (checks_of literal.now)) }
{
    match literal {
        Literal::Check(check) => push_starts(nodes, check),
        _ => Ok(()),
    }
}

/// Appends the nodes at which the check's walks start.
fn push_starts(nodes: &mut Vec<Node>, check: &Check) -> Result<(), AllocError>
    ensures { OnOk result (nodes.new.items ≡ nodes.old.items ++ starts check.now) }
{
    match check {
        Check::Same { left, right, .. } => match right {
            Target::Atom(_) => push_start(nodes, left),
            Target::Walk(walk) => {
                push_start(nodes, left)?;
                push_start(nodes, walk)
            }
        },
        Check::Exists { left, .. } => push_start(nodes, left),
    }
}

/// Appends the node at which the walk starts.
fn push_start(nodes: &mut Vec<Node>, walk: &Walk) -> Result<(), AllocError>
    ensures { OnOk result (nodes.new.items ≡ nodes.old.items ++ walk.now.start ∷ []) }
{
    nodes.push(walk.start.clone()?)?;
    Ok(())
}

/// The nodes in order, each once.
fn sorted_set(mut nodes: Vec<Node>) -> Result<Vec<Node>, AllocError>
    ensures { IfOk result (λ set. Lists node_cmp (λ n. In n nodes.items) set.items) }
{
    nodes.sort()?;
    nodes.dedup();
    Ok(nodes)
}

/// Where a node's path ends: the node before its last attribute, and that attribute.
pub(crate) fn last_step(alloc: Global, node: &Node) -> Result<Option<(Node, Name)>, AllocError>
    ensures step { IfOk result (λ found. IfSome found (λ s. IsStep s.0 s.1 node.now)) }
    ensures start { IfOk result (λ found. IfNone found ((x : Node) (a : Name) → ¬ IsStep x a node.now)) }
{
    let Node::At { edge, path } = node else {
        return Ok(None);
    };
    let Some((last, rest)) = path.list().split_last() else {
        return Ok(None);
    };
    let before = node_at(alloc, edge, rest)?;
    Ok(Some((before, last.clone()?)))
}

/// The nodes that the literal names with all nodes on the way to them, and if `whole` also those at
/// which its walks start.
pub(crate) fn nodes_of(
    alloc: Global,
    literal: &Literal,
    whole: bool,
) -> Result<Vec<Node>, AllocError>
    ensures { IfOk result (λ found. found.items ≡ found_in whole literal.now) }
{
    let mut nodes = Vec::new(alloc);
    push_named(alloc, &mut nodes, literal)?;
    if !whole {
        return Ok(nodes);
    }
    push_starts_of(&mut nodes, literal)?;
    Ok(nodes)
}

/// Appends all nodes of the literal.
fn push_nodes(alloc: Global, nodes: &mut Vec<Node>, literal: &Literal) -> Result<(), AllocError>
    ensures { OnOk result (nodes.new.items ≡ nodes.old.items ++ found_in true literal.now) }
{
    push_named(alloc, nodes, literal)?;
    push_starts_of(nodes, literal)?;
    Ok(())
}

/// The nodes of the literals, in order, each once.
pub(crate) fn all_nodes(alloc: Global, literals: &[(Literal, Ctx)]) -> Result<Vec<Node>, AllocError>
    ensures { IfOk result (λ all. Lists node_cmp (λ n. In n (flat_map (λ l. found_in true l.0) literals.now)) all.items) }
{
    let mut nodes = Vec::new(alloc);
    for literal in literals {
        push_nodes(alloc, &mut nodes, &literal.0)?;
    }
    sorted_set(nodes)
}
