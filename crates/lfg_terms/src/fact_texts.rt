ghost use Rattle.std.specs.Prelude.{◌↔◌, IsTrue, ◌≡◌, ◌++◌, ◌∷◌, [], ◌<◌, ◌^◌, IfOk, IfSome, OnOk, OnErr, length};
ghost use Rattle.std.specs.List.{All};
ghost use Rattle.lfg_terms.specs.Texts.{name_text, edge_text, Keeps};
ghost use Rattle.lfg_terms.specs.FactTexts.{comma, slash, path_text, place_in, node_text, arg_text, args_text, fact_text, IsListed, IsListedArg, IsListedFact, IsPlacedNode, IsPlacedArg, IsPlacedFact, IsNamed};
ghost use Rattle.lfg_terms.specs.declared.node.Fact.{Fact};

use crate::name::Name;
use crate::node::{Arg, Fact, Node};
use crate::path::Path;
use crate::texts::{push_edge, push_name, push_number};
use std::alloc::{AllocError, Global};

/// Appends each attribute behind a slash.
fn push_path(text: &mut Vec<u8>, path: &Path) -> Result<(), AllocError>
    ensures ok { OnOk result (text.new.items ≡ text.old.items ++ path_text path.now) }
    ensures err { OnErr result (Keeps text.old.items text.new.items) }
{
    for name in path.list() {
        push_attribute(text, name)?;
    }
    Ok(())
}

/// Appends the attribute behind a slash.
fn push_attribute(text: &mut Vec<u8>, name: &Name) -> Result<(), AllocError>
    ensures ok { OnOk result (text.new.items ≡ text.old.items ++ slash ∷ name_text name.now) }
    ensures err { OnErr result (Keeps text.old.items text.new.items) }
{
    text.push(b'/')?;
    push_name(text, name)
}

/// Where the node first stands in the table.
fn place_in(table: &[Node], node: &Node) -> Option<usize>
    ensures value { result ≡ place_in table.now node.now }
    ensures within { IfSome result (λ place. place < length table.now) }
{
    table.iter().position(|known| node == known)
}

/// Whether the argument is no new node, or one that stands in the table.
fn is_listed_arg(arg: &Arg, table: &[Node]) -> bool
    ensures { IsTrue result ↔ IsListedArg table.now arg.now }
{
    match arg {
        Arg::Atom(_) => true,
        Arg::Node(node) => match node {
            Node::At { .. } => true,
            Node::New { .. } => place_in(table, node).is_some(),
        },
    }
}

/// Whether each new node that is an argument of the fact stands in the table, as `fact_text`
/// requires. Takes no memory.
pub fn is_listed(fact: &Fact, table: &[Node]) -> bool
    ensures { IsTrue result ↔ IsListedFact table.now fact.now }
{
    fact.args.list().iter().all(|arg| is_listed_arg(arg, table))
}

/// Appends the node's text.
fn push_node(
    alloc: Global,
    text: &mut Vec<u8>,
    node: &Node,
    table: &[Node],
) -> Result<(), AllocError>
    requires { IsListed table.now node.now }
    ensures ok { OnOk result (text.new.items ≡ text.old.items ++ node_text table.now node.now) }
    ensures placed { OnOk result (IsPlacedNode node.now) }
    ensures err { OnErr result (Keeps text.old.items text.new.items) }
{
    match node {
        Node::At { edge, path } => {
            push_edge(alloc, text, edge)?;
            push_path(text, path)
        }
        Node::New { .. } => {
            if let Some(place) = place_in(table, node) {
                text.push(b'#')?;
                push_number(alloc, text, place as u64 + 1)?;
            }
            Ok(())
        }
    }
}

/// Appends the argument's text: an atom as its name text, a node of a c-structure with its path,
/// and a new node as a hash and the number of its first place in the table, counted from 1.
///
/// A new node has to stand in the table.
///
/// # Errors
///
/// Only for want of memory. What stood in `text` then still stands at its front.
pub fn push_arg(
    alloc: Global,
    text: &mut Vec<u8>,
    arg: &Arg,
    table: &[Node],
) -> Result<(), AllocError>
    requires { IsListedArg table.now arg.now }
    ensures ok { OnOk result (text.new.items ≡ text.old.items ++ arg_text table.now arg.now) }
    ensures placed { OnOk result (IsPlacedArg arg.now) }
    ensures err { OnErr result (Keeps text.old.items text.new.items) }
{
    match arg {
        Arg::Atom(name) => push_name(text, name),
        Arg::Node(node) => push_node(alloc, text, node, table),
    }
}

/// Appends the argument's text behind a comma.
fn push_other_arg(
    alloc: Global,
    text: &mut Vec<u8>,
    arg: &Arg,
    table: &[Node],
) -> Result<(), AllocError>
    requires { IsListedArg table.now arg.now }
    ensures ok { OnOk result (text.new.items ≡ text.old.items ++ comma ∷ arg_text table.now arg.now) }
    ensures placed { OnOk result (IsPlacedArg arg.now) }
    ensures err { OnErr result (Keeps text.old.items text.new.items) }
{
    text.push(b',')?;
    push_arg(alloc, text, arg, table)
}

/// Appends the arguments' texts with commas between.
///
/// Each new node that is one of the arguments has to stand in the table.
///
/// # Errors
///
/// Only for want of memory. What stood in `text` then still stands at its front.
pub fn push_args(
    alloc: Global,
    text: &mut Vec<u8>,
    args: &[Arg],
    table: &[Node],
) -> Result<(), AllocError>
    requires { All (IsListedArg table.now) args.now }
    ensures ok { OnOk result (text.new.items ≡ text.old.items ++ args_text table.now args.now) }
    ensures placed { OnOk result (All IsPlacedArg args.now) }
    ensures err { OnErr result (Keeps text.old.items text.new.items) }
{
    if let Some((first, others)) = args.split_first() {
        push_arg(alloc, text, first, table)?;
        for arg in others {
            push_other_arg(alloc, text, arg, table)?;
        }
    }
    Ok(())
}

/// Appends the fact's text, as `fact_text` gives it.
///
/// Each new node that is an argument of the fact has to stand in the table.
///
/// # Errors
///
/// Only for want of memory. What stood in `text` then still stands at its front.
pub fn push_fact(
    alloc: Global,
    text: &mut Vec<u8>,
    fact: &Fact,
    table: &[Node],
) -> Result<(), AllocError>
    requires { IsListedFact table.now fact.now }
    ensures ok { OnOk result (text.new.items ≡ text.old.items ++ fact_text table.now fact.now) }
    ensures placed { OnOk result (IsPlacedFact fact.now) }
    ensures err { OnErr result (Keeps text.old.items text.new.items) }
{
    push_name(text, &fact.rel)?;
    text.push(b'(')?;
    push_args(alloc, text, fact.args.list(), table)?;
    text.push(b')')?;
    Ok(())
}

/// The fact's text: the relation and the arguments between brackets, with commas between. A new
/// node is written as its first place in the table, counted from 1.
///
/// Each new node that is an argument of the fact has to stand in the table. Under one table
/// distinct facts have distinct texts, except that the empty atom is shown as no argument is.
///
/// # Errors
///
/// Only for want of memory.
pub fn fact_text(alloc: Global, fact: &Fact, table: &[Node]) -> Result<Vec<u8>, AllocError>
    requires { IsListedFact table.now fact.now }
    ensures value { IfOk result (λ text. text.items ≡ fact_text table.now fact.now) }
    ensures placed { OnOk result (IsPlacedFact fact.now) }
    ensures distinct { IfOk result (λ text. (other : Fact) → IsListedFact table.now other → IsPlacedFact other →
        IsNamed other → IsNamed fact.now → fact_text table.now other ≡ text.items → other ≡ fact.now) }
{
    let mut text = Vec::new(alloc);
    push_fact(alloc, &mut text, fact, table)?;
    Ok(text)
}
