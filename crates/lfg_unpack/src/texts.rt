ghost use Rattle.std.specs.Prelude.{◌≡◌, [], ◌∷◌, ◌++◌, IfOk, OnOk, not, find};
ghost use Rattle.std.specs.List.{flat_map, list_any};
ghost use Rattle.std.specs.Option.{option_copied, option_to_list};
ghost use Rattle.lfg_terms.specs.FactTexts.{fact_text};
ghost use Rattle.lfg_model.specs.PairTexts.{branch_of, is_under, is_to, mothers, branches_under, branch_text, text_below, root_of, tree_text, pair_text};
ghost use Rattle.lfg_unpack.specs.Plain.{IsPlain, ArePlain};
ghost use Rattle.lfg_unpack.specs.Branches.{branch_view};

use lfg_model::Pair;
use lfg_terms::{Arg, Edge, Fact, Name, Node, push_fact, push_name};
use std::alloc::{AllocError, Global};

/// What a tree fact says: that a daughter or a word lies under a mother's edge.
#[derive(Clone, Copy)]
enum Branch<'a> {
    Daughter {
        daughter: &'a Edge,
        mother: &'a Edge,
    },
    Word {
        text: &'a Name,
        mother: &'a Edge,
    },
    Neither,
}

/// What the fact says.
fn branch_of(fact: &Fact) -> Branch<'_>
    ensures { branch_view result ≡ branch_of fact.now.args }
{
    match fact.args.list() {
        [first, second] => branch_between(first, second),
        _ => Branch::Neither,
    }
}

/// What a fact with these arguments says.
fn branch_between<'a>(first: &'a Arg, second: &'a Arg) -> Branch<'a>
    ensures { branch_view result ≡ branch_of (first.now ∷ second.now ∷ []) }
{
    let Arg::Node(Node::At { edge: below, .. }) = first else {
        return Branch::Neither;
    };
    match second {
        Arg::Node(Node::At { edge: mother, .. }) => Branch::Daughter {
            daughter: below,
            mother,
        },
        Arg::Node(Node::New { .. }) => Branch::Neither,
        Arg::Atom(text) => Branch::Word {
            text,
            mother: below,
        },
    }
}

/// Whether this stands under the edge.
fn is_under(branch: Branch<'_>, edge: &Edge) -> bool
    ensures { result ≡ is_under edge.now (branch_view branch.entry) }
{
    match branch {
        Branch::Daughter { mother, .. } => mother == edge,
        Branch::Word { mother, .. } => mother == edge,
        Branch::Neither => false,
    }
}

/// Whether this is the edge as a daughter.
fn is_to(branch: Branch<'_>, edge: &Edge) -> bool
    ensures { result ≡ is_to edge.now (branch_view branch.entry) }
{
    match branch {
        Branch::Daughter { daughter, .. } => daughter == edge,
        Branch::Word { .. } => false,
        Branch::Neither => false,
    }
}

/// The edge under which this stands.
fn mother_of<'a>(branch: Branch<'a>) -> Option<&'a Edge>
    ensures { option_to_list (option_copied result) ≡ mothers (branch_view branch.entry) }
{
    match branch {
        Branch::Daughter { mother, .. } => Some(mother),
        Branch::Word { mother, .. } => Some(mother),
        Branch::Neither => None,
    }
}

/// Whether the edge lies under another.
fn is_daughter(facts: &[Fact], edge: &Edge) -> bool
    ensures { result ≡ list_any (λ f. is_to edge.now (branch_of f.args)) facts.now }
{
    for fact in facts {
        if is_to(branch_of(fact), edge) {
            return true;
        }
    }
    false
}

/// The edge under which the fact says that something stands, if it is no daughter.
fn root_at<'a>(facts: &[Fact], fact: &'a Fact) -> Option<&'a Edge>
    ensures { option_copied result
        ≡ find (λ e. not (list_any (λ f. is_to e (branch_of f.args)) facts.now))
        (mothers (branch_of fact.now.args)) }
{
    match mother_of(branch_of(fact)) {
        Some(mother) => {
            if is_daughter(facts, mother) {
                None
            } else {
                Some(mother)
            }
        }
        None => None,
    }
}

/// The edge that has something under it and is no daughter.
fn root_of(facts: &[Fact]) -> Option<&Edge>
    ensures { option_copied result ≡ root_of facts.now }
{
    for fact in facts {
        if let Some(root) = root_at(facts, fact) {
            return Some(root);
        }
    }
    None
}

/// Appends the text of the tree below the edge, down to the depth: in brackets, its category and
/// what lies under it.
#[cycle(tree)]
fn push_tree(
    text: &mut Vec<u8>,
    facts: &[Fact],
    edge: &Edge,
    depth: usize,
) -> Result<(), AllocError>
    ensures { OnOk result (text.new.items
        ≡ text.old.items ++ text_below depth facts.now edge.now) }
{
    if depth == 0 {
        return Ok(());
    }
    text.push(b'[')?;
    push_name(text, &edge.cat)?;
    for fact in facts {
        push_branch(text, facts, edge, fact, depth - 1)?;
    }
    text.push(b']')?;
    Ok(())
}

/// Appends a space and the daughter or the word that the fact puts under the edge, if it does so.
/// The depth is that of a daughter's text.
#[cycle(tree)]
fn push_branch(
    text: &mut Vec<u8>,
    facts: &[Fact],
    edge: &Edge,
    fact: &Fact,
    depth: usize,
) -> Result<(), AllocError>
    ensures { OnOk result (text.new.items ≡ text.old.items
        ++ flat_map (branch_text (text_below depth facts.now))
        (branches_under (fact.now ∷ []) edge.now)) }
{
    let branch = branch_of(fact);
    if !is_under(branch, edge) {
        return Ok(());
    }
    text.push(b' ')?;
    match branch {
        Branch::Daughter { daughter, .. } => push_tree(text, facts, daughter, depth),
        Branch::Word { text: word, .. } => push_name(text, word),
        Branch::Neither => Ok(()),
    }
}

/// Appends the text of the tree of these facts.
fn push_root(text: &mut Vec<u8>, facts: &[Fact]) -> Result<(), AllocError>
    ensures { OnOk result (text.new.items ≡ text.old.items ++ tree_text facts.now) }
{
    match root_of(facts) {
        Some(root) => push_tree(text, facts, root, facts.len()),
        None => Ok(()),
    }
}

/// Appends the line of a fact.
fn push_line(alloc: Global, text: &mut Vec<u8>, fact: &Fact) -> Result<(), AllocError>
    requires { IsPlain fact.now }
    ensures { OnOk result (text.new.items
        ≡ text.old.items ++ (fact_text [] fact.now ++ 10 ∷ [])) }
{
    push_fact(alloc, text, fact, &[])?;
    text.push(b'\n')?;
    Ok(())
}

/// Appends a line with the tree, and a line for each fact of the f-structure.
fn push_pair(alloc: Global, text: &mut Vec<u8>, pair: &Pair) -> Result<(), AllocError>
    requires { ArePlain pair.now.facts }
    ensures { OnOk result (text.new.items ≡ text.old.items ++ pair_text pair.now) }
{
    text.extend_from_slice(b"tree ")?;
    push_root(text, pair.tree.list())?;
    text.push(b'\n')?;
    for fact in pair.facts.list() {
        push_line(alloc, text, fact)?;
    }
    Ok(())
}

/// The text of the pair: a line with the tree in brackets, and a line for each fact of the
/// f-structure, in order. No fact has a new node.
///
/// # Errors
///
/// Only for want of memory.
pub fn pair_text(alloc: Global, pair: &Pair) -> Result<Vec<u8>, AllocError>
    requires { ArePlain pair.now.facts }
    ensures { IfOk result (λ text. text.items ≡ pair_text pair.now) }
{
    let mut text = Vec::new(alloc);
    push_pair(alloc, &mut text, pair)?;
    Ok(text)
}
