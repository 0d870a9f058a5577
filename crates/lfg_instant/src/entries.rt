ghost use Rattle.std.specs.Prelude.{◌≤◌, IfOk, length};
ghost use Rattle.lfg_model.specs.Lists.{In};
ghost use Rattle.lfg_model.specs.Loaded.{Loaded};
ghost use Rattle.lfg_model.specs.Spots.{AnEdge, Stands};
ghost use Rattle.lfg_packed.specs.Words.{AreEntries};
ghost use Rattle.lfg_instant.specs.Sites.{AreEntryLists};
ghost use Rattle.lfg_terms.specs.declared.node.Edge.{Edge};

use crate::words::entries_of;
use lfg_terms::{Edge, Grammar, List, TokenForms};
use std::alloc::{AllocError, Global};

/// The entries that whole derivations take at an edge of one, as a list.
fn entry_list(
    alloc: Global,
    grammar: &Grammar,
    tokens: &[TokenForms],
    edge: &Edge,
) -> Result<List<u32>, AllocError>
    requires loaded { Loaded grammar.now }
    requires few { length grammar.now.lexicon ≤ 4294967296 }
    requires stands { Stands grammar.now tokens.now (AnEdge edge.now) }
    ensures { IfOk result (λ list. AreEntries grammar.now tokens.now edge.now list) }
{
    let entries = entries_of(alloc, grammar, tokens, edge)?;
    let list = List::new(alloc, entries)?;
    Ok(list)
}

/// The entries that whole derivations take at each of some edges, in the order of the edges.
///
/// # Errors
///
/// For want of memory, and where an entry's place in the lexicon needs more than 32 bits.
pub(crate) fn entry_lists(
    alloc: Global,
    grammar: &Grammar,
    tokens: &[TokenForms],
    edges: &[Edge],
) -> Result<Vec<List<u32>>, AllocError>
    requires loaded { Loaded grammar.now }
    requires stand { (edge : Edge) → In edge edges.now → Stands grammar.now tokens.now (AnEdge edge) }
    ensures { IfOk result (λ lists. AreEntryLists grammar.now tokens.now edges.now lists.items) }
{
    if grammar.lexicon.list().len() > u32::MAX as usize {
        return Err(AllocError);
    }
    let mut lists = Vec::new(alloc);
    for edge in edges {
        lists.push(entry_list(alloc, grammar, tokens, edge)?)?;
    }
    Ok(lists)
}
