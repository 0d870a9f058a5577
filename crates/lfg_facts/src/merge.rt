ghost use Rattle.std.specs.Prelude.{◌≡◌, ℕ, ◌≤◌, [], length, IfOk, OnOk};
ghost use Rattle.lfg_context.specs.Sets.{IsMade, AreMade, IsGrown, HasSamePicks};
ghost use Rattle.lfg_facts.specs.Stating.{AreEntries, IsEntry};
ghost use Rattle.lfg_facts.specs.Merging.{Puts, IsSortedByFact, IsMerged};
ghost use Rattle.std.specs.List.Sorted.{IsPermutation};

use crate::pairs::Entry;
use lfg_context::Contexts;
use std::alloc::{AllocError, Global};

/// Adds the entry behind the others: where the last one has the same fact, its set grows.
#[tactic(auto, using(crate::proofs::Classes::closed))]
fn put(facts: &mut Vec<Entry>, entry: &Entry, contexts: &mut Contexts) -> Result<(), AllocError>
    requires entry { IsEntry contexts.old entry.now }
    requires facts { AreEntries contexts.old facts.old.items }
    ensures grown { IsGrown contexts.old contexts.new }
    ensures picks { HasSamePicks contexts.old contexts.new }
    ensures facts { OnOk result (AreEntries contexts.new facts.new.items) }
    ensures puts { OnOk result (Puts facts.old.items entry.now facts.new.items) }
{
    let count = facts.len();
    if count > 0 {
        let last = count - 1;
        if facts[last].0 == entry.0 {
            let wider = contexts.or(&facts[last].1, &entry.1)?;
            facts[last].1 = wider;
            return Ok(());
        }
    }
    facts.push((entry.0.clone()?, entry.1.share()?))?;
    Ok(())
}

/// The entries of a list that does not fall, each fact once with the union of its sets.
#[tactic(auto, using(crate::proofs::Classes::closed))]
fn united(
    alloc: Global,
    entries: &[Entry],
    contexts: &mut Contexts,
) -> Result<Vec<Entry>, AllocError>
    requires sorted { IsSortedByFact entries.now }
    requires made { AreEntries contexts.old entries.now }
    ensures grown { IsGrown contexts.old contexts.new }
    ensures picks { HasSamePicks contexts.old contexts.new }
    ensures made { IfOk result (λ facts. AreEntries contexts.new facts.items) }
    ensures merged { IfOk result (λ facts. IsMerged entries.now facts.items) }
{
    let mut facts = Vec::new(alloc);
    for entry in entries {
        put(&mut facts, entry, contexts)?;
    }
    Ok(facts)
}

/// The entries in the order of their facts.
fn sorted(entries: Vec<Entry>) -> Result<Vec<Entry>, AllocError>
    ensures moved { IfOk result (λ facts. IsPermutation entries.items facts.items) }
    ensures sorted { IfOk result (λ facts. IsSortedByFact facts.items) }
{
    let mut facts = entries;
    facts.sort_by(|one, other| one.0.cmp(&other.0))?;
    Ok(facts)
}

/// The facts of the entries, which come in any order, in order and each once with the union of its
/// sets.
#[tactic(auto, using(crate::proofs::Classes::closed))]
pub(crate) fn merged(
    alloc: Global,
    entries: Vec<Entry>,
    contexts: &mut Contexts,
) -> Result<Vec<Entry>, AllocError>
    requires { AreEntries contexts.old entries.items }
    ensures grown { IsGrown contexts.old contexts.new }
    ensures picks { HasSamePicks contexts.old contexts.new }
    ensures made { IfOk result (λ facts. AreEntries contexts.new facts.items) }
    ensures merged { IfOk result (λ facts. IsMerged entries.items facts.items) }
{
    let ordered = sorted(entries)?;
    let facts = united(alloc, ordered.as_slice(), contexts)?;
    Ok(facts)
}
