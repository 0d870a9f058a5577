ghost use Rattle.std.specs.Prelude.{◌≡◌, ℕ, ◌<◌, ◌==◌, false, IfOk, OnOk, length};
ghost use Rattle.lfg_context.specs.Sets.{Assignment, member, IsGrown, HasSamePicks, IsSetOf, AreMade};
ghost use Rattle.lfg_instant.specs.Flow.{held, at, after, after_all, IsWithin, AreWithin, IsFlow};

use lfg_context::{Contexts, Ctx};
use std::alloc::{AllocError, Global};

/// A way from one place to another, open in the assignments of a pick. Places and picks are counted
/// from 0.
#[derive(Clone, Copy, Debug)]
pub(crate) struct Passage {
    pub(crate) from: usize,
    pub(crate) pick: usize,
    pub(crate) to: usize,
}

/// Gives the end of a passage what its start has, in the assignments of its pick. Answers whether
/// that is more than the end had.
#[tactic(auto, using(lfg_context::proofs::Growing::growing))]
fn pass(
    passage: &Passage,
    picks: &[Ctx],
    table: &mut Vec<Ctx>,
    contexts: &mut Contexts,
) -> Result<bool, AllocError>
    requires within { IsWithin (length table.old.items) (length picks.now) passage.now }
    requires made { AreMade contexts.old (λ x. x) table.old.items }
    requires picks_made { AreMade contexts.old (λ x. x) picks.now }
    ensures made { AreMade contexts.new (λ x. x) table.new.items }
    ensures grown { IsGrown contexts.old contexts.new }
    ensures picks { HasSamePicks contexts.old contexts.new }
    ensures len { length table.new.items ≡ length table.old.items }
    ensures step { OnOk result ((a : Assignment) → at table.new.items a ≡ after (at picks.now a) passage.now (at table.old.items a)) }
    ensures kept { IfOk result (λ changed. changed ≡ false → table.new.items ≡ table.old.items) }
{
    if contexts.is_empty(&table[passage.from]) {
        return Ok(false);
    }
    let more = contexts.and(&table[passage.from], &picks[passage.pick])?;
    let wider = contexts.or(&table[passage.to], &more)?;
    if contexts.same(&wider, &table[passage.to]) {
        return Ok(false);
    }
    table[passage.to] = wider;
    Ok(true)
}

/// Takes each passage once, and answers whether a place got more.
#[tactic(auto, using(lfg_context::proofs::Growing::growing))]
fn round(
    passages: &[Passage],
    picks: &[Ctx],
    table: &mut Vec<Ctx>,
    contexts: &mut Contexts,
) -> Result<bool, AllocError>
    requires within { AreWithin (length table.old.items) (length picks.now) passages.now }
    requires made { AreMade contexts.old (λ x. x) table.old.items }
    requires picks_made { AreMade contexts.old (λ x. x) picks.now }
    ensures made { AreMade contexts.new (λ x. x) table.new.items }
    ensures grown { IsGrown contexts.old contexts.new }
    ensures picks { HasSamePicks contexts.old contexts.new }
    ensures len { length table.new.items ≡ length table.old.items }
    ensures step { OnOk result ((a : Assignment) → at table.new.items a ≡ after_all (at picks.now a) passages.now (at table.old.items a)) }
    ensures kept { IfOk result (λ changed. changed ≡ false → table.new.items ≡ table.old.items) }
{
    let mut changed = false;
    for passage in passages {
        let more = pass(passage, picks, table, contexts)?;
        changed = changed | more;
    }
    Ok(changed)
}

/// All assignments for the root, and none for another place.
fn start_at(contexts: &Contexts, is_root: bool) -> Ctx
    ensures { IsSetOf contexts.now result (λ _. is_root) }
{
    if is_root {
        contexts.yes()
    } else {
        contexts.no()
    }
}

/// What the places have before any passage is taken.
#[tactic(auto, using(lfg_context::proofs::Growing::growing))]
fn starts(
    alloc: Global,
    places: usize,
    root: usize,
    contexts: &Contexts,
) -> Result<Vec<Ctx>, AllocError>
    ensures made { IfOk result (λ table. AreMade contexts.now (λ x. x) table.items) }
    ensures len { IfOk result (λ table. length table.items ≡ places) }
    ensures held { IfOk result (λ table. (a : Assignment) (i : ℕ) → i < places → held (at table.items a) i ≡ (i == root)) }
{
    let mut table = Vec::new(alloc);
    for place in 0..places {
        table.push(start_at(contexts, place == root))?;
    }
    Ok(table)
}

/// The contexts of all places, where the root has all assignments and each passage gives its end
/// what its start has, in the assignments of its pick.
///
/// # Errors
///
/// Only for want of memory.
#[tactic(auto, using(lfg_context::proofs::Growing::growing))]
pub(crate) fn flow(
    alloc: Global,
    places: usize,
    root: usize,
    passages: &[Passage],
    picks: &[Ctx],
    contexts: &mut Contexts,
) -> Result<Vec<Ctx>, AllocError>
    requires root { root < places }
    requires within { AreWithin places (length picks.now) passages.now }
    requires picks_made { AreMade contexts.old (λ x. x) picks.now }
    ensures made { IfOk result (λ found. AreMade contexts.new (λ x. x) found.items) }
    ensures grown { IsGrown contexts.old contexts.new }
    ensures picks { HasSamePicks contexts.old contexts.new }
    ensures len { IfOk result (λ found. length found.items ≡ places) }
    ensures exact { IfOk result (λ found. IsFlow passages.now picks.now root found.items) }
{
    let mut table = starts(alloc, places, root, contexts)?;
    for _turn in 0..places {
        if !round(passages, picks, &mut table, contexts)? {
            return Ok(table);
        }
    }
    let _ = round(passages, picks, &mut table, contexts)?;
    Ok(table)
}
