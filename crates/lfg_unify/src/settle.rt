ghost use Rattle.std.specs.Prelude.{◌≡◌, ℕ, ◌+◌, ◌<◌, List, length, true, false, IfOk, OnOk};
ghost use Rattle.lfg_context.specs.Sets.{Assignment, member, IsMade, AreMade, IsGrown, HasSamePicks};
ghost use Rattle.lfg_model.specs.Lists.{In};
ghost use Rattle.lfg_context.specs.Seen.{Set};
ghost use Rattle.lfg_unify.specs.declared.system.System.{System};
ghost use Rattle.lfg_unify.specs.Rows.{AreRows};
ghost use Rattle.lfg_unify.specs.Systems.{AddsGiven, AddsThere, AreLinked, AreSystemSets, AreWithin, HasEqual, HasRounds, IsClosed, IsGrowth, IsJoined, IsSystem, Solves};

use crate::classes::merge_all;
use crate::rounds::{join_all, link_all};
use crate::system::{Arc, System};
use crate::table::Table;
use lfg_context::{Contexts, Ctx};
use std::alloc::{AllocError, Global};

/// Uses each rule of equality once. Tells whether the table grew.
#[tactic(auto, using(crate::proofs::RowLaws::rows))]
fn round(
    alloc: Global,
    table: &mut Table,
    arcs: &[Arc],
    empty: &Ctx,
    contexts: &mut Contexts,
) -> Result<bool, AllocError>
    requires within { AreWithin (length table.old) arcs.now }
    requires made { AreMade contexts.old (λ e. e.1) arcs.now }
    requires empty_made { IsMade contexts.old empty.now }
    requires none { (a : Assignment) → member empty.now a ≡ false }
    requires rows { AreRows contexts.old table.old }
    ensures grown { IsGrown contexts.old contexts.new }
    ensures picks { HasSamePicks contexts.old contexts.new }
    ensures len { length table.new ≡ length table.old }
    ensures rows { AreRows contexts.new table.new }
    ensures growth { OnOk result (IsGrowth arcs.now table.old table.new) }
    ensures joined { OnOk result (IsJoined table.old table.new) }
    ensures linked { OnOk result (AreLinked arcs.now arcs.now table.old table.new) }
    ensures kept { IfOk result (λ changed. changed ≡ false → table.new ≡ table.old) }
{
    let joined = join_all(alloc, table, contexts)?;
    let linked = link_all(table, arcs, empty, contexts)?;
    if joined {
        return Ok(true);
    }
    Ok(linked)
}

/// Uses each rule of equality this many times, or until one use of all changes nothing. Tells whether
/// it came to that.
#[tactic(auto, using(crate::proofs::RowLaws::rows))]
fn rounds(
    alloc: Global,
    table: &mut Table,
    arcs: &[Arc],
    empty: &Ctx,
    count: usize,
    contexts: &mut Contexts,
) -> Result<bool, AllocError>
    requires within { AreWithin (length table.old) arcs.now }
    requires made { AreMade contexts.old (λ e. e.1) arcs.now }
    requires empty_made { IsMade contexts.old empty.now }
    requires none { (a : Assignment) → member empty.now a ≡ false }
    requires rows { AreRows contexts.old table.old }
    ensures grown { IsGrown contexts.old contexts.new }
    ensures picks { HasSamePicks contexts.old contexts.new }
    ensures len { length table.new ≡ length table.old }
    ensures rows { AreRows contexts.new table.new }
    ensures growth { OnOk result (IsGrowth arcs.now table.old table.new) }
    ensures settled { IfOk result (λ done. done ≡ true → (s : System) → s.arcs.items ≡ arcs.now → IsClosed s table.new) }
    ensures more { IfOk result (λ done. done ≡ false → (s : System) (n : ℕ) → s.arcs.items ≡ arcs.now → HasRounds s n table.old → HasRounds s (n + count) table.new) }
{
    for _turn in 0..count {
        if !round(alloc, table, arcs, empty, contexts)? {
            return Ok(true);
        }
    }
    Ok(false)
}

/// Uses the rules of equality until nothing changes. A table of n pairs has settled after n uses, and
/// there are no more pairs than pairs of stated places.
#[tactic(auto, using(crate::proofs::RowLaws::rows))]
fn settle(
    alloc: Global,
    table: &mut Table,
    arcs: &[Arc],
    empty: &Ctx,
    count: usize,
    contexts: &mut Contexts,
) -> Result<(), AllocError>
    requires within { AreWithin (length table.old) arcs.now }
    requires made { AreMade contexts.old (λ e. e.1) arcs.now }
    requires empty_made { IsMade contexts.old empty.now }
    requires none { (a : Assignment) → member empty.now a ≡ false }
    requires rows { AreRows contexts.old table.old }
    ensures grown { IsGrown contexts.old contexts.new }
    ensures picks { HasSamePicks contexts.old contexts.new }
    ensures len { length table.new ≡ length table.old }
    ensures rows { AreRows contexts.new table.new }
    ensures growth { OnOk result (IsGrowth arcs.now table.old table.new) }
    ensures equal { OnOk result ((s : System) (places : ℕ) → s.arcs.items ≡ arcs.now → length s.there.items ≡ count → IsSystem places s
        → HasRounds s 0 table.old → HasEqual s table.new) }
{
    for _turn in 0..count {
        if rounds(alloc, table, arcs, empty, count, contexts)? {
            return Ok(());
        }
    }
    Ok(())
}

/// Pairs each place that is stated with itself.
#[tactic(auto, using(crate::proofs::RowLaws::rows))]
fn place_there(
    table: &mut Table,
    there: &[(usize, Ctx)],
    contexts: &mut Contexts,
) -> Result<(), AllocError>
    requires within { (e : ℕ × Set) → In e there.now → e.0 < length table.old }
    requires made { AreMade contexts.old (λ e. e.1) there.now }
    requires rows { AreRows contexts.old table.old }
    ensures grown { IsGrown contexts.old contexts.new }
    ensures picks { HasSamePicks contexts.old contexts.new }
    ensures len { length table.new ≡ length table.old }
    ensures rows { AreRows contexts.new table.new }
    ensures adds { OnOk result (AddsThere there.now table.old table.new) }
{
    for entry in there {
        let _ = table.widen(entry.0, entry.0, &entry.1, contexts)?;
    }
    Ok(())
}

/// Pairs the places of each pair that is stated, both ways.
#[tactic(auto, using(crate::proofs::RowLaws::rows))]
fn place_given(
    table: &mut Table,
    given: &[((usize, usize), Ctx)],
    contexts: &mut Contexts,
) -> Result<(), AllocError>
    requires within { (e : (ℕ × ℕ) × Set) → In e given.now → (e.0.0 < length table.old) × (e.0.1 < length table.old) }
    requires made { AreMade contexts.old (λ e. e.1) given.now }
    requires rows { AreRows contexts.old table.old }
    ensures grown { IsGrown contexts.old contexts.new }
    ensures picks { HasSamePicks contexts.old contexts.new }
    ensures len { length table.new ≡ length table.old }
    ensures rows { AreRows contexts.new table.new }
    ensures adds { OnOk result (AddsGiven given.now table.old table.new) }
{
    for entry in given {
        let _ = table.widen(entry.0.0, entry.0.1, &entry.1, contexts)?;
        let _ = table.widen(entry.0.1, entry.0.0, &entry.1, contexts)?;
    }
    Ok(())
}

/// The pairs of equal places of the system, in the contexts in which they are equal. Classes are made
/// one by one; the rounds behind find that nothing is missing.
#[tactic(auto, using(crate::proofs::RowLaws::rows))]
pub(crate) fn solve(
    alloc: Global,
    system: &System,
    count: usize,
    contexts: &mut Contexts,
) -> Result<Table, AllocError>
    requires system { IsSystem count system.now }
    requires made { AreSystemSets contexts.old system.now }
    ensures grown { IsGrown contexts.old contexts.new }
    ensures picks { HasSamePicks contexts.old contexts.new }
    ensures len { IfOk result (λ table. length table ≡ count) }
    ensures rows { IfOk result (λ table. AreRows contexts.new table) }
    ensures solves { IfOk result (λ table. Solves system.now table) }
{
    let empty = contexts.no();
    let mut table = Table::new(alloc, count)?;
    place_there(&mut table, &system.there, contexts)?;
    place_given(&mut table, &system.given, contexts)?;
    let arcs = system.arcs.as_slice();
    merge_all(alloc, &mut table, &system.given, arcs, &empty, contexts)?;
    settle(
        alloc,
        &mut table,
        arcs,
        &empty,
        system.there.len(),
        contexts,
    )?;
    Ok(table)
}
