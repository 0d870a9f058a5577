ghost use Rattle.std.specs.Prelude.{◌≡◌, ◌≢◌, ◌<◌, ◌+◌, ◌≤◌, ℕ, List, [], length, false, IsTrue, IfOk, OnOk, ◌∷◌};
ghost use Rattle.lfg_context.specs.Sets.{Assignment, member, IsMade, AreMade, IsGrown, HasSamePicks};
ghost use Rattle.lfg_model.specs.Lists.{In};
ghost use Rattle.lfg_unify.specs.declared.system.System.{System};
ghost use Rattle.lfg_unify.specs.Closures.{Ascends};
ghost use Rattle.lfg_unify.specs.Rows.{row_of, AreRows, Has, IsRow, Sweeps, Takes};
ghost use Rattle.lfg_unify.specs.Systems.{AreLinked, AreWithin, Arc, HasRounds, IsGrowth, IsJoined, IsLinked};

use crate::closure::context_at;
use crate::same::same_name;
use crate::system::Arc;
use crate::table::Table;
use lfg_context::{Contexts, Ctx};
use std::alloc::{AllocError, Global};

/// Adds to the row of the first place what stands in that of the second, where the context holds.
/// Tells whether the table grew.
#[tactic(auto, using(crate::proofs::RowLaws::rows))]
fn take_row(
    table: &mut Table,
    first: usize,
    second: usize,
    ctx: &Ctx,
    contexts: &mut Contexts,
) -> Result<bool, AllocError>
    requires first { first < length table.old }
    requires second { second < length table.old }
    requires rows { AreRows contexts.old table.old }
    requires made { IsMade contexts.old ctx.now }
    ensures grown { IsGrown contexts.old contexts.new }
    ensures picks { HasSamePicks contexts.old contexts.new }
    ensures len { length table.new ≡ length table.old }
    ensures rows { AreRows contexts.new table.new }
    ensures others { (x : ℕ) → x ≢ first → row_of table.new x ≡ row_of table.old x }
    ensures step { OnOk result (Takes (row_of table.old first) ctx.now (row_of table.old second) (row_of table.new first)) }
    ensures kept { IfOk result (λ changed. changed ≡ false → table.new ≡ table.old) }
{
    let mut changed = false;
    if first == second {
        return Ok(false);
    }
    for number in 0..table.row(second).len() {
        let entry = &table.row(second)[number];
        let place = entry.0;
        let both = contexts.and(ctx, &entry.1)?;
        if table.widen(first, place, &both, contexts)? {
            changed = true;
        }
    }
    Ok(changed)
}

/// A copy of the row, which shares its contexts.
pub(crate) fn copied(alloc: Global, row: &[(usize, Ctx)]) -> Result<Vec<(usize, Ctx)>, AllocError>
    ensures { IfOk result (λ copy. copy.items ≡ row.now) }
{
    let mut copy = Vec::new(alloc);
    for entry in row {
        copy.push((entry.0, entry.1.share()?))?;
    }
    Ok(copy)
}

/// Adds to the row of the place what stands in the rows of the places given. Tells whether the table
/// grew.
#[tactic(auto, using(crate::proofs::RowLaws::rows))]
fn take_rows(
    table: &mut Table,
    place: usize,
    row: &[(usize, Ctx)],
    contexts: &mut Contexts,
) -> Result<bool, AllocError>
    requires place { place < length table.old }
    requires within { Ascends (length table.old) 0 row.now }
    requires row { IsRow contexts.old row.now }
    requires rows { AreRows contexts.old table.old }
    ensures grown { IsGrown contexts.old contexts.new }
    ensures picks { HasSamePicks contexts.old contexts.new }
    ensures len { length table.new ≡ length table.old }
    ensures rows { AreRows contexts.new table.new }
    ensures others { (x : ℕ) → x ≢ place → row_of table.new x ≡ row_of table.old x }
    ensures step { OnOk result (Sweeps table.old (row_of table.old place) row.now (row_of table.new place)) }
    ensures kept { IfOk result (λ changed. changed ≡ false → table.new ≡ table.old) }
{
    let mut changed = false;
    for entry in row {
        if take_row(table, place, entry.0, &entry.1, contexts)? {
            changed = true;
        }
    }
    Ok(changed)
}

/// Pairs the place with all that is paired with a place in its row. Tells whether the table grew.
#[tactic(auto, using(crate::proofs::RowLaws::rows))]
pub(crate) fn sweep_row(
    alloc: Global,
    table: &mut Table,
    place: usize,
    contexts: &mut Contexts,
) -> Result<bool, AllocError>
    requires place { place < length table.old }
    requires rows { AreRows contexts.old table.old }
    ensures grown { IsGrown contexts.old contexts.new }
    ensures picks { HasSamePicks contexts.old contexts.new }
    ensures len { length table.new ≡ length table.old }
    ensures rows { AreRows contexts.new table.new }
    ensures growth { OnOk result ((arcs : List Arc) → IsGrowth arcs table.old table.new) }
    ensures joined { OnOk result ((a : Assignment) (j y : ℕ) → Has table.old a place j → Has table.old a j y → Has table.new a place y) }
    ensures kept { IfOk result (λ changed. changed ≡ false → table.new ≡ table.old) }
{
    let row = copied(alloc, table.row(place))?;
    let changed = take_rows(table, place, &row, contexts)?;
    Ok(changed)
}

/// Pairs all that is paired through a place. Tells whether the table grew.
#[tactic(auto, using(crate::proofs::RowLaws::rows))]
pub(crate) fn join_all(
    alloc: Global,
    table: &mut Table,
    contexts: &mut Contexts,
) -> Result<bool, AllocError>
    requires rows { AreRows contexts.old table.old }
    ensures grown { IsGrown contexts.old contexts.new }
    ensures picks { HasSamePicks contexts.old contexts.new }
    ensures len { length table.new ≡ length table.old }
    ensures rows { AreRows contexts.new table.new }
    ensures growth { OnOk result ((arcs : List Arc) → IsGrowth arcs table.old table.new) }
    ensures joined { OnOk result (IsJoined table.old table.new) }
    ensures kept { IfOk result (λ changed. changed ≡ false → table.new ≡ table.old) }
{
    let mut changed = false;
    for place in 0..table.count() {
        if sweep_row(alloc, table, place, contexts)? {
            changed = true;
        }
    }
    Ok(changed)
}

/// Pairs the targets of two arcs, where their sources are paired and they go by one attribute. Tells
/// whether the table grew.
#[tactic(auto, using(crate::proofs::RowLaws::rows))]
pub(crate) fn link(
    table: &mut Table,
    first: &Arc,
    second: &Arc,
    empty: &Ctx,
    contexts: &mut Contexts,
) -> Result<bool, AllocError>
    requires first { (first.now.0.0 < length table.old) × (first.now.0.2 < length table.old) }
    requires second { (second.now.0.0 < length table.old) × (second.now.0.2 < length table.old) }
    requires first_made { IsMade contexts.old first.now.1 }
    requires second_made { IsMade contexts.old second.now.1 }
    requires empty_made { IsMade contexts.old empty.now }
    requires none { (a : Assignment) → member empty.now a ≡ false }
    requires rows { AreRows contexts.old table.old }
    ensures grown { IsGrown contexts.old contexts.new }
    ensures picks { HasSamePicks contexts.old contexts.new }
    ensures len { length table.new ≡ length table.old }
    ensures rows { AreRows contexts.new table.new }
    ensures growth { OnOk result ((arcs : List Arc) → In first.now arcs → In second.now arcs → IsGrowth arcs table.old table.new) }
    ensures linked { OnOk result ((a : Assignment) → IsLinked first.now second.now table.old a → Has table.new a first.now.0.2 second.now.0.2) }
    ensures kept { IfOk result (λ changed. changed ≡ false → table.new ≡ table.old) }
{
    if !same_name(&first.0.1, &second.0.1) {
        return Ok(false);
    }
    let sources = context_at(table.row(first.0.0), second.0.0, empty);
    let both = contexts.and(sources, &first.1)?;
    let all = contexts.and(&both, &second.1)?;
    let changed = table.widen(first.0.2, second.0.2, &all, contexts)?;
    Ok(changed)
}

/// Pairs the target of the arc with those of others, where their sources are paired. Tells whether
/// the table grew.
#[tactic(auto, using(crate::proofs::RowLaws::rows))]
fn link_from(
    table: &mut Table,
    first: &Arc,
    arcs: &[Arc],
    empty: &Ctx,
    contexts: &mut Contexts,
) -> Result<bool, AllocError>
    requires first { (first.now.0.0 < length table.old) × (first.now.0.2 < length table.old) }
    requires within { AreWithin (length table.old) arcs.now }
    requires first_made { IsMade contexts.old first.now.1 }
    requires made { AreMade contexts.old (λ e. e.1) arcs.now }
    requires empty_made { IsMade contexts.old empty.now }
    requires none { (a : Assignment) → member empty.now a ≡ false }
    requires rows { AreRows contexts.old table.old }
    ensures grown { IsGrown contexts.old contexts.new }
    ensures picks { HasSamePicks contexts.old contexts.new }
    ensures len { length table.new ≡ length table.old }
    ensures rows { AreRows contexts.new table.new }
    ensures growth { OnOk result (In first.now arcs.now → IsGrowth arcs.now table.old table.new) }
    ensures linked { OnOk result (AreLinked (first.now ∷ []) arcs.now table.old table.new) }
    ensures kept { IfOk result (λ changed. changed ≡ false → table.new ≡ table.old) }
{
    let mut changed = false;
    for second in arcs {
        if link(table, first, second, empty, contexts)? {
            changed = true;
        }
    }
    Ok(changed)
}

/// Pairs the targets of all arcs by one attribute whose sources are paired. Tells whether the table
/// grew.
#[tactic(auto, using(crate::proofs::RowLaws::rows))]
pub(crate) fn link_all(
    table: &mut Table,
    arcs: &[Arc],
    empty: &Ctx,
    contexts: &mut Contexts,
) -> Result<bool, AllocError>
    requires within { AreWithin (length table.old) arcs.now }
    requires made { AreMade contexts.old (λ e. e.1) arcs.now }
    requires empty_made { IsMade contexts.old empty.now }
    requires none { (a : Assignment) → member empty.now a ≡ false }
    requires rows { AreRows contexts.old table.old }
    ensures grown { IsGrown contexts.old contexts.new }
    ensures picks { HasSamePicks contexts.old contexts.new }
    ensures len { length table.new ≡ length table.old }
    ensures rows { AreRows contexts.new table.new }
    ensures growth { OnOk result (IsGrowth arcs.now table.old table.new) }
    ensures linked { OnOk result (AreLinked arcs.now arcs.now table.old table.new) }
    ensures kept { IfOk result (λ changed. changed ≡ false → table.new ≡ table.old) }
{
    let mut changed = false;
    for first in arcs {
        if link_from(table, first, arcs, empty, contexts)? {
            changed = true;
        }
    }
    Ok(changed)
}
