ghost use Rattle.std.specs.Prelude.{◌≡◌, ◌≢◌, ◌<◌, ℕ, List, length, false, IfOk, OnOk};
ghost use Rattle.lfg_context.specs.Seen.{Set};
ghost use Rattle.lfg_context.specs.Sets.{Assignment, member, IsMade, AreMade, IsGrown, HasSamePicks};
ghost use Rattle.lfg_model.specs.Lists.{In};
ghost use Rattle.lfg_unify.specs.Closures.{Ascends};
ghost use Rattle.lfg_unify.specs.Rows.{row_of, AreRows, Has, IsRow, Stands, Takes};
ghost use Rattle.lfg_unify.specs.Systems.{AreWithin, Arc, IsGrowth};

use crate::closure::context_at;
use crate::rounds::{copied, link};
use crate::system::Arc;
use crate::table::Table;
use lfg_context::{Contexts, Ctx};
use std::alloc::{AllocError, Global};

/// Adds to the row of the place what stands in the given row, where the context holds.
#[tactic(auto, using(crate::proofs::RowLaws::rows))]
fn take_entries(
    table: &mut Table,
    place: usize,
    ctx: &Ctx,
    row: &[(usize, Ctx)],
    contexts: &mut Contexts,
) -> Result<(), AllocError>
    requires place { place < length table.old }
    requires within { Ascends (length table.old) 0 row.now }
    requires row { IsRow contexts.old row.now }
    requires made { IsMade contexts.old ctx.now }
    requires rows { AreRows contexts.old table.old }
    ensures grown { IsGrown contexts.old contexts.new }
    ensures picks { HasSamePicks contexts.old contexts.new }
    ensures len { length table.new ≡ length table.old }
    ensures rows { AreRows contexts.new table.new }
    ensures others { (x : ℕ) → x ≢ place → row_of table.new x ≡ row_of table.old x }
    ensures step { OnOk result (Takes (row_of table.old place) ctx.now row.now (row_of table.new place)) }
{
    for entry in row {
        let both = contexts.and(ctx, &entry.1)?;
        let _ = table.widen(place, entry.0, &both, contexts)?;
    }
    Ok(())
}

/// Pairs the place with all of the row of the second place, where it is paired with the first place
/// and this one with the second.
#[tactic(auto, using(crate::proofs::RowLaws::rows))]
fn reach(
    table: &mut Table,
    place: usize,
    first: usize,
    second: usize,
    row: &[(usize, Ctx)],
    empty: &Ctx,
    contexts: &mut Contexts,
) -> Result<(), AllocError>
    requires place { place < length table.old }
    requires first { first < length table.old }
    requires within { Ascends (length table.old) 0 row.now }
    requires row { IsRow contexts.old row.now }
    requires held { (a : Assignment) (y : ℕ) → Stands row.now a y → Has table.old a second y }
    requires empty_made { IsMade contexts.old empty.now }
    requires none { (a : Assignment) → member empty.now a ≡ false }
    requires rows { AreRows contexts.old table.old }
    ensures grown { IsGrown contexts.old contexts.new }
    ensures picks { HasSamePicks contexts.old contexts.new }
    ensures len { length table.new ≡ length table.old }
    ensures rows { AreRows contexts.new table.new }
    ensures growth { OnOk result ((arcs : List Arc) → IsGrowth arcs table.old table.new) }
{
    let near = context_at(table.row(place), first, empty);
    let far = context_at(table.row(first), second, empty);
    let both = contexts.and(near, far)?;
    if contexts.is_empty(&both) {
        return Ok(());
    }
    take_entries(table, place, &both, row, contexts)?;
    Ok(())
}

/// Pairs each of the places with all of the row of the second place, where it is paired with the
/// first place and this one with the second.
#[tactic(auto, using(crate::proofs::RowLaws::rows))]
fn spread(
    table: &mut Table,
    places: &[(usize, Ctx)],
    first: usize,
    second: usize,
    row: &[(usize, Ctx)],
    empty: &Ctx,
    contexts: &mut Contexts,
) -> Result<(), AllocError>
    requires places { Ascends (length table.old) 0 places.now }
    requires first { first < length table.old }
    requires within { Ascends (length table.old) 0 row.now }
    requires row { IsRow contexts.old row.now }
    requires held { (a : Assignment) (y : ℕ) → Stands row.now a y → Has table.old a second y }
    requires empty_made { IsMade contexts.old empty.now }
    requires none { (a : Assignment) → member empty.now a ≡ false }
    requires rows { AreRows contexts.old table.old }
    ensures grown { IsGrown contexts.old contexts.new }
    ensures picks { HasSamePicks contexts.old contexts.new }
    ensures len { length table.new ≡ length table.old }
    ensures rows { AreRows contexts.new table.new }
    ensures growth { OnOk result ((arcs : List Arc) → IsGrowth arcs table.old table.new) }
{
    for entry in places {
        reach(table, entry.0, first, second, row, empty, contexts)?;
    }
    Ok(())
}

/// Makes one class of those of the two places, where these are paired.
#[tactic(auto, using(crate::proofs::RowLaws::rows))]
fn merge(
    alloc: Global,
    table: &mut Table,
    first: usize,
    second: usize,
    empty: &Ctx,
    contexts: &mut Contexts,
) -> Result<(), AllocError>
    requires first { first < length table.old }
    requires second { second < length table.old }
    requires empty_made { IsMade contexts.old empty.now }
    requires none { (a : Assignment) → member empty.now a ≡ false }
    requires rows { AreRows contexts.old table.old }
    ensures grown { IsGrown contexts.old contexts.new }
    ensures picks { HasSamePicks contexts.old contexts.new }
    ensures len { length table.new ≡ length table.old }
    ensures rows { AreRows contexts.new table.new }
    ensures growth { OnOk result ((arcs : List Arc) → IsGrowth arcs table.old table.new) }
{
    let left = copied(alloc, table.row(first))?;
    let right = copied(alloc, table.row(second))?;
    let near = left.as_slice();
    let far = right.as_slice();
    spread(table, near, first, second, far, empty, contexts)?;
    spread(table, far, second, first, near, empty, contexts)?;
    Ok(())
}

/// Makes one class of those of each two places that are stated to be equal, where they are paired.
#[tactic(auto, using(crate::proofs::RowLaws::rows))]
fn merge_given(
    alloc: Global,
    table: &mut Table,
    given: &[((usize, usize), Ctx)],
    empty: &Ctx,
    contexts: &mut Contexts,
) -> Result<(), AllocError>
    requires within { (e : (ℕ × ℕ) × Set) → In e given.now → (e.0.0 < length table.old) × (e.0.1 < length table.old) }
    requires empty_made { IsMade contexts.old empty.now }
    requires none { (a : Assignment) → member empty.now a ≡ false }
    requires rows { AreRows contexts.old table.old }
    ensures grown { IsGrown contexts.old contexts.new }
    ensures picks { HasSamePicks contexts.old contexts.new }
    ensures len { length table.new ≡ length table.old }
    ensures rows { AreRows contexts.new table.new }
    ensures growth { OnOk result ((arcs : List Arc) → IsGrowth arcs table.old table.new) }
{
    for entry in given {
        merge(alloc, table, entry.0.0, entry.0.1, empty, contexts)?;
    }
    Ok(())
}

/// Pairs the targets of two arcs, where their sources are paired and they go by one attribute, and
/// makes one class of theirs. Tells whether the pair is new somewhere.
#[tactic(auto, using(crate::proofs::RowLaws::rows))]
fn merge_targets(
    alloc: Global,
    table: &mut Table,
    first: &Arc,
    second: &Arc,
    empty: &Ctx,
    contexts: &mut Contexts,
) -> Result<bool, AllocError>
    requires first { (first.now.0.0 < length table.old) × (first.now.0.2 < length table.old) }
    requires second { (second.now.0.0 < length table.old) × (second.now.0.2 < length table.old) }
    requires first_made { IsMade contexts.old first.now.1 }
    requires second_made { IsMade contexts.old second.now.1 }
    requires empty_made { IsMade contexts.old empty.now }
    requires none { (a : Assignment) → member empty.now a ≡ false }
    requires rows { AreRows contexts.old table.old }
    ensures grown { IsGrown contexts.old contexts.new }
    ensures picks { HasSamePicks contexts.old contexts.new }
    ensures len { length table.new ≡ length table.old }
    ensures rows { AreRows contexts.new table.new }
    ensures growth { OnOk result ((arcs : List Arc) → In first.now arcs → In second.now arcs → IsGrowth arcs table.old table.new) }
{
    if !link(table, first, second, empty, contexts)? {
        return Ok(false);
    }
    let _ = link(table, second, first, empty, contexts)?;
    merge(alloc, table, first.0.2, second.0.2, empty, contexts)?;
    Ok(true)
}

/// Merges the classes of the targets of the arc and of each of the others, where their sources are
/// paired. Tells whether something was new.
#[tactic(auto, using(crate::proofs::RowLaws::rows))]
fn merge_from(
    alloc: Global,
    table: &mut Table,
    first: &Arc,
    arcs: &[Arc],
    empty: &Ctx,
    contexts: &mut Contexts,
) -> Result<bool, AllocError>
    requires first { (first.now.0.0 < length table.old) × (first.now.0.2 < length table.old) }
    requires within { AreWithin (length table.old) arcs.now }
    requires first_made { IsMade contexts.old first.now.1 }
    requires made { AreMade contexts.old (λ e. e.1) arcs.now }
    requires empty_made { IsMade contexts.old empty.now }
    requires none { (a : Assignment) → member empty.now a ≡ false }
    requires rows { AreRows contexts.old table.old }
    ensures grown { IsGrown contexts.old contexts.new }
    ensures picks { HasSamePicks contexts.old contexts.new }
    ensures len { length table.new ≡ length table.old }
    ensures rows { AreRows contexts.new table.new }
    ensures growth { OnOk result (In first.now arcs.now → IsGrowth arcs.now table.old table.new) }
{
    let mut changed = false;
    for second in arcs {
        if merge_targets(alloc, table, first, second, empty, contexts)? {
            changed = true;
        }
    }
    Ok(changed)
}

/// Merges the classes of the targets of all arcs by one attribute whose sources are paired. Tells
/// whether something was new.
#[tactic(auto, using(crate::proofs::RowLaws::rows))]
fn merge_linked(
    alloc: Global,
    table: &mut Table,
    arcs: &[Arc],
    empty: &Ctx,
    contexts: &mut Contexts,
) -> Result<bool, AllocError>
    requires within { AreWithin (length table.old) arcs.now }
    requires made { AreMade contexts.old (λ e. e.1) arcs.now }
    requires empty_made { IsMade contexts.old empty.now }
    requires none { (a : Assignment) → member empty.now a ≡ false }
    requires rows { AreRows contexts.old table.old }
    ensures grown { IsGrown contexts.old contexts.new }
    ensures picks { HasSamePicks contexts.old contexts.new }
    ensures len { length table.new ≡ length table.old }
    ensures rows { AreRows contexts.new table.new }
    ensures growth { OnOk result (IsGrowth arcs.now table.old table.new) }
{
    let mut changed = false;
    for first in arcs {
        if merge_from(alloc, table, first, arcs, empty, contexts)? {
            changed = true;
        }
    }
    Ok(changed)
}

/// Merges classes where what is stated makes them one, and then where arcs do, until nothing is new.
/// The pairs that are stated are in the table already.
#[tactic(auto, using(crate::proofs::RowLaws::rows))]
pub(crate) fn merge_all(
    alloc: Global,
    table: &mut Table,
    given: &[((usize, usize), Ctx)],
    arcs: &[Arc],
    empty: &Ctx,
    contexts: &mut Contexts,
) -> Result<(), AllocError>
    requires given { (e : (ℕ × ℕ) × Set) → In e given.now → (e.0.0 < length table.old) × (e.0.1 < length table.old) }
    requires within { AreWithin (length table.old) arcs.now }
    requires made { AreMade contexts.old (λ e. e.1) arcs.now }
    requires empty_made { IsMade contexts.old empty.now }
    requires none { (a : Assignment) → member empty.now a ≡ false }
    requires rows { AreRows contexts.old table.old }
    ensures grown { IsGrown contexts.old contexts.new }
    ensures picks { HasSamePicks contexts.old contexts.new }
    ensures len { length table.new ≡ length table.old }
    ensures rows { AreRows contexts.new table.new }
    ensures growth { OnOk result (IsGrowth arcs.now table.old table.new) }
{
    merge_given(alloc, table, given, empty, contexts)?;
    for _turn in 0..arcs.len() {
        if !merge_linked(alloc, table, arcs, empty, contexts)? {
            return Ok(());
        }
    }
    Ok(())
}
