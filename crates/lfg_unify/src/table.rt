ghost use Rattle.std.specs.Prelude.{◌≡◌, ◌≢◌, ◌<◌, ℕ, [], length, slice_index_or, false, IfOk, OnOk};
ghost use Rattle.lfg_context.specs.Sets.{IsMade, IsGrown, HasSamePicks};
ghost use Rattle.lfg_unify.specs.Closures.{Ascends, context_in};
ghost use Rattle.lfg_unify.specs.Rows.{row_of, count_before, AreRows, Has, IsRow, Widens};

use lfg_context::{Contexts, Ctx};
use std::alloc::{AllocError, Global};
use std::marker::Model;

/// Pairs of places with the contexts in which they hold: for each place a row, which has in
/// ascending order the places that are paired with it somewhere.
#[derive(Drop)]
pub(crate) struct Table {
    rows: Vec<Vec<(usize, Ctx)>>,
}

impl Model for Table {
    ghost use Rattle.std.specs.Prelude.{map, List};
    ghost use Rattle.lfg_unify.specs.Closures.{Row};
    ghost use Rattle.lfg_unify.specs.Rows.{AreAscending};

    ghost Value = { List Row };

    ghost view = { λ t. map (λ row. row.items) t.rows.items };

    ghost invariant = { λ t. AreAscending (map (λ row. row.items) t.rows.items) };
}

/// How many entries of the row stand before the place.
fn count_before(row: &[(usize, Ctx)], place: usize) -> usize
    ensures { result ≡ count_before row.now place }
{
    let mut count = 0;
    for entry in row {
        if entry.0 >= place {
            return count;
        }
        count += 1;
    }
    count
}

/// Adds the place to the row where the context holds. Tells whether the row grew.
#[tactic(auto, using(crate::proofs::RowLaws::rows))]
pub(crate) fn widen_row(
    row: &mut Vec<(usize, Ctx)>,
    count: usize,
    place: usize,
    ctx: &Ctx,
    contexts: &mut Contexts,
) -> Result<bool, AllocError>
    requires within { place < count }
    requires ascends { Ascends count 0 row.old.items }
    requires row { IsRow contexts.old row.old.items }
    requires made { IsMade contexts.old ctx.now }
    ensures grown { IsGrown contexts.old contexts.new }
    ensures picks { HasSamePicks contexts.old contexts.new }
    ensures ascends { Ascends count 0 row.new.items }
    ensures row { IsRow contexts.new row.new.items }
    ensures step { OnOk result (Widens row.old.items place ctx.now row.new.items) }
    ensures kept { IfOk result (λ changed. changed ≡ false → row.new.items ≡ row.old.items) }
{
    let _ = count;
    if contexts.is_empty(ctx) {
        return Ok(false);
    }
    let at = count_before(row, place);
    if at < row.len() {
        let here = &row[at];
        if here.0 == place {
            let wider = contexts.or(&here.1, ctx)?;
            if contexts.same(&wider, &here.1) {
                return Ok(false);
            }
            row[at] = (place, wider);
            return Ok(true);
        }
    }
    row.insert(at, (place, ctx.share()?))?;
    Ok(true)
}

impl Table {
    /// The table of this many places without a pair.
    pub fn new(alloc: Global, count: usize) -> Result<Table, AllocError>
        ensures len { IfOk result (λ table. length table ≡ count) }
        ensures none { IfOk result (λ table. (i : ℕ) → row_of table i ≡ []) }
    {
        let mut rows = Vec::new(alloc);
        for _place in 0..count {
            rows.push(Vec::new(alloc))?;
        }
        Ok(Table { rows })
    }

    /// How many places there are.
    pub fn count(&self) -> usize
        ensures { result ≡ length self.now }
    {
        self.rows.len()
    }

    /// The row of the place.
    pub fn row(&self, place: usize) -> &[(usize, Ctx)]
        requires { place < length self.now }
        ensures row { result.now ≡ row_of self.now place }
        ensures ascends { Ascends (length self.now) 0 result.now }
    {
        &self.rows[place]
    }

    /// Adds the pair where the context holds. Tells whether the table grew.
    #[tactic(auto, using(crate::proofs::RowLaws::rows))]
    pub fn widen(
        &mut self,
        first: usize,
        second: usize,
        ctx: &Ctx,
        contexts: &mut Contexts,
    ) -> Result<bool, AllocError>
        requires first { first < length self.old }
        requires second { second < length self.old }
        requires rows { AreRows contexts.old self.old }
        requires made { IsMade contexts.old ctx.now }
        ensures grown { IsGrown contexts.old contexts.new }
        ensures picks { HasSamePicks contexts.old contexts.new }
        ensures len { length self.new ≡ length self.old }
        ensures rows { AreRows contexts.new self.new }
        ensures others { (x : ℕ) → x ≢ first → row_of self.new x ≡ row_of self.old x }
        ensures step { OnOk result (Widens (row_of self.old first) second ctx.now (row_of self.new first)) }
        ensures kept { IfOk result (λ changed. changed ≡ false → self.new ≡ self.old) }
    {
        let count = self.rows.len();
        widen_row(&mut self.rows[first], count, second, ctx, contexts)
    }
}
