ghost use Rattle.std.specs.Prelude.{◌≡◌, ◌<◌, ◌⊎◌, ℕ, List, length, false, IfOk};
ghost use Rattle.lfg_context.specs.Seen.{Set};
ghost use Rattle.lfg_context.specs.Sets.{Assignment, member, IsMade, AreMade, IsGrown, HasSamePicks};
ghost use Rattle.lfg_context.specs.Telling.{InSome, Tells};
ghost use Rattle.lfg_model.specs.Lists.{In};
ghost use Rattle.lfg_unify.specs.Clashes.{Clashes, Differs, IsBeside, Placed};
ghost use Rattle.lfg_unify.specs.Rows.{AreRows};

use crate::closure::context_at;
use crate::same::same_constant;
use crate::table::Table;
use lfg_context::{Contexts, Ctx};
use lfg_model::Constant;
use std::alloc::AllocError;

/// A value of a place, with its context.
pub(crate) type Placed = ((usize, Constant), Ctx);

/// Where the value and something else of the place hold, and the places are paired.
#[tactic(auto, using(crate::proofs::ClashLaws::clashing))]
fn together(
    table: &Table,
    first: &Placed,
    place: usize,
    ctx: &Ctx,
    empty: &Ctx,
    contexts: &mut Contexts,
) -> Result<Ctx, AllocError>
    requires place { first.now.0.0 < length table.now }
    requires rows { AreRows contexts.old table.now }
    requires first_made { IsMade contexts.old first.now.1 }
    requires made { IsMade contexts.old ctx.now }
    requires empty_made { IsMade contexts.old empty.now }
    requires none { (a : Assignment) → member empty.now a ≡ false }
    ensures grown { IsGrown contexts.old contexts.new }
    ensures picks { HasSamePicks contexts.old contexts.new }
    ensures made { IfOk result (λ z. IsMade contexts.new z) }
    ensures tells { IfOk result (λ z. Tells z (IsBeside table.now first.now (place, ctx.now))) }
{
    let same = context_at(table.row(first.0.0), place, empty);
    let both = contexts.and(same, &first.1)?;
    let all = contexts.and(&both, ctx)?;
    Ok(all)
}

/// Where the two values differ, hold, and are of paired places.
#[tactic(auto, using(crate::proofs::ClashLaws::clashing))]
fn differing(
    table: &Table,
    first: &Placed,
    second: &Placed,
    empty: &Ctx,
    contexts: &mut Contexts,
) -> Result<Ctx, AllocError>
    requires place { first.now.0.0 < length table.now }
    requires rows { AreRows contexts.old table.now }
    requires first_made { IsMade contexts.old first.now.1 }
    requires made { IsMade contexts.old second.now.1 }
    requires empty_made { IsMade contexts.old empty.now }
    requires none { (a : Assignment) → member empty.now a ≡ false }
    ensures grown { IsGrown contexts.old contexts.new }
    ensures picks { HasSamePicks contexts.old contexts.new }
    ensures made { IfOk result (λ z. IsMade contexts.new z) }
    ensures tells { IfOk result (λ z. Tells z (Differs table.now first.now second.now)) }
{
    if same_constant(&first.0.1, &second.0.1) {
        return Ok(contexts.no());
    }
    let all = together(table, first, second.0.0, &second.1, empty, contexts)?;
    Ok(all)
}

/// Where the value meets one that differs.
#[tactic(auto, using(crate::proofs::ClashLaws::clashing))]
fn with_values(
    table: &Table,
    first: &Placed,
    values: &[Placed],
    empty: &Ctx,
    contexts: &mut Contexts,
) -> Result<Ctx, AllocError>
    requires place { first.now.0.0 < length table.now }
    requires rows { AreRows contexts.old table.now }
    requires first_made { IsMade contexts.old first.now.1 }
    requires made { AreMade contexts.old (λ v. v.1) values.now }
    requires empty_made { IsMade contexts.old empty.now }
    requires none { (a : Assignment) → member empty.now a ≡ false }
    ensures grown { IsGrown contexts.old contexts.new }
    ensures picks { HasSamePicks contexts.old contexts.new }
    ensures made { IfOk result (λ z. IsMade contexts.new z) }
    ensures tells { IfOk result (λ z. Tells z (InSome values.now (Differs table.now first.now))) }
{
    let mut found = contexts.no();
    for second in values {
        let one = differing(table, first, second, empty, contexts)?;
        found = contexts.or(&found, &one)?;
    }
    Ok(found)
}

/// Where the value meets one of the other things.
#[tactic(auto, using(crate::proofs::ClashLaws::clashing))]
fn with_others(
    table: &Table,
    first: &Placed,
    others: &[(usize, Ctx)],
    empty: &Ctx,
    contexts: &mut Contexts,
) -> Result<Ctx, AllocError>
    requires place { first.now.0.0 < length table.now }
    requires rows { AreRows contexts.old table.now }
    requires first_made { IsMade contexts.old first.now.1 }
    requires made { AreMade contexts.old (λ o. o.1) others.now }
    requires empty_made { IsMade contexts.old empty.now }
    requires none { (a : Assignment) → member empty.now a ≡ false }
    ensures grown { IsGrown contexts.old contexts.new }
    ensures picks { HasSamePicks contexts.old contexts.new }
    ensures made { IfOk result (λ z. IsMade contexts.new z) }
    ensures tells { IfOk result (λ z. Tells z (InSome others.now (IsBeside table.now first.now))) }
{
    let mut found = contexts.no();
    for other in others {
        let one = together(table, first, other.0, &other.1, empty, contexts)?;
        found = contexts.or(&found, &one)?;
    }
    Ok(found)
}

/// Where the value meets one that differs, the source of an arc, or a set.
#[tactic(auto, using(crate::proofs::ClashLaws::clashing))]
fn clash_of(
    table: &Table,
    first: &Placed,
    values: &[Placed],
    sources: &[(usize, Ctx)],
    sets: &[(usize, Ctx)],
    empty: &Ctx,
    contexts: &mut Contexts,
) -> Result<Ctx, AllocError>
    requires place { first.now.0.0 < length table.now }
    requires rows { AreRows contexts.old table.now }
    requires first_made { IsMade contexts.old first.now.1 }
    requires made { AreMade contexts.old (λ v. v.1) values.now }
    requires sources { AreMade contexts.old (λ o. o.1) sources.now }
    requires sets { AreMade contexts.old (λ o. o.1) sets.now }
    requires empty_made { IsMade contexts.old empty.now }
    requires none { (a : Assignment) → member empty.now a ≡ false }
    ensures grown { IsGrown contexts.old contexts.new }
    ensures picks { HasSamePicks contexts.old contexts.new }
    ensures made { IfOk result (λ z. IsMade contexts.new z) }
    ensures tells { IfOk result (λ z. Tells z (Clashes table.now values.now sources.now sets.now first.now)) }
{
    let by_values = with_values(table, first, values, empty, contexts)?;
    let by_arcs = with_others(table, first, sources, empty, contexts)?;
    let by_members = with_others(table, first, sets, empty, contexts)?;
    let others = contexts.or(&by_arcs, &by_members)?;
    let all = contexts.or(&by_values, &others)?;
    Ok(all)
}

/// Where some value meets one that differs, the source of an arc, or a set.
#[tactic(auto, using(crate::proofs::ClashLaws::clashing))]
pub(crate) fn clash(
    table: &Table,
    values: &[Placed],
    sources: &[(usize, Ctx)],
    sets: &[(usize, Ctx)],
    contexts: &mut Contexts,
) -> Result<Ctx, AllocError>
    requires places { (v : Placed) → In v values.now → v.0.0 < length table.now }
    requires rows { AreRows contexts.old table.now }
    requires made { AreMade contexts.old (λ v. v.1) values.now }
    requires sources { AreMade contexts.old (λ o. o.1) sources.now }
    requires sets { AreMade contexts.old (λ o. o.1) sets.now }
    ensures grown { IsGrown contexts.old contexts.new }
    ensures picks { HasSamePicks contexts.old contexts.new }
    ensures made { IfOk result (λ z. IsMade contexts.new z) }
    ensures tells { IfOk result (λ z. Tells z (InSome values.now (Clashes table.now values.now sources.now sets.now))) }
{
    let empty = contexts.no();
    let mut found = contexts.no();
    for first in values {
        let one = clash_of(table, first, values, sources, sets, &empty, contexts)?;
        found = contexts.or(&found, &one)?;
    }
    Ok(found)
}
