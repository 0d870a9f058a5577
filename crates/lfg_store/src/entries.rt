ghost use Rattle.std.specs.Prelude.{◌≡◌, ℕ, ◌+◌, ◌<◌, ◌≤◌, ◌&&◌, ◌||◌, not, length, take, IfOk, IfErr, OnOk, OnErr, slice_get, Some, filter, ◌++◌, if◌then◌else◌};
ghost use Rattle.std.specs.List.Sorted.{IsStrictlySortedBy};
ghost use Rattle.lfg_terms.specs.Order.{fact_cmp};
ghost use Rattle.lfg_context.specs.Sets.{Assignment, member, IsMade, IsGrown, HasSamePicks};
ghost use Rattle.lfg_store.specs.Facts.{facts_of, HasMember, IsStore};
ghost use Rattle.lfg_store.specs.Edits.{IsAt, IsGap, HasRoom, HasFactsOf, IsEdited};
ghost use Rattle.lfg_store.specs.Packing.{AreMadeBy};
ghost use Rattle.lfg_store.specs.declared.edit.Edit.TheVariants.{Add, Remove};

use crate::edit::Edit;
use lfg_context::{Contexts, Ctx};
use lfg_terms::Fact;
use std::alloc::{AllocError, Global};

/// A copy of the entry. Its set is shared.
pub(crate) fn copied_entry(entry: &(Fact, Ctx)) -> Result<(Fact, Ctx), AllocError>
    ensures { IfOk result (λ copy. copy ≡ entry.now) }
{
    let fact = entry.0.clone()?;
    let ctx = entry.1.share()?;
    Ok((fact, ctx))
}

/// A copy of the entries.
pub(crate) fn copied(alloc: Global, entries: &[(Fact, Ctx)]) -> Result<Vec<(Fact, Ctx)>, AllocError>
    ensures { IfOk result (λ copy. copy.items ≡ entries.now) }
{
    let mut copy = Vec::new(alloc);
    for entry in entries {
        copy.push(copied_entry(entry)?)?;
    }
    Ok(copy)
}

/// The place of the fact, or else the place before the greater facts.
pub(crate) fn find(entries: &[(Fact, Ctx)], fact: &Fact) -> Result<usize, usize>
    requires { IsStrictlySortedBy fact_cmp (facts_of entries.now) }
    ensures found { IfOk result (IsAt entries.now fact.now) }
    ensures missing { IfErr result (IsGap entries.now fact.now) }
{
    entries.binary_search_by(|entry| entry.0.cmp(fact))
}

/// Adds the set to the context of the fact, which stands at this place.
#[tactic(auto, using(lfg_context::proofs::Growing::growing))]
fn widen(
    entries: &mut Vec<(Fact, Ctx)>,
    place: usize,
    fact: &Fact,
    ctx: &Ctx,
    contexts: &mut Contexts,
) -> Result<(), AllocError>
    requires store { IsStore entries.old.items }
    requires at { IsAt entries.old.items fact.now place }
    requires made { AreMadeBy contexts.old entries.old.items }
    requires ctx_made { IsMade contexts.old ctx.now }
    ensures ok { OnOk result (IsEdited Add entries.old.items fact.now ctx.now entries.new.items) }
    ensures refused { OnErr result (entries.new.items ≡ entries.old.items) }
    ensures made { AreMadeBy contexts.new entries.new.items }
    ensures grown { IsGrown contexts.old contexts.new }
    ensures picks { HasSamePicks contexts.old contexts.new }
{
    let fact = fact.clone()?;
    let wider = contexts.or(&entries[place].1, ctx)?;
    entries[place] = (fact, wider);
    Ok(())
}

/// Puts the fact with the set at this place, before the greater facts.
#[tactic(auto, using(lfg_context::proofs::Growing::growing))]
fn insert(
    entries: &mut Vec<(Fact, Ctx)>,
    place: usize,
    fact: &Fact,
    ctx: &Ctx,
    contexts: &Contexts,
) -> Result<(), AllocError>
    requires store { IsStore entries.old.items }
    requires gap { IsGap entries.old.items fact.now place }
    requires room { length entries.old.items < 4294967295 }
    requires made { AreMadeBy contexts.now entries.old.items }
    requires ctx_made { IsMade contexts.now ctx.now }
    ensures ok { OnOk result (IsEdited Add entries.old.items fact.now ctx.now entries.new.items) }
    ensures refused { OnErr result (entries.new.items ≡ entries.old.items) }
    ensures made { AreMadeBy contexts.now entries.new.items }
{
    if contexts.is_empty(ctx) {
        return Ok(());
    }
    let fact = fact.clone()?;
    let ctx = ctx.share()?;
    entries.insert(place, (fact, ctx))?;
    Ok(())
}

/// Takes the set out of the context of the fact, which stands at this place.
#[tactic(auto, using(lfg_context::proofs::Growing::growing))]
fn narrow(
    entries: &mut Vec<(Fact, Ctx)>,
    place: usize,
    fact: &Fact,
    ctx: &Ctx,
    contexts: &mut Contexts,
) -> Result<(), AllocError>
    requires store { IsStore entries.old.items }
    requires at { IsAt entries.old.items fact.now place }
    requires made { AreMadeBy contexts.old entries.old.items }
    requires ctx_made { IsMade contexts.old ctx.now }
    ensures ok { OnOk result (IsEdited Remove entries.old.items fact.now ctx.now entries.new.items) }
    ensures refused { OnErr result (entries.new.items ≡ entries.old.items) }
    ensures made { AreMadeBy contexts.new entries.new.items }
    ensures grown { IsGrown contexts.old contexts.new }
    ensures picks { HasSamePicks contexts.old contexts.new }
{
    let fact = fact.clone()?;
    let narrower = contexts.without(&entries[place].1, ctx)?;
    if contexts.is_empty(&narrower) {
        entries.remove(place);
        return Ok(());
    }
    entries[place] = (fact, narrower);
    Ok(())
}

/// Adds the fact at the assignments of the set, or removes it there.
#[tactic(auto, using(lfg_context::proofs::Growing::growing))]
pub(crate) fn edit_entries(
    edit: Edit,
    entries: &mut Vec<(Fact, Ctx)>,
    fact: &Fact,
    ctx: &Ctx,
    contexts: &mut Contexts,
) -> Result<(), AllocError>
    requires store { IsStore entries.old.items }
    requires room { HasRoom edit entries.old.items }
    requires made { AreMadeBy contexts.old entries.old.items }
    requires ctx_made { IsMade contexts.old ctx.now }
    ensures ok { OnOk result (IsEdited edit entries.old.items fact.now ctx.now entries.new.items) }
    ensures refused { OnErr result (entries.new.items ≡ entries.old.items) }
    ensures made { AreMadeBy contexts.new entries.new.items }
    ensures grown { IsGrown contexts.old contexts.new }
    ensures picks { HasSamePicks contexts.old contexts.new }
{
    match find(entries, fact) {
        Ok(place) => match edit {
            Edit::Add => widen(entries, place, fact, ctx, contexts),
            Edit::Remove => narrow(entries, place, fact, ctx, contexts),
        },
        Err(place) => match edit {
            Edit::Add => insert(entries, place, fact, ctx, contexts),
            Edit::Remove => Ok(()),
        },
    }
}

/// The entries, which come in any order, as those of a store.
#[tactic(auto, using(lfg_context::proofs::Growing::growing))]
pub(crate) fn collected(
    alloc: Global,
    entries: &[(Fact, Ctx)],
    contexts: &mut Contexts,
) -> Result<Vec<(Fact, Ctx)>, AllocError>
    requires room { length entries.now ≤ 4294967295 }
    requires made { AreMadeBy contexts.old entries.now }
    ensures facts { IfOk result (λ store. HasFactsOf entries.now store.items) }
    ensures store { IfOk result (λ store. IsStore store.items) }
    ensures shorter { IfOk result (λ store. length store.items ≤ length entries.now) }
    ensures made { IfOk result (λ store. AreMadeBy contexts.new store.items) }
    ensures grown { IsGrown contexts.old contexts.new }
    ensures picks { HasSamePicks contexts.old contexts.new }
{
    let mut store = Vec::new(alloc);
    for entry in entries {
        edit_entries(Edit::Add, &mut store, &entry.0, &entry.1, contexts)?;
    }
    Ok(store)
}
