ghost use Rattle.std.specs.Prelude.{◌≡◌, IfOk};
ghost use Rattle.lfg_terms.specs.Order.{fact_cmp};
ghost use Rattle.lfg_context.specs.Sets.{Assignment, IsMade, AreMade, IsGrown, HasSamePicks};
ghost use Rattle.lfg_model.specs.Lists.{In, Lists};
ghost use Rattle.lfg_store.specs.Facts.{facts_at, IsStore};
ghost use Rattle.lfg_store.specs.Packing.{AreMadeBy};
ghost use Rattle.lfg_parse.specs.Judging.{Restricts};

use lfg_context::{Contexts, Ctx};
use lfg_store::FactStore;
use lfg_terms::Fact;
use std::alloc::{AllocError, Global};

/// The facts, each at its assignments within the set alone.
#[tactic(auto, using(crate::proofs::Closures::closures))]
pub(crate) fn restricted(
    alloc: Global,
    facts: &[(Fact, Ctx)],
    set: &Ctx,
    contexts: &mut Contexts,
) -> Result<Vec<(Fact, Ctx)>, AllocError>
    requires made { AreMade contexts.old (λ e. e.1) facts.now }
    requires set { IsMade contexts.old set.now }
    ensures made { IfOk result (λ kept. AreMade contexts.new (λ e. e.1) kept.items) }
    ensures restricts { IfOk result (λ kept. Restricts facts.now set.now kept.items) }
    ensures grown { IsGrown contexts.old contexts.new }
    ensures picks { HasSamePicks contexts.old contexts.new }
{
    let mut kept = Vec::new(alloc);
    for fact in facts {
        let within = contexts.and(&fact.1, set)?;
        kept.push((fact.0.clone()?, within))?;
    }
    Ok(kept)
}

/// The store of these facts.
///
/// # Errors
///
/// For want of memory, and where there are 2^32 facts or more.
#[tactic(auto, using(crate::proofs::Closures::closures))]
pub(crate) fn store_of(
    alloc: Global,
    facts: Vec<(Fact, Ctx)>,
    contexts: &mut Contexts,
) -> Result<FactStore, AllocError>
    requires made { AreMade contexts.old (λ e. e.1) facts.items }
    ensures facts { IfOk result (λ store. (a : Assignment) → Lists fact_cmp (λ f. In f (facts_at facts.items a)) (facts_at store a)) }
    ensures store { IfOk result IsStore }
    ensures made { IfOk result (AreMadeBy contexts.new) }
    ensures grown { IsGrown contexts.old contexts.new }
    ensures picks { HasSamePicks contexts.old contexts.new }
{
    if u32::try_from(facts.len()).is_err() {
        return Err(AllocError);
    }
    FactStore::from_entries(alloc, facts, contexts)
}
