ghost use Rattle.std.specs.Prelude.{◌≡◌, [], IfOk, OnOk};
ghost use Rattle.lfg_model.specs.Readings.{has_attribute};
ghost use Rattle.lfg_context.specs.Sets.{IsMade, AreMade, IsGrown, HasSamePicks};
ghost use Rattle.lfg_context.specs.Telling.{InSome};
ghost use Rattle.lfg_facts.specs.Adding.{Adds};
ghost use Rattle.lfg_facts.specs.Stating.{AreEntries, IsPair, IsPairOf, IsRelated};

use crate::names::Named;
use lfg_context::{Contexts, Ctx};
use lfg_terms::{Arg, Fact, List, Name};
use std::alloc::{AllocError, Global};

/// A fact with the set of assignments at which it is one.
pub(crate) type Entry = (Fact, Ctx);

/// The fact that the relation holds between the two.
fn pair_fact(alloc: Global, relation: &Name, first: &Arg, second: &Arg) -> Result<Fact, AllocError>
    ensures { IfOk result (λ it. it ≡ has_attribute relation.now first.now second.now) }
{
    Ok(Fact {
        rel: relation.clone()?,
        args: List::new(alloc, vec![in alloc; first.clone()?, second.clone()?]?)?,
    })
}

/// Adds the fact that the relation holds between the two, where the second one is named, within the
/// set.
#[tactic(auto, using(crate::proofs::Classes::closed))]
fn push_pair(
    alloc: Global,
    relation: &Name,
    first: &Arg,
    second: &Named,
    here: &Ctx,
    facts: &mut Vec<Entry>,
    contexts: &mut Contexts,
) -> Result<(), AllocError>
    requires second { IsMade contexts.old second.now.1 }
    requires here { IsMade contexts.old here.now }
    requires facts { AreEntries contexts.old facts.old.items }
    ensures grown { IsGrown contexts.old contexts.new }
    ensures picks { HasSamePicks contexts.old contexts.new }
    ensures facts { OnOk result (AreEntries contexts.new facts.new.items) }
    ensures adds { OnOk result (Adds facts.old.items facts.new.items (λ f. IsPair relation.now first.now here.now f second.now)) }
{
    let both = contexts.and(here, &second.1)?;
    if contexts.is_empty(&both) {
        return Ok(());
    }
    let fact = pair_fact(alloc, relation, first, &second.0)?;
    facts.push((fact, both))?;
    Ok(())
}

/// Adds the facts that the relation holds between the first one and each second one, within the set.
#[tactic(auto, using(crate::proofs::Classes::closed))]
fn push_seconds(
    alloc: Global,
    relation: &Name,
    first: &Arg,
    seconds: &[Named],
    here: &Ctx,
    facts: &mut Vec<Entry>,
    contexts: &mut Contexts,
) -> Result<(), AllocError>
    requires seconds { AreMade contexts.old (λ n. n.1) seconds.now }
    requires here { IsMade contexts.old here.now }
    requires facts { AreEntries contexts.old facts.old.items }
    ensures grown { IsGrown contexts.old contexts.new }
    ensures picks { HasSamePicks contexts.old contexts.new }
    ensures facts { OnOk result (AreEntries contexts.new facts.new.items) }
    ensures adds { OnOk result (Adds facts.old.items facts.new.items (λ f. InSome seconds.now (IsPair relation.now first.now here.now f))) }
{
    for second in seconds {
        push_pair(alloc, relation, first, second, here, facts, contexts)?;
    }
    Ok(())
}

/// The same where the first one is named.
#[tactic(auto, using(crate::proofs::Classes::closed))]
fn push_pairs(
    alloc: Global,
    relation: &Name,
    first: &Named,
    seconds: &[Named],
    here: &Ctx,
    facts: &mut Vec<Entry>,
    contexts: &mut Contexts,
) -> Result<(), AllocError>
    requires first { IsMade contexts.old first.now.1 }
    requires seconds { AreMade contexts.old (λ n. n.1) seconds.now }
    requires here { IsMade contexts.old here.now }
    requires facts { AreEntries contexts.old facts.old.items }
    ensures grown { IsGrown contexts.old contexts.new }
    ensures picks { HasSamePicks contexts.old contexts.new }
    ensures facts { OnOk result (AreEntries contexts.new facts.new.items) }
    ensures adds { OnOk result (Adds facts.old.items facts.new.items (λ f. IsPairOf relation.now seconds.now here.now f first.now)) }
{
    let both = contexts.and(here, &first.1)?;
    push_seconds(alloc, relation, &first.0, seconds, &both, facts, contexts)?;
    Ok(())
}

/// Adds the facts that the relation holds between each first one and each second one, within the set.
#[tactic(auto, using(crate::proofs::Classes::closed))]
fn push_firsts(
    alloc: Global,
    relation: &Name,
    firsts: &[Named],
    seconds: &[Named],
    here: &Ctx,
    facts: &mut Vec<Entry>,
    contexts: &mut Contexts,
) -> Result<(), AllocError>
    requires firsts { AreMade contexts.old (λ n. n.1) firsts.now }
    requires seconds { AreMade contexts.old (λ n. n.1) seconds.now }
    requires here { IsMade contexts.old here.now }
    requires facts { AreEntries contexts.old facts.old.items }
    ensures grown { IsGrown contexts.old contexts.new }
    ensures picks { HasSamePicks contexts.old contexts.new }
    ensures facts { OnOk result (AreEntries contexts.new facts.new.items) }
    ensures adds { OnOk result (Adds facts.old.items facts.new.items (λ f. InSome firsts.now (IsPairOf relation.now seconds.now here.now f))) }
{
    for first in firsts {
        push_pairs(alloc, relation, first, seconds, here, facts, contexts)?;
    }
    Ok(())
}

/// The same within two sets.
#[tactic(auto, using(crate::proofs::Classes::closed))]
pub(crate) fn push_related(
    alloc: Global,
    relation: &Name,
    firsts: &[Named],
    seconds: &[Named],
    good: &Ctx,
    ctx: &Ctx,
    facts: &mut Vec<Entry>,
    contexts: &mut Contexts,
) -> Result<(), AllocError>
    requires firsts { AreMade contexts.old (λ n. n.1) firsts.now }
    requires seconds { AreMade contexts.old (λ n. n.1) seconds.now }
    requires good { IsMade contexts.old good.now }
    requires ctx { IsMade contexts.old ctx.now }
    requires facts { AreEntries contexts.old facts.old.items }
    ensures grown { IsGrown contexts.old contexts.new }
    ensures picks { HasSamePicks contexts.old contexts.new }
    ensures facts { OnOk result (AreEntries contexts.new facts.new.items) }
    ensures adds { OnOk result (Adds facts.old.items facts.new.items (IsRelated relation.now firsts.now seconds.now good.now ctx.now)) }
{
    let here = contexts.and(good, ctx)?;
    push_firsts(alloc, relation, firsts, seconds, &here, facts, contexts)?;
    Ok(())
}
