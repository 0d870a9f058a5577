ghost use Rattle.std.specs.Prelude.{◌≡◌, List, IfOk};
ghost use Rattle.lfg_terms.specs.declared.literal.Literal.{Literal};
ghost use Rattle.lfg_context.specs.Seen.{Set};
ghost use Rattle.lfg_context.specs.Sets.{IsMade, AreMade, IsGrown, HasSamePicks};
ghost use Rattle.lfg_context.specs.Telling.{Tells};
ghost use Rattle.lfg_model.specs.Charts.{IsChart};
ghost use Rattle.lfg_unify.specs.Closures.{IsClosureOf};
ghost use Rattle.lfg_wellformed.specs.Asked.{IsClosure};
ghost use Rattle.lfg_parse.specs.Judging.{IsConsistentAt, IsCompleteWithin, IsWellFormedAt, IsGood};

use lfg_chart::Chart;
use lfg_constrain::failing;
use lfg_context::{Contexts, Ctx};
use lfg_terms::{Grammar, Literal, Name, TokenForms};
use lfg_unify::Closure;
use lfg_wellformed::{cyclic, incoherent, incomplete};
use std::alloc::{AllocError, Global};

/// The assignments at which the literals that hold do not clash, and their constraints are true.
#[tactic(auto, using(crate::proofs::Closures::closures))]
fn consistent(
    alloc: Global,
    literals: &[(Literal, Ctx)],
    closure: &Closure,
    contexts: &mut Contexts,
) -> Result<Ctx, AllocError>
    requires closure { IsClosureOf contexts.old literals.now closure.now }
    requires made { AreMade contexts.old (λ l. l.1) literals.now }
    ensures made { IfOk result (λ z. IsMade contexts.new z) }
    ensures tells { IfOk result (λ z. Tells z (IsConsistentAt literals.now)) }
    ensures grown { IsGrown contexts.old contexts.new }
    ensures picks { HasSamePicks contexts.old contexts.new }
{
    let all = contexts.yes();
    let unclashing = contexts.without(&all, closure.clash())?;
    let failing = failing(alloc, closure, literals, contexts)?;
    let consistent = contexts.without(&unclashing, &failing)?;
    Ok(consistent)
}

/// The assignments of the set at which the f-structure is complete and coherent.
#[tactic(auto, using(crate::proofs::Closures::closures))]
fn complete_within(
    alloc: Global,
    governable: &[Name],
    closure: &Closure,
    set: &Ctx,
    contexts: &mut Contexts,
) -> Result<Ctx, AllocError>
    requires closure { IsClosure contexts.old closure.now }
    requires set { IsMade contexts.old set.now }
    ensures made { IfOk result (λ z. IsMade contexts.new z) }
    ensures tells { IfOk result (λ z. (literals : List (Literal × Set)) → IsClosureOf contexts.old literals closure.now → Tells z (IsCompleteWithin literals governable.now set.now)) }
    ensures grown { IsGrown contexts.old contexts.new }
    ensures picks { HasSamePicks contexts.old contexts.new }
{
    let incomplete = incomplete(alloc, closure, contexts)?;
    let complete = contexts.without(set, &incomplete)?;
    let incoherent = incoherent(alloc, closure, governable, contexts)?;
    let coherent = contexts.without(&complete, &incoherent)?;
    Ok(coherent)
}

/// The assignments at which the solution of the literals that hold there meets all conditions on an
/// f-structure.
#[tactic(auto, using(crate::proofs::Closures::closures))]
fn well_formed(
    alloc: Global,
    grammar: &Grammar,
    literals: &[(Literal, Ctx)],
    closure: &Closure,
    contexts: &mut Contexts,
) -> Result<Ctx, AllocError>
    requires closure { IsClosureOf contexts.old literals.now closure.now }
    requires made { AreMade contexts.old (λ l. l.1) literals.now }
    ensures made { IfOk result (λ z. IsMade contexts.new z) }
    ensures tells { IfOk result (λ z. Tells z (IsWellFormedAt grammar.now literals.now)) }
    ensures grown { IsGrown contexts.old contexts.new }
    ensures picks { HasSamePicks contexts.old contexts.new }
{
    let consistent = consistent(alloc, literals, closure, contexts)?;
    let governable = grammar.governable.list();
    let complete = complete_within(alloc, governable, closure, &consistent, contexts)?;
    let cyclic = cyclic(alloc, closure, contexts)?;
    let acyclic = contexts.without(&complete, &cyclic)?;
    Ok(acyclic)
}

/// The good assignments: there is a derivation of the whole sentence, and the solution of the literals
/// that hold at the assignment meets all conditions.
#[tactic(auto, using(crate::proofs::Closures::closures))]
pub(crate) fn good_of(
    alloc: Global,
    grammar: &Grammar,
    tokens: &[TokenForms],
    chart: &Chart,
    literals: &[(Literal, Ctx)],
    closure: &Closure,
    contexts: &mut Contexts,
) -> Result<Ctx, AllocError>
    requires chart { IsChart grammar.now tokens.now chart.now.edges chart.now.forks }
    requires closure { IsClosureOf contexts.old literals.now closure.now }
    requires made { AreMade contexts.old (λ l. l.1) literals.now }
    ensures made { IfOk result (λ z. IsMade contexts.new z) }
    ensures tells { IfOk result (λ z. Tells z (IsGood grammar.now tokens.now literals.now)) }
    ensures grown { IsGrown contexts.old contexts.new }
    ensures picks { HasSamePicks contexts.old contexts.new }
{
    let _ = tokens;
    if chart.edges().is_empty() {
        return Ok(contexts.no());
    }
    let good = well_formed(alloc, grammar, literals, closure, contexts)?;
    Ok(good)
}
