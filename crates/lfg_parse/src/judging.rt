ghost use Rattle.std.specs.Prelude.{◌≡◌, List, IfOk};
ghost use Rattle.lfg_terms.specs.declared.literal.Literal.{Literal};
ghost use Rattle.lfg_context.specs.Seen.{Set};
ghost use Rattle.lfg_unify.specs.Closures.{IsClosureOf};
ghost use Rattle.lfg_facts.specs.Adding.{IsClosure};
ghost use Rattle.lfg_context.specs.Sets.{IsMade, AreMade, IsGrown, HasSamePicks};
ghost use Rattle.lfg_model.specs.Charts.{IsChart};
ghost use Rattle.lfg_store.specs.Facts.{IsStore};
ghost use Rattle.lfg_store.specs.Packing.{AreMadeBy};
ghost use Rattle.lfg_parse.specs.Judging.{HasFactsWithin, HasTreeWithin, IsJudged};

use crate::good::good_of;
use crate::stores::{restricted, store_of};
use lfg_chart::Chart;
use lfg_context::{Contexts, Ctx};
use lfg_facts::facts_of;
use lfg_instant::Instances;
use lfg_store::FactStore;
use lfg_terms::{Fact, Grammar, TokenForms};
use lfg_unify::{Closure, close};
use std::alloc::{AllocError, Global};

/// The good assignments, and the tree facts and the facts of f-structures that stand at them.
#[derive(Drop)]
pub(crate) struct Judged {
    pub(crate) good: Ctx,
    pub(crate) tree: FactStore,
    pub(crate) facts: FactStore,
}

/// The facts of the f-structures, each with the good assignments at which it stands.
#[tactic(auto, using(crate::proofs::Closures::closures))]
fn facts_within(
    alloc: Global,
    closure: &Closure,
    good: &Ctx,
    contexts: &mut Contexts,
) -> Result<FactStore, AllocError>
    requires closure { IsClosure contexts.old closure.now }
    requires good { IsMade contexts.old good.now }
    ensures facts { IfOk result (λ store. (literals : List (Literal × Set)) → IsClosureOf contexts.old literals closure.now → HasFactsWithin literals good.now store) }
    ensures made { IfOk result (AreMadeBy contexts.new) }
    ensures store { IfOk result IsStore }
    ensures grown { IsGrown contexts.old contexts.new }
    ensures picks { HasSamePicks contexts.old contexts.new }
{
    let facts = facts_of(alloc, closure, good, contexts)?;
    let store = store_of(alloc, facts, contexts)?;
    Ok(store)
}

/// The tree facts, each with the good assignments at which it stands.
#[tactic(auto, using(crate::proofs::Closures::closures))]
fn tree_within(
    alloc: Global,
    tree: &[(Fact, Ctx)],
    good: &Ctx,
    contexts: &mut Contexts,
) -> Result<FactStore, AllocError>
    requires tree { AreMade contexts.old (λ e. e.1) tree.now }
    requires good { IsMade contexts.old good.now }
    ensures facts { IfOk result (HasTreeWithin tree.now good.now) }
    ensures made { IfOk result (AreMadeBy contexts.new) }
    ensures grown { IsGrown contexts.old contexts.new }
    ensures picks { HasSamePicks contexts.old contexts.new }
{
    let facts = restricted(alloc, tree, good, contexts)?;
    let store = store_of(alloc, facts, contexts)?;
    Ok(store)
}

/// Closes the literals, and keeps of all assignments those whose derivation the grammar assigns.
#[tactic(auto, using(crate::proofs::Closures::closures))]
pub(crate) fn judge(
    alloc: Global,
    grammar: &Grammar,
    tokens: &[TokenForms],
    chart: &Chart,
    instances: &Instances,
    contexts: &mut Contexts,
) -> Result<Judged, AllocError>
    requires chart { IsChart grammar.now tokens.now chart.now.edges chart.now.forks }
    requires literals { AreMade contexts.old (λ l. l.1) instances.now.literals.items }
    requires tree { AreMade contexts.old (λ e. e.1) instances.now.tree.items }
    ensures judged { IfOk result (λ it. IsJudged grammar.now tokens.now instances.now.literals.items instances.now.tree.items it.good it.tree it.facts) }
    ensures good_made { IfOk result (λ it. IsMade contexts.new it.good) }
    ensures tree_made { IfOk result (λ it. AreMadeBy contexts.new it.tree) }
    ensures facts_made { IfOk result (λ it. AreMadeBy contexts.new it.facts) }
    ensures store { IfOk result (λ it. IsStore it.facts) }
    ensures grown { IsGrown contexts.old contexts.new }
    ensures picks { HasSamePicks contexts.old contexts.new }
{
    let closure = close(alloc, &instances.literals, contexts)?;
    let good = good_of(
        alloc,
        grammar,
        tokens,
        chart,
        &instances.literals,
        &closure,
        contexts,
    )?;
    let facts = facts_within(alloc, &closure, &good, contexts)?;
    let tree = tree_within(alloc, &instances.tree, &good, contexts)?;
    Ok(Judged { good, tree, facts })
}
