ghost use Rattle.std.specs.Prelude.{◌≡◌, IfOk};
ghost use Rattle.lfg_context.specs.Sets.{assigned};
ghost use Rattle.lfg_store.specs.Facts.{facts_at};
ghost use Rattle.lfg_store.specs.Packing.{AreMadeBy};
ghost use Rattle.lfg_store.specs.Unpacking.{pair_of};

use lfg_context::{Contexts, Ctx};
use lfg_model::Pair;
use lfg_store::FactStore;
use lfg_terms::{Fact, List};
use std::alloc::{AllocError, Global};

/// The facts that stand at the assignment.
#[tactic(auto, using(lfg_context::proofs::Growing::growing))]
fn facts_of(
    alloc: Global,
    entries: &[(Fact, Ctx)],
    assignment: &[u32],
    contexts: &Contexts,
) -> Result<List<Fact>, AllocError>
    requires { AreMadeBy contexts.now entries.now }
    ensures { IfOk result (λ facts. facts ≡ facts_at entries.now (assigned assignment.now)) }
{
    let mut facts = Vec::new(alloc);
    for entry in entries {
        if contexts.holds(&entry.1, assignment) {
            facts.push(entry.0.clone()?)?;
        }
    }
    List::new(alloc, facts)
}

/// The pair of the assignment.
pub(crate) fn pair_of(
    alloc: Global,
    tree: &FactStore,
    facts: &FactStore,
    assignment: &[u32],
    contexts: &Contexts,
) -> Result<Pair, AllocError>
    requires tree_made { AreMadeBy contexts.now tree.now }
    requires facts_made { AreMadeBy contexts.now facts.now }
    ensures { IfOk result (λ pair. pair ≡ pair_of tree.now facts.now (assigned assignment.now)) }
{
    let tree = facts_of(alloc, tree.entries(), assignment, contexts)?;
    let facts = facts_of(alloc, facts.entries(), assignment, contexts)?;
    Ok(Pair { tree, facts })
}
