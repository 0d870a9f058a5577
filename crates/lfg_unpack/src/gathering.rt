ghost use Rattle.std.specs.Prelude.{OnOk, ◌∷◌, []};
ghost use Rattle.std.specs.Bool.{OnTrue};
ghost use Rattle.lfg_context.specs.Sets.{IsMade};
ghost use Rattle.lfg_store.specs.Packing.{AreMadeBy};
ghost use Rattle.lfg_unpack.specs.Pieces.{AllMade, IsAmong, Gathers};

use lfg_context::{Contexts, Ctx};
use lfg_terms::Fact;
use std::alloc::AllocError;

/// Whether a set with the same members stands among these.
#[tactic(auto, using(lfg_context::proofs::Growing::growing))]
fn is_known(sets: &[Ctx], ctx: &Ctx, contexts: &Contexts) -> bool
    requires sets_made { AllMade contexts.now sets.now }
    requires made { IsMade contexts.now ctx.now }
    ensures { OnTrue result (IsAmong sets.now ctx.now) }
{
    for set in sets {
        if contexts.same(ctx, set) {
            return true;
        }
    }
    false
}

/// Adds the context of the entry, if none with the same members is there.
#[tactic(auto, using(lfg_context::proofs::Growing::growing))]
fn add_context(
    entry: &(Fact, Ctx),
    contexts: &Contexts,
    sets: &mut Vec<Ctx>,
) -> Result<(), AllocError>
    requires made { IsMade contexts.now entry.now.1 }
    requires sets_made { AllMade contexts.now sets.old.items }
    ensures gathers { OnOk result (Gathers (entry.now ∷ []) sets.old.items sets.new.items) }
    ensures sets_made { AllMade contexts.now sets.new.items }
{
    if is_known(sets, &entry.1, contexts) {
        return Ok(());
    }
    let ctx = entry.1.share()?;
    sets.push(ctx)?;
    Ok(())
}

/// Adds the contexts of the entries, each once.
#[tactic(auto, using(lfg_context::proofs::Growing::growing))]
pub(crate) fn add_contexts(
    entries: &[(Fact, Ctx)],
    contexts: &Contexts,
    sets: &mut Vec<Ctx>,
) -> Result<(), AllocError>
    requires made { AreMadeBy contexts.now entries.now }
    requires sets_made { AllMade contexts.now sets.old.items }
    ensures gathers { OnOk result (Gathers entries.now sets.old.items sets.new.items) }
    ensures sets_made { AllMade contexts.now sets.new.items }
{
    for entry in entries {
        add_context(entry, contexts, sets)?;
    }
    Ok(())
}
