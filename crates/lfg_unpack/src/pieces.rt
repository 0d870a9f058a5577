ghost use Rattle.std.specs.Prelude.{◌≡◌, ◌≤◌, length, IfOk, OnOk};
ghost use Rattle.std.specs.Bool.{OnTrue};
ghost use Rattle.lfg_context.specs.Sets.{member, assigned, IsMade, IsGrown, HasSamePicks};
ghost use Rattle.lfg_unpack.specs.Pieces.{AllMade, Includes, IsSettled, IsSifted, Settles};

use lfg_context::{Contexts, Ctx};
use std::alloc::{AllocError, Global};

/// Whether all assignments of the piece are in the set, or none is. The sample is one of the
/// piece's assignments; with another the answer may be false where it could be true.
#[tactic(auto, using(lfg_context::proofs::Growing::growing))]
fn is_settled(
    piece: &Ctx,
    by: &Ctx,
    sample: &[u32],
    contexts: &mut Contexts,
) -> Result<bool, AllocError>
    requires piece_made { IsMade contexts.old piece.now }
    requires by_made { IsMade contexts.old by.now }
    ensures settled { IfOk result (λ settled. OnTrue settled (IsSettled piece.now by.now)) }
    ensures grown { IsGrown contexts.old contexts.new }
    ensures picks { HasSamePicks contexts.old contexts.new }
{
    if contexts.holds(by, sample) {
        let others = contexts.without(piece, by)?;
        return Ok(contexts.is_empty(&others));
    }
    let others = contexts.and(piece, by)?;
    Ok(contexts.is_empty(&others))
}

/// Adds the set to those that are left, if it is not settled in the piece.
#[tactic(auto, using(lfg_context::proofs::Growing::growing))]
fn sift(
    piece: &Ctx,
    set: &Ctx,
    sample: &[u32],
    contexts: &mut Contexts,
    left: &mut Vec<Ctx>,
) -> Result<(), AllocError>
    requires piece_made { IsMade contexts.old piece.now }
    requires set_made { IsMade contexts.old set.now }
    ensures sifted { OnOk result (IsSifted piece.now set.now left.old.items left.new.items) }
    ensures grown { IsGrown contexts.old contexts.new }
    ensures picks { HasSamePicks contexts.old contexts.new }
{
    let settled = is_settled(piece, set, sample, contexts)?;
    if settled {
        return Ok(());
    }
    let set = set.share()?;
    left.push(set)?;
    Ok(())
}

/// The sets that are not settled in the piece.
#[tactic(auto, using(lfg_context::proofs::Growing::growing))]
pub(crate) fn unsettled(
    alloc: Global,
    piece: &Ctx,
    sets: &[Ctx],
    sample: &[u32],
    contexts: &mut Contexts,
) -> Result<Vec<Ctx>, AllocError>
    requires piece_made { IsMade contexts.old piece.now }
    requires sets_made { AllMade contexts.old sets.now }
    ensures settles { IfOk result (λ left. Settles piece.now sets.now left.items) }
    ensures among { IfOk result (λ left. Includes left.items sets.now) }
    ensures fewer { IfOk result (λ left. length left.items ≤ length sets.now) }
    ensures grown { IsGrown contexts.old contexts.new }
    ensures picks { HasSamePicks contexts.old contexts.new }
{
    let mut left = Vec::new(alloc);
    for set in sets {
        sift(piece, set, sample, contexts, &mut left)?;
    }
    Ok(left)
}
