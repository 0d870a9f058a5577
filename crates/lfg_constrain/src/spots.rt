ghost use Rattle.std.specs.Prelude.{◌≡◌, ◌<◌, ℕ, IfOk, IfSome, OnOk, length, slice_index_or};
ghost use Rattle.lfg_context.specs.Seen.{Set};
ghost use Rattle.lfg_context.specs.Sets.{IsMade, AreMade, IsGrown, HasSamePicks};
ghost use Rattle.lfg_context.specs.Telling.{Tells, InSome};
ghost use Rattle.lfg_unify.specs.Rows.{Widens};
ghost use Rattle.lfg_constrain.specs.Spots.{IsClosure, IsMet, Touches, Joins};

use lfg_context::{Contexts, Ctx};
use lfg_unify::Closure;
use std::alloc::AllocError;

/// The place of a node, with the context in which a walk leads there.
pub(crate) type Spot = (usize, Ctx);

/// The number of the first spot at the place, counted from 0, if one is there.
fn number_of(spots: &[Spot], place: usize) -> Option<usize>
    ensures within { IfSome result (λ number. number < length spots.now) }
    ensures at { IfSome result (λ number. (spot : ℕ × Set) → (slice_index_or spots.now number spot).0 ≡ place) }
{
    for number in 0..spots.len() {
        if spots[number].0 == place {
            return Some(number);
        }
    }
    None
}

/// Adds the place where the context holds.
#[tactic(auto, using(crate::proofs::Classes::closed))]
pub(crate) fn widen(
    spots: &mut Vec<Spot>,
    place: usize,
    ctx: &Ctx,
    contexts: &mut Contexts,
) -> Result<(), AllocError>
    requires made { IsMade contexts.old ctx.now }
    requires spots { AreMade contexts.old (λ s. s.1) spots.old.items }
    ensures grown { IsGrown contexts.old contexts.new }
    ensures picks { HasSamePicks contexts.old contexts.new }
    ensures spots { OnOk result (AreMade contexts.new (λ s. s.1) spots.new.items) }
    ensures step { OnOk result (Widens spots.old.items place ctx.now spots.new.items) }
{
    if contexts.is_empty(ctx) {
        return Ok(());
    }
    if let Some(number) = number_of(spots, place) {
        let wider = contexts.or(&spots[number].1, ctx)?;
        spots[number] = (place, wider);
        return Ok(());
    }
    spots.push((place, ctx.share()?))?;
    Ok(())
}

/// Adds all places of the other spots, where these hold.
#[tactic(auto, using(crate::proofs::Classes::closed))]
pub(crate) fn join(
    spots: &mut Vec<Spot>,
    more: &[Spot],
    contexts: &mut Contexts,
) -> Result<(), AllocError>
    requires spots { AreMade contexts.old (λ s. s.1) spots.old.items }
    requires more { AreMade contexts.old (λ s. s.1) more.now }
    ensures grown { IsGrown contexts.old contexts.new }
    ensures picks { HasSamePicks contexts.old contexts.new }
    ensures spots { OnOk result (AreMade contexts.new (λ s. s.1) spots.new.items) }
    ensures joins { OnOk result (Joins spots.old.items more.now spots.new.items) }
{
    for spot in more {
        widen(spots, spot.0, &spot.1, contexts)?;
    }
    Ok(())
}

/// Where the set holds and some spot is at a node equal to that of the place.
#[tactic(auto, using(crate::proofs::Classes::closed))]
pub(crate) fn touched(
    closure: &Closure,
    spots: &[Spot],
    place: usize,
    set: &Ctx,
    contexts: &mut Contexts,
) -> Result<Ctx, AllocError>
    requires closure { IsClosure contexts.old closure.now }
    requires spots { AreMade contexts.old (λ s. s.1) spots.now }
    requires set { IsMade contexts.old set.now }
    ensures grown { IsGrown contexts.old contexts.new }
    ensures picks { HasSamePicks contexts.old contexts.new }
    ensures made { IfOk result (λ z. IsMade contexts.new z) }
    ensures tells { IfOk result (λ z. Tells z (Touches closure.now spots.now place set.now)) }
{
    let mut met = contexts.no();
    for spot in spots {
        let one = contexts.and(&spot.1, closure.equal_at(spot.0, place))?;
        met = contexts.or(&met, &one)?;
    }
    let all = contexts.and(set, &met)?;
    Ok(all)
}
