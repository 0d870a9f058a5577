ghost use Rattle.std.specs.Prelude.{◌≡◌, ◌==◌, ℕ, ◌<◌, ◌≤◌, [], IfOk, OnOk, length, map};
ghost use Rattle.lfg_context.specs.Sets.{IsGrown, IsSetOf};
ghost use Rattle.lfg_model.specs.Lists.{In};
ghost use Rattle.lfg_packed.specs.Assignments.{alternative_at};
ghost use Rattle.lfg_packed.specs.ChoicePoints.{ChoicePoint, key_of, kind_of};
ghost use Rattle.lfg_packed.specs.Choices.{choice_of};
ghost use Rattle.lfg_instant.specs.Picked.{HavePickedOf};
ghost use Rattle.lfg_instant.specs.Junctions.{place_of_key, placed, AreJunctions, IsPlaceKey};
ghost use Rattle.lfg_instant.specs.declared.junctions.Junction.{Junction};

use crate::junctions::Junction;
use lfg_choice::{Choice, ChoiceKind, ChoiceSpace};
use lfg_context::{Contexts, Ctx};
use lfg_packed::ChoiceKey;
use lfg_terms::{Grammar, TokenForms};
use std::alloc::AllocError;

/// What the choice with this key is between.
fn kind_at(key: &ChoiceKey) -> ChoiceKind
    ensures { result ≡ kind_of (place_of_key key.now) }
{
    match key.rank {
        0 => ChoiceKind::Next,
        1 => ChoiceKind::Entry,
        _ => ChoiceKind::Branch,
    }
}

/// Puts the choices into a space that has none yet.
///
/// # Errors
///
/// Only for want of memory.
pub(crate) fn push_choices(
    junctions: &[Junction],
    space: &mut ChoiceSpace,
) -> Result<(), AllocError>
    requires empty { space.old ≡ [] }
    requires few { length junctions.now < 4294967295 }
    requires two { (j : Junction) → In j junctions.now → 2 ≤ j.alternatives }
    ensures { OnOk result (space.new ≡ map choice_of (map placed junctions.now)) }
{
    for junction in junctions {
        space.push(Choice {
            kind: kind_at(&junction.key),
            alternatives: junction.alternatives,
        })?;
    }
    Ok(())
}

/// The assignments that take the alternative `number`, counted from 0, of the place with this key,
/// which has `many` alternatives: all of them, where it has one alone.
///
/// # Errors
///
/// For want of memory; and where a number is past 32 bits.
#[tactic(auto, using(lfg_context::proofs::Growing::growing, crate::proofs::PickedLaws::picked))]
pub(crate) fn pick(
    grammar: &Grammar,
    tokens: &[TokenForms],
    junctions: &[Junction],
    space: &ChoiceSpace,
    key: ChoiceKey,
    many: usize,
    number: usize,
    contexts: &mut Contexts,
) -> Result<Ctx, AllocError>
    requires junctions { AreJunctions grammar.now tokens.now junctions.now }
    requires space { space.now ≡ map choice_of (map placed junctions.now) }
    requires picks { HavePickedOf contexts.old space.now }
    requires place { (x : ChoicePoint) × IsPlaceKey grammar.now tokens.now x key many number }
    ensures ok { IfOk result (λ set. (x : ChoicePoint) → key ≡ key_of grammar.now tokens.now x
        → IsSetOf contexts.new set (λ a. alternative_at grammar.now tokens.now (map placed junctions.now) a x == number)) }
    ensures grown { IsGrown contexts.old contexts.new }
    ensures picks { HavePickedOf contexts.new space.now }
{
    if many < 2 {
        return Ok(contexts.yes());
    }
    let Ok(alternatives) = u32::try_from(many) else {
        return Err(AllocError);
    };
    let sought = Junction { key, alternatives };
    let place = match junctions.binary_search(&sought) {
        Ok(place) => place,
        // Each place with two alternatives or more has a junction, so this never happens.
        Err(_) => return Ok(contexts.no()),
    };
    let Ok(choice) = u32::try_from(place) else {
        return Err(AllocError);
    };
    let set = contexts.pick(space, choice, number as u32)?;
    Ok(set)
}
