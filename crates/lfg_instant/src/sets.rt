ghost use Rattle.std.specs.Prelude.{◌≡◌, ℕ, ◌<◌, Some, IfOk, List, length, map, slice_get};
ghost use Rattle.lfg_context.specs.Sets.{Assignment, AreMade, IsGrown};
ghost use Rattle.lfg_instant.specs.Annotations.{ArePicks, IsPick, ArePicksMade};
ghost use Rattle.lfg_instant.specs.Picked.{HavePickedOf};
ghost use Rattle.lfg_instant.specs.Junctions.{placed, AreJunctions};
ghost use Rattle.lfg_instant.specs.Sites.{site_key};
ghost use Rattle.lfg_model.specs.Places.{places};
ghost use Rattle.lfg_packed.specs.Assignments.{alternative_at, picks_at};
ghost use Rattle.lfg_packed.specs.ChoicePoints.{BranchAt, key_of};
ghost use Rattle.lfg_packed.specs.Choices.{IsSite, annotation_at, choice_of};
ghost use Rattle.lfg_terms.specs.declared.grammar.Grammar.{Grammar};
ghost use Rattle.lfg_terms.specs.declared.literal.Site.{Site};
ghost use Rattle.lfg_terms.specs.declared.tree.TokenForms.{TokenForms};

use crate::junctions::Junction;
use crate::picks::pick;
use lfg_choice::ChoiceSpace;
use lfg_context::{Contexts, Ctx};
use lfg_packed::ChoiceKey;
use lfg_terms::{Grammar, List, TokenForms};
use std::alloc::{AllocError, Global};

/// The key of a place in the annotation of an item or entry.
fn place_key(key: &ChoiceKey, place: usize) -> Result<ChoiceKey, AllocError>
    ensures { IfOk result (λ it. (g : Grammar) (s : List TokenForms) (at : Site) → key.now ≡ site_key g s at → it ≡ key_of g s (BranchAt at place)) }
{
    let Ok(place) = u32::try_from(place) else {
        return Err(AllocError);
    };
    Ok(ChoiceKey {
        edge: key.edge.clone()?,
        rank: key.rank,
        from: key.from,
        to: key.to,
        item: key.item,
        place,
    })
}

/// The sets of the alternatives at one place in the annotation of an item or entry.
#[tactic(auto, using(lfg_context::proofs::Growing::growing, crate::proofs::PickedLaws::picked))]
fn place_sets(
    alloc: Global,
    grammar: &Grammar,
    tokens: &[TokenForms],
    junctions: &[Junction],
    space: &ChoiceSpace,
    key: &ChoiceKey,
    place: usize,
    many: u32,
    contexts: &mut Contexts,
) -> Result<List<Ctx>, AllocError>
    requires junctions { AreJunctions grammar.now tokens.now junctions.now }
    requires space { space.now ≡ map choice_of (map placed junctions.now) }
    requires picks { HavePickedOf contexts.old space.now }
    requires at { (at : Site) × IsSite grammar.now tokens.now at × (key.now ≡ site_key grammar.now tokens.now at) × (slice_get (places (annotation_at grammar.now at)) place ≡ Some many) }
    ensures each { IfOk result (λ sets. (at : Site) → key.now ≡ site_key grammar.now tokens.now at → (a : Assignment)
        → IsPick sets a (alternative_at grammar.now tokens.now (map placed junctions.now) a (BranchAt at place))) }
    ensures len { IfOk result (λ sets. length sets ≡ many) }
    ensures made { IfOk result (λ sets. AreMade contexts.new (λ x. x) sets) }
    ensures grown { IsGrown contexts.old contexts.new }
    ensures picks { HavePickedOf contexts.new space.now }
{
    let mut sets = Vec::new(alloc);
    for number in 0..many {
        let at = place_key(key, place)?;
        let set = pick(
            grammar,
            tokens,
            junctions,
            space,
            at,
            many as usize,
            number as usize,
            contexts,
        )?;
        sets.push(set)?;
    }
    let list = List::new(alloc, sets)?;
    Ok(list)
}

/// The sets of the alternatives at all places in the annotation of an item or entry.
#[tactic(auto, using(lfg_context::proofs::Growing::growing, crate::proofs::PickedLaws::picked))]
pub(crate) fn site_sets(
    alloc: Global,
    grammar: &Grammar,
    tokens: &[TokenForms],
    junctions: &[Junction],
    space: &ChoiceSpace,
    key: &ChoiceKey,
    numbers: &[u32],
    contexts: &mut Contexts,
) -> Result<Vec<List<Ctx>>, AllocError>
    requires junctions { AreJunctions grammar.now tokens.now junctions.now }
    requires space { space.now ≡ map choice_of (map placed junctions.now) }
    requires picks { HavePickedOf contexts.old space.now }
    requires at { (at : Site) × IsSite grammar.now tokens.now at × (key.now ≡ site_key grammar.now tokens.now at) × (numbers.now ≡ places (annotation_at grammar.now at)) }
    ensures each { IfOk result (λ sets. (at : Site) → key.now ≡ site_key grammar.now tokens.now at → numbers.now ≡ places (annotation_at grammar.now at)
        → (a : Assignment) → ArePicks sets.items a (picks_at grammar.now tokens.now (map placed junctions.now) a at)) }
    ensures numbers { IfOk result (λ sets. map length sets.items ≡ numbers.now) }
    ensures made { IfOk result (λ sets. ArePicksMade contexts.new sets.items) }
    ensures grown { IsGrown contexts.old contexts.new }
    ensures picks { HavePickedOf contexts.new space.now }
{
    let mut sets = Vec::new(alloc);
    for (place, many) in numbers.iter().enumerate() {
        let list = place_sets(
            alloc, grammar, tokens, junctions, space, key, place, *many, contexts,
        )?;
        sets.push(list)?;
    }
    Ok(sets)
}
