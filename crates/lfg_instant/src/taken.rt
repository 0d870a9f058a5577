ghost use Rattle.std.specs.Prelude.{◌≡◌, ◌==◌, ℕ, ◌<◌, IfOk, length, map};
ghost use Rattle.lfg_context.specs.Sets.{AreMade, IsGrown, IsSetOf};
ghost use Rattle.lfg_model.specs.Lists.{In};
ghost use Rattle.lfg_packed.specs.Assignments.{alternative_at};
ghost use Rattle.lfg_packed.specs.ChoicePoints.{NextAt, EntryAt};
ghost use Rattle.lfg_packed.specs.Choices.{choice_of};
ghost use Rattle.lfg_instant.specs.Picked.{HavePickedOf};
ghost use Rattle.lfg_instant.specs.Junctions.{placed, next_key, entry_key, AreJunctions, IsPlaceKey};
ghost use Rattle.lfg_instant.specs.Ways.{AreStepPicks, AreWordPicks};
ghost use Rattle.lfg_instant.specs.declared.steps.Step.{Step};
ghost use Rattle.lfg_instant.specs.declared.steps.Word.{Word};

use crate::junctions::Junction;
use crate::picks::pick;
use crate::steps::{Step, Word};
use lfg_choice::ChoiceSpace;
use lfg_context::{Contexts, Ctx};
use lfg_model::Point;
use lfg_packed::ChoiceKey;
use lfg_terms::{Edge, Grammar, TokenForms};
use std::alloc::{AllocError, Global};

/// The key of the ways to go on at a point.
fn next_key(point: &Point) -> Result<ChoiceKey, AllocError>
    ensures { IfOk result (λ key. key ≡ next_key point.now) }
{
    Ok(ChoiceKey {
        edge: point.edge.clone()?,
        rank: 0,
        from: point.at,
        to: 0,
        item: point.occ,
        place: 0,
    })
}

/// The key of the entries of an edge.
fn entry_key(edge: &Edge) -> Result<ChoiceKey, AllocError>
    ensures { IfOk result (λ key. key ≡ entry_key edge.now) }
{
    Ok(ChoiceKey {
        edge: edge.clone()?,
        rank: 1,
        from: 0,
        to: 0,
        item: 0,
        place: 0,
    })
}

/// The assignments that go on at a point by a step.
#[tactic(auto, using(lfg_context::proofs::Growing::growing, crate::proofs::PickedLaws::picked))]
fn step_pick(
    grammar: &Grammar,
    tokens: &[TokenForms],
    junctions: &[Junction],
    space: &ChoiceSpace,
    step: &Step,
    contexts: &mut Contexts,
) -> Result<Ctx, AllocError>
    requires junctions { AreJunctions grammar.now tokens.now junctions.now }
    requires space { space.now ≡ map choice_of (map placed junctions.now) }
    requires picks { HavePickedOf contexts.old space.now }
    requires place { IsPlaceKey grammar.now tokens.now (NextAt step.now.point) (next_key step.now.point) step.now.of step.now.number }
    ensures ok { IfOk result (λ set. IsSetOf contexts.new set (λ a. alternative_at grammar.now tokens.now (map placed junctions.now) a (NextAt step.now.point) == step.now.number)) }
    ensures grown { IsGrown contexts.old contexts.new }
    ensures picks { HavePickedOf contexts.new space.now }
{
    let key = next_key(&step.point)?;
    let set = pick(
        grammar,
        tokens,
        junctions,
        space,
        key,
        step.of,
        step.number,
        contexts,
    )?;
    Ok(set)
}

/// The assignments that take the entry of a word at its edge.
#[tactic(auto, using(lfg_context::proofs::Growing::growing, crate::proofs::PickedLaws::picked))]
fn word_pick(
    grammar: &Grammar,
    tokens: &[TokenForms],
    junctions: &[Junction],
    space: &ChoiceSpace,
    word: &Word,
    contexts: &mut Contexts,
) -> Result<Ctx, AllocError>
    requires junctions { AreJunctions grammar.now tokens.now junctions.now }
    requires space { space.now ≡ map choice_of (map placed junctions.now) }
    requires picks { HavePickedOf contexts.old space.now }
    requires place { IsPlaceKey grammar.now tokens.now (EntryAt word.now.edge) (entry_key word.now.edge) word.now.of word.now.number }
    ensures ok { IfOk result (λ set. IsSetOf contexts.new set (λ a. alternative_at grammar.now tokens.now (map placed junctions.now) a (EntryAt word.now.edge) == word.now.number)) }
    ensures grown { IsGrown contexts.old contexts.new }
    ensures picks { HavePickedOf contexts.new space.now }
{
    let key = entry_key(&word.edge)?;
    let set = pick(
        grammar,
        tokens,
        junctions,
        space,
        key,
        word.of,
        word.number,
        contexts,
    )?;
    Ok(set)
}

/// The assignments that take each of some steps.
///
/// # Errors
///
/// For want of memory; and where a number is past 32 bits.
#[tactic(auto, using(lfg_context::proofs::Growing::growing, crate::proofs::PickedLaws::picked))]
pub(crate) fn step_picks(
    alloc: Global,
    grammar: &Grammar,
    tokens: &[TokenForms],
    junctions: &[Junction],
    space: &ChoiceSpace,
    steps: &[Step],
    contexts: &mut Contexts,
) -> Result<Vec<Ctx>, AllocError>
    requires junctions { AreJunctions grammar.now tokens.now junctions.now }
    requires space { space.now ≡ map choice_of (map placed junctions.now) }
    requires picks { HavePickedOf contexts.old space.now }
    requires places { (st : Step) → In st steps.now → IsPlaceKey grammar.now tokens.now (NextAt st.point) (next_key st.point) st.of st.number }
    ensures sets { IfOk result (λ sets. AreStepPicks grammar.now tokens.now (map placed junctions.now) steps.now sets.items) }
    ensures made { IfOk result (λ sets. AreMade contexts.new (λ x. x) sets.items) }
    ensures grown { IsGrown contexts.old contexts.new }
    ensures picks { HavePickedOf contexts.new space.now }
{
    let mut sets = Vec::new(alloc);
    for step in steps {
        let set = step_pick(grammar, tokens, junctions, space, step, contexts)?;
        sets.push(set)?;
    }
    Ok(sets)
}

/// The assignments that take each of some words.
///
/// # Errors
///
/// For want of memory; and where a number is past 32 bits.
#[tactic(auto, using(lfg_context::proofs::Growing::growing, crate::proofs::PickedLaws::picked))]
pub(crate) fn word_picks(
    alloc: Global,
    grammar: &Grammar,
    tokens: &[TokenForms],
    junctions: &[Junction],
    space: &ChoiceSpace,
    words: &[Word],
    contexts: &mut Contexts,
) -> Result<Vec<Ctx>, AllocError>
    requires junctions { AreJunctions grammar.now tokens.now junctions.now }
    requires space { space.now ≡ map choice_of (map placed junctions.now) }
    requires picks { HavePickedOf contexts.old space.now }
    requires places { (w : Word) → In w words.now → IsPlaceKey grammar.now tokens.now (EntryAt w.edge) (entry_key w.edge) w.of w.number }
    ensures sets { IfOk result (λ sets. AreWordPicks grammar.now tokens.now (map placed junctions.now) words.now sets.items) }
    ensures made { IfOk result (λ sets. AreMade contexts.new (λ x. x) sets.items) }
    ensures grown { IsGrown contexts.old contexts.new }
    ensures picks { HavePickedOf contexts.new space.now }
{
    let mut sets = Vec::new(alloc);
    for word in words {
        let set = word_pick(grammar, tokens, junctions, space, word, contexts)?;
        sets.push(set)?;
    }
    Ok(sets)
}
