ghost use Rattle.std.specs.Prelude.{◌≡◌, ◌∷◌, ◌++◌, [], true, length, IfOk, OnOk};
ghost use Rattle.lfg_context.specs.Sets.{member, assigned, IsMade, IsGrown, HasSamePicks, HasPicksOf, DependsOnFirst};
ghost use Rattle.lfg_store.specs.Packing.{AreMadeBy};
ghost use Rattle.lfg_store.specs.Unpacking.{pair_of, AreUnpacked, KeepsMeaning};
ghost use Rattle.lfg_unpack.specs.Plain.{HasPlainFacts};
ghost use Rattle.lfg_unpack.specs.Pieces.{AllMade, AllDepend, TellsPairs, Covers};

use crate::gathering::add_contexts;
use crate::leaves::pair_of;
use crate::pieces::unsettled;
use crate::written::{Written, sorted_pairs};
use lfg_choice::ChoiceSpace;
use lfg_context::{Contexts, Ctx};
use lfg_model::Pair;
use lfg_store::{FactStore, Packed};
use std::alloc::{AllocError, Global};

/// Adds the pairs of the piece, of which the sets tell.
#[cycle(splitting)]
#[tactic(auto, using(lfg_context::proofs::Growing::growing, lfg_context::proofs::Depending::depending))]
fn add_pairs(
    alloc: Global,
    tree: &FactStore,
    facts: &FactStore,
    piece: &Ctx,
    sets: &[Ctx],
    space: &ChoiceSpace,
    contexts: &mut Contexts,
    pairs: &mut Vec<Written>,
) -> Result<(), AllocError>
    requires plain { HasPlainFacts facts.now }
    requires tree_made { AreMadeBy contexts.old tree.now }
    requires facts_made { AreMadeBy contexts.old facts.now }
    requires piece_made { IsMade contexts.old piece.now }
    requires piece_depends { DependsOnFirst (length space.now) piece.now }
    requires sets_made { AllMade contexts.old sets.now }
    requires sets_depend { AllDepend (length space.now) sets.now }
    requires space_picks { HasPicksOf contexts.old space.now }
    requires tells { TellsPairs tree.now facts.now piece.now sets.now }
    ensures covers { OnOk result (Covers tree.now facts.now piece.now pairs.old.items pairs.new.items) }
    ensures grown { IsGrown contexts.old contexts.new }
    ensures picks { HasSamePicks contexts.old contexts.new }
{
    let sample = contexts.some_member(piece, space)?;
    match sample {
        Some(sample) => add_pairs_from(
            alloc,
            tree,
            facts,
            piece,
            sets,
            sample.as_slice(),
            space,
            contexts,
            pairs,
        ),
        None => Ok(()),
    }
}

/// Adds the pairs of the piece, of which the sets tell and the sample is an assignment.
#[cycle(splitting)]
#[tactic(auto, using(lfg_context::proofs::Growing::growing, lfg_context::proofs::Depending::depending))]
fn add_pairs_from(
    alloc: Global,
    tree: &FactStore,
    facts: &FactStore,
    piece: &Ctx,
    sets: &[Ctx],
    sample: &[u32],
    space: &ChoiceSpace,
    contexts: &mut Contexts,
    pairs: &mut Vec<Written>,
) -> Result<(), AllocError>
    requires plain { HasPlainFacts facts.now }
    requires tree_made { AreMadeBy contexts.old tree.now }
    requires facts_made { AreMadeBy contexts.old facts.now }
    requires piece_made { IsMade contexts.old piece.now }
    requires piece_depends { DependsOnFirst (length space.now) piece.now }
    requires sets_made { AllMade contexts.old sets.now }
    requires sets_depend { AllDepend (length space.now) sets.now }
    requires space_picks { HasPicksOf contexts.old space.now }
    requires tells { TellsPairs tree.now facts.now piece.now sets.now }
    requires sampled { member piece.now (assigned sample.now) ≡ true }
    ensures covers { OnOk result (Covers tree.now facts.now piece.now pairs.old.items pairs.new.items) }
    ensures grown { IsGrown contexts.old contexts.new }
    ensures picks { HasSamePicks contexts.old contexts.new }
{
    let left = unsettled(alloc, piece, sets, sample, contexts)?;
    match left.split_first() {
        Some((by, others)) => add_parts(
            alloc, tree, facts, piece, by, others, space, contexts, pairs,
        ),
        None => {
            add_pair(alloc, tree, facts, sample, contexts, pairs)?;
            Ok(())
        }
    }
}

/// Adds the pairs of the piece, part by part: the assignments in the set, and those that are not. The
/// set and the others tell of the pairs.
#[cycle(splitting)]
#[tactic(auto, using(lfg_context::proofs::Growing::growing, lfg_context::proofs::Depending::depending))]
fn add_parts(
    alloc: Global,
    tree: &FactStore,
    facts: &FactStore,
    piece: &Ctx,
    by: &Ctx,
    others: &[Ctx],
    space: &ChoiceSpace,
    contexts: &mut Contexts,
    pairs: &mut Vec<Written>,
) -> Result<(), AllocError>
    requires plain { HasPlainFacts facts.now }
    requires tree_made { AreMadeBy contexts.old tree.now }
    requires facts_made { AreMadeBy contexts.old facts.now }
    requires piece_made { IsMade contexts.old piece.now }
    requires piece_depends { DependsOnFirst (length space.now) piece.now }
    requires by_made { IsMade contexts.old by.now }
    requires by_depends { DependsOnFirst (length space.now) by.now }
    requires others_made { AllMade contexts.old others.now }
    requires others_depend { AllDepend (length space.now) others.now }
    requires space_picks { HasPicksOf contexts.old space.now }
    requires tells { TellsPairs tree.now facts.now piece.now (by.now ∷ others.now) }
    ensures covers { OnOk result (Covers tree.now facts.now piece.now pairs.old.items pairs.new.items) }
    ensures grown { IsGrown contexts.old contexts.new }
    ensures picks { HasSamePicks contexts.old contexts.new }
{
    let inside = contexts.and(piece, by)?;
    add_pairs(alloc, tree, facts, &inside, others, space, contexts, pairs)?;
    let outside = contexts.without(piece, by)?;
    add_pairs(alloc, tree, facts, &outside, others, space, contexts, pairs)?;
    Ok(())
}

/// Adds the pair of the assignment.
fn add_pair(
    alloc: Global,
    tree: &FactStore,
    facts: &FactStore,
    assignment: &[u32],
    contexts: &Contexts,
    pairs: &mut Vec<Written>,
) -> Result<(), AllocError>
    requires plain { HasPlainFacts facts.now }
    requires tree_made { AreMadeBy contexts.now tree.now }
    requires facts_made { AreMadeBy contexts.now facts.now }
    ensures { OnOk result (pairs.new.items
        ≡ pairs.old.items ++ pair_of tree.now facts.now (assigned assignment.now) ∷ []) }
{
    let pair = pair_of(alloc, tree, facts, assignment, contexts)?;
    let written = Written::new(alloc, pair)?;
    pairs.push(written)?;
    Ok(())
}

/// The pairs of all good assignments, each once, in the order of their texts.
///
/// The good assignments are split by the facts: two assignments with one pair are never told apart.
/// No fact of the f-structures has a new node.
///
/// # Errors
///
/// Only for want of memory. The packed value means what it meant in any case.
#[tactic(auto, using(lfg_context::proofs::Growing::growing, lfg_store::proofs::Packings::packing))]
pub fn unpack(alloc: Global, packed: &mut Packed) -> Result<Vec<Pair>, AllocError>
    requires { HasPlainFacts packed.old.facts }
    ensures pairs { IfOk result (λ pairs. AreUnpacked packed.old pairs.items) }
    ensures kept { KeepsMeaning packed.old packed.new }
{
    let mut sets = Vec::new(alloc);
    add_contexts(packed.tree.entries(), &packed.contexts, &mut sets)?;
    add_contexts(packed.facts.entries(), &packed.contexts, &mut sets)?;
    let mut written = Vec::new(alloc);
    add_pairs(
        alloc,
        &packed.tree,
        &packed.facts,
        &packed.good,
        &sets,
        &packed.space,
        &mut packed.contexts,
        &mut written,
    )?;
    let pairs = sorted_pairs(alloc, written)?;
    Ok(pairs)
}
