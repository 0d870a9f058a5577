ghost use Rattle.std.specs.Prelude.{◌≡◌, ℕ, ◌<◌, ◌≤◌, ◌+◌, ◌⊎◌, ◌++◌, ◌∷◌, [], IfOk, OnOk, IfSome, length};
ghost use Rattle.lfg_choice.specs.Choices.{alternatives_of};
ghost use Rattle.lfg_context.specs.Sets.{IsMade, IsGrown, HasPicksOf, DependsOnFirst, AreMade};

use crate::{Contexts, Ctx};
use lfg_choice::{Choice, ChoiceKind, ChoiceSpace};
use std::alloc::{AllocError, Global};
use std::test::Fail;

/// A choice of this many alternatives.
fn branch(alternatives: u32) -> Choice
    ensures { result.alternatives ≡ alternatives }
{
    Choice {
        kind: ChoiceKind::Branch,
        alternatives,
    }
}

/// The space with the choices 0 of two and 1 of three alternatives.
fn two_and_three(alloc: Global) -> Result<ChoiceSpace, AllocError>
    ensures len { IfOk result (λ space. length space ≡ 2) }
    ensures two { IfOk result (λ space. alternatives_of space 0 ≡ 2) }
    ensures three { IfOk result (λ space. alternatives_of space 1 ≡ 3) }
{
    let mut space = ChoiceSpace::new(alloc);
    space.push(branch(2))?;
    space.push(branch(3))?;
    Ok(space)
}

#[test]
#[tactic(auto, using(crate::proofs::Growing::growing))]
fn the_alternatives_of_a_choice_are_all(rt: HostRuntime) -> Result<(), Fail> {
    let space = two_and_three(rt.alloc())?;
    let mut contexts = Contexts::new(rt.alloc());
    let left = contexts.pick(&space, 0, 0)?;
    let right = contexts.pick(&space, 0, 1)?;
    let both = contexts.or(&left, &right)?;
    assert!(rt; contexts.same(&both, &contexts.yes()));
    Ok(())
}

#[test]
#[tactic(auto, using(crate::proofs::Growing::growing))]
fn alternatives_of_a_choice_exclude_each_other(rt: HostRuntime) -> Result<(), Fail> {
    let space = two_and_three(rt.alloc())?;
    let mut contexts = Contexts::new(rt.alloc());
    let left = contexts.pick(&space, 1, 0)?;
    let right = contexts.pick(&space, 1, 1)?;
    let both = contexts.and(&left, &right)?;
    assert!(rt; contexts.is_empty(&both));
    assert!(rt; contexts.same(&both, &contexts.no()));
    assert!(rt; contexts.some_member(&both, &space)?.is_none());
    Ok(())
}

#[test]
#[tactic(auto, using(crate::proofs::Growing::growing))]
fn the_least_member_is_found(rt: HostRuntime) -> Result<(), Fail> {
    let space = two_and_three(rt.alloc())?;
    let mut contexts = Contexts::new(rt.alloc());
    let left = contexts.pick(&space, 0, 0)?;
    let last = contexts.pick(&space, 1, 2)?;
    let either = contexts.or(&left, &last)?;
    let least = contexts.some_member(&either, &space)?.ok_or("empty")?;
    assert_eq!(rt; least.as_slice(), [0, 0].as_slice());
    let rest = contexts.without(&either, &left)?;
    let least = contexts.some_member(&rest, &space)?.ok_or("empty")?;
    assert_eq!(rt; least.as_slice(), [1, 2].as_slice());
    assert!(rt; contexts.holds(&rest, [1, 2].as_slice()));
    assert!(rt; !contexts.holds(&rest, [0, 2].as_slice()));
    Ok(())
}

/// The first choice of the set, and its children by 0 and by 1.
#[tactic(auto, using(crate::proofs::Depending::depending))]
fn first_children(contexts: &Contexts, set: &Ctx) -> Result<Option<(u32, Ctx, Ctx)>, AllocError>
    requires { IsMade contexts.now set.now }
    ensures zero { IfOk result (λ found. IfSome found (λ c. IsMade contexts.now c.1)) }
    ensures one { IfOk result (λ found. IfSome found (λ c. IsMade contexts.now c.2)) }
{
    match contexts.first(set) {
        Some(choice) => {
            let zero = contexts.child(set, 0)?;
            let one = contexts.child(set, 1)?;
            Ok(Some((choice, zero, one)))
        }
        None => Ok(None),
    }
}

#[test]
#[tactic(auto, using(crate::proofs::Growing::growing))]
fn children_of_the_first_choice(rt: HostRuntime) -> Result<(), Fail> {
    let space = two_and_three(rt.alloc())?;
    let mut contexts = Contexts::new(rt.alloc());
    let left = contexts.pick(&space, 0, 0)?;
    let last = contexts.pick(&space, 1, 2)?;
    let either = contexts.or(&left, &last)?;
    let rest = contexts.without(&either, &left)?;
    let (choice, zero, one) = first_children(&contexts, &rest)?.ok_or("constant")?;
    assert_eq!(rt; choice, 0);
    assert!(rt; contexts.is_empty(&zero));
    assert!(rt; contexts.same(&one, &last));
    assert!(rt; contexts.first(&contexts.yes()).is_none());
    let shared = rest.share()?;
    assert!(rt; contexts.same(&shared, &rest));
    Ok(())
}

/// The space of `n` choices of three alternatives.
fn threes(alloc: Global, n: u32) -> Result<ChoiceSpace, AllocError>
    ensures len { IfOk result (λ space. length space ≡ n) }
    ensures three { IfOk result (λ space. (c : ℕ) → c < n → alternatives_of space c ≡ 3) }
{
    let mut space = ChoiceSpace::new(alloc);
    for _place in 0..n {
        space.push(branch(3))?;
    }
    Ok(space)
}

/// The assignments at which the choice and the next one take the same alternative.
#[tactic(auto, using(crate::proofs::Growing::growing, crate::proofs::Depending::depending))]
fn equal_to_next(
    space: &ChoiceSpace,
    contexts: &mut Contexts,
    choice: u32,
) -> Result<Ctx, AllocError>
    requires next { choice + 1 < length space.now }
    requires room { length space.now ≤ 4294967295 }
    requires three { (c : ℕ) → c < length space.now → alternatives_of space.now c ≡ 3 }
    requires picks { HasPicksOf contexts.old space.now }
    ensures made { IfOk result (IsMade contexts.new) }
    ensures depends { IfOk result (DependsOnFirst (length space.now)) }
    ensures grown { IsGrown contexts.old contexts.new }
    ensures picks { HasPicksOf contexts.new space.now }
{
    let mut equal = contexts.no();
    for alternative in 0..3 {
        let here = contexts.pick(space, choice, alternative)?;
        let there = contexts.pick(space, choice + 1, alternative)?;
        let both = contexts.and(&here, &there)?;
        equal = contexts.or(&equal, &both)?;
    }
    Ok(equal)
}

/// The assignments at which no choice takes the alternative of the one before it.
#[tactic(auto, using(crate::proofs::Growing::growing, crate::proofs::Depending::depending))]
fn no_equal_neighbours(space: &ChoiceSpace, contexts: &mut Contexts) -> Result<Ctx, AllocError>
    requires some { 0 < length space.now }
    requires three { (c : ℕ) → c < length space.now → alternatives_of space.now c ≡ 3 }
    requires picks { HasPicksOf contexts.old space.now }
    ensures made { IfOk result (IsMade contexts.new) }
    ensures depends { IfOk result (DependsOnFirst (length space.now)) }
    ensures picks { HasPicksOf contexts.new space.now }
{
    let mut all = contexts.yes();
    for choice in 0..space.len() - 1 {
        let equal = equal_to_next(space, contexts, choice)?;
        let full = contexts.yes();
        let differ = contexts.without(&full, &equal)?;
        all = contexts.and(&all, &differ)?;
    }
    Ok(all)
}

/// Whether the set is one of those.
#[tactic(auto, using(crate::proofs::Growing::growing))]
fn is_known(contexts: &Contexts, sets: &[Ctx], set: &Ctx) -> bool
    requires sets { AreMade contexts.now (λ x. x) sets.now }
    requires set { IsMade contexts.now set.now }
{
    for known in sets {
        if contexts.same(known, set) {
            return true;
        }
    }
    false
}

/// Puts the set behind the others, unless it is one of them, or empty or full.
#[tactic(auto, using(crate::proofs::Growing::growing))]
fn add_new(contexts: &Contexts, sets: &mut Vec<Ctx>, set: Ctx) -> Result<(), AllocError>
    requires sets { AreMade contexts.now (λ x. x) sets.old.items }
    requires set { IsMade contexts.now set }
    ensures { OnOk result ((sets.new.items ≡ sets.old.items) ⊎ (sets.new.items ≡ sets.old.items ++ set ∷ [])) }
{
    if contexts.first(&set).is_none() {
        return Ok(());
    }
    if is_known(contexts, sets.as_slice(), &set) {
        return Ok(());
    }
    sets.push(set)?;
    Ok(())
}

/// How many different sets are met from the set downwards, children of children included, besides
/// the empty and the full one; at most `max`.
#[tactic(auto, using(crate::proofs::Growing::growing, crate::proofs::Depending::depending))]
fn nodes(
    alloc: Global,
    contexts: &Contexts,
    space: &ChoiceSpace,
    set: &Ctx,
    max: usize,
) -> Result<usize, AllocError>
    requires made { IsMade contexts.now set.now }
    requires depends { DependsOnFirst (length space.now) set.now }
    requires picks { HasPicksOf contexts.now space.now }
{
    let mut met = Vec::new(alloc);
    met.push(set.share()?)?;
    for place in 0..max {
        if place >= met.len() {
            return Ok(met.len());
        }
        let here = met[place].share()?;
        let Some(choice) = contexts.first(&here) else {
            return Ok(0);
        };
        for alternative in 0..space.arity(choice) {
            let child = contexts.child(&here, alternative)?;
            add_new(contexts, &mut met, child)?;
        }
    }
    Ok(max)
}

/// The number of nodes of the set of `n` choices of three alternatives without equal neighbours.
#[tactic(auto, using(crate::proofs::Growing::growing, crate::proofs::Depending::depending))]
fn nodes_of_neighbours(alloc: Global, n: u32) -> Result<usize, AllocError> {
    let space = threes(alloc, n)?;
    if space.len() == 0 {
        return Ok(0);
    }
    let mut contexts = Contexts::new(alloc);
    let set = no_equal_neighbours(&space, &mut contexts)?;
    nodes(alloc, &contexts, &space, &set, 1_000)
}

#[test]
fn ten_neighbours(rt: HostRuntime) -> Result<(), Fail> {
    assert_eq!(rt; nodes_of_neighbours(rt.alloc(), 10)?, 28);
    Ok(())
}

#[test]
fn twenty_neighbours(rt: HostRuntime) -> Result<(), Fail> {
    assert_eq!(rt; nodes_of_neighbours(rt.alloc(), 20)?, 58);
    Ok(())
}

#[test]
fn forty_neighbours(rt: HostRuntime) -> Result<(), Fail> {
    assert_eq!(rt; nodes_of_neighbours(rt.alloc(), 40)?, 118);
    Ok(())
}

#[test]
fn eighty_neighbours(rt: HostRuntime) -> Result<(), Fail> {
    assert_eq!(rt; nodes_of_neighbours(rt.alloc(), 80)?, 238);
    Ok(())
}
