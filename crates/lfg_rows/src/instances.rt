//! Literals and tree facts of lines in contexts, by whole grammar files.

ghost use Rattle.lfg_context.specs.Sets.{AreMade};

use crate::charts::charted;
use crate::files::{A, B, EN, O, P, U};
use lfg_choice::{ChoiceKind, ChoiceSpace};
use lfg_context::{Contexts, Ctx};
use lfg_instant::{Instances, InstantFault, instantiate};
use lfg_terms::Literal;
use std::alloc::Global;
use std::test::Fail;

fn kind_text(kind: ChoiceKind) -> &'static str {
    match kind {
        ChoiceKind::Next => "next",
        ChoiceKind::Entry => "entry",
        ChoiceKind::Branch => "branch",
        ChoiceKind::Optional => "optional",
    }
}

/// Each choice with its number of alternatives.
fn choices_text(alloc: Global, space: &ChoiceSpace) -> Result<String, Fail> {
    let mut text = String::new(alloc);
    for choice in 0..space.len() {
        let kind = kind_text(space.kind(choice));
        text = format!(in alloc; "{text}, {kind} of {}", space.arity(choice))?;
    }
    Ok(text)
}

/// How many literals hold at the assignment.
#[tactic(auto, using(lfg_context::proofs::Growing::growing))]
fn held(contexts: &Contexts, literals: &[(Literal, Ctx)], assignment: &[u32]) -> usize
    requires { AreMade contexts.now (λ x. x.1) literals.now }
{
    let mut count = 0usize;
    for literal in literals {
        if contexts.holds(&literal.1, assignment) {
            count = count.saturating_add(1);
        }
    }
    count
}

/// How many literals, tree facts and choices there are, and how many literals hold at the assignment.
fn counts_text(
    alloc: Global,
    space: &ChoiceSpace,
    contexts: &Contexts,
    it: &Instances,
    assignment: &[u32],
) -> Result<String, Fail>
    requires { AreMade contexts.now (λ x. x.1) it.now.literals.items }
{
    let literals = it.literals.len();
    let facts = it.tree.len();
    let here = held(contexts, &it.literals, assignment);
    let choices = space.len();
    Ok(format!(in alloc; "{literals} literals, {here} here, {facts} facts, {choices} choices")?)
}

/// The counts of the line, of which none may be more than `max`, or the fault.
fn counted(
    alloc: Global,
    file: &str,
    line: &str,
    max: u32,
    assignment: &[u32],
) -> Result<String, Fail> {
    let it = charted(alloc, file, line)?;
    let mut space = ChoiceSpace::new(alloc);
    let mut contexts = Contexts::new(alloc);
    let result = instantiate(
        alloc,
        &it.grammar,
        &it.tokens,
        &it.chart,
        &mut space,
        &mut contexts,
        max,
    );
    match result {
        Ok(instances) => counts_text(alloc, &space, &contexts, &instances, assignment),
        Err(fault) => Ok(format!(in alloc; "{fault}; {} choices", space.len())?),
    }
}

/// The choices of the line.
fn choices(alloc: Global, file: &str, line: &str) -> Result<String, Fail> {
    let it = charted(alloc, file, line)?;
    let mut space = ChoiceSpace::new(alloc);
    let mut contexts = Contexts::new(alloc);
    let instances = instantiate(
        alloc,
        &it.grammar,
        &it.tokens,
        &it.chart,
        &mut space,
        &mut contexts,
        1000,
    )?;
    drop(instances);
    choices_text(alloc, &space)
}

#[test]
fn literals_and_facts_are_counted_before_they_are_made(rt: HostRuntime) -> Result<(), Fail> {
    let alloc = rt.alloc();
    let line = "the man walks";
    let within = counted(alloc, P, line, 9, [].as_slice())?;
    assert_eq!(rt; within.as_str(), "9 literals, 9 here, 8 facts, 0 choices");
    let refused = counted(alloc, P, line, 8, [].as_slice())?;
    let fault = "9 literals, choices or facts of trees, or more; 0 choices";
    assert_eq!(rt; refused.as_str(), fault);
    let none = counted(alloc, P, "man the", 9, [].as_slice())?;
    assert_eq!(rt; none.as_str(), "0 literals, 0 here, 0 facts, 0 choices");
    Ok(())
}

#[test]
fn entries_branches_and_strings_are_chosen(rt: HostRuntime) -> Result<(), Fail> {
    for (file, line, wanted) in [
        (A, "sheep slept", ", entry of 2"),
        (B, "w", ", branch of 2, branch of 2"),
        (O, "w", ", branch of 2"),
        (U, "w", ", branch of 3"),
    ] {
        let seen = choices(rt.alloc(), file, line)?;
        assert_eq!(rt; seen.as_str(), wanted);
    }
    Ok(())
}

#[test]
fn the_literals_of_an_assignment_are_those_of_its_derivation(rt: HostRuntime) -> Result<(), Fail> {
    for (file, line, assignment, wanted) in [
        (
            A,
            "sheep slept",
            [0, 0],
            "9 literals, 7 here, 6 facts, 1 choices",
        ),
        (
            A,
            "sheep slept",
            [1, 0],
            "9 literals, 7 here, 6 facts, 1 choices",
        ),
        (B, "w", [0, 0], "5 literals, 3 here, 2 facts, 2 choices"),
        (B, "w", [0, 1], "5 literals, 3 here, 2 facts, 2 choices"),
        (B, "w", [1, 0], "5 literals, 2 here, 2 facts, 2 choices"),
        (O, "w", [1, 0], "4 literals, 3 here, 2 facts, 1 choices"),
        (U, "w", [2, 0], "4 literals, 2 here, 2 facts, 1 choices"),
    ] {
        let seen = counted(rt.alloc(), file, line, 9, assignment.as_slice())?;
        assert_eq!(rt; seen.as_str(), wanted);
    }
    Ok(())
}

/// The line `Mary sleeps` with so many times `in the park`.
fn phrases(alloc: Global, count: usize) -> Result<String, Fail> {
    let mut line = String::from_str(alloc, "Mary sleeps")?;
    for _phrase in 0..count {
        line.push_str(" in the park")?;
    }
    Ok(line)
}

#[test]
fn many_derivations_share_their_literals(rt: HostRuntime) -> Result<(), Fail> {
    let alloc = rt.alloc();
    for (count, wanted) in [
        (4, "97 literals, 52 here, 83 facts, 7 choices"),
        (16, "3832 literals, 172 here, 3794 facts, 575 choices"),
    ] {
        let line = phrases(alloc, count)?;
        let seen = counted(alloc, EN, line.as_str(), 10_000, [].as_slice())?;
        assert_eq!(rt; seen.as_str(), wanted);
    }
    Ok(())
}
