ghost use Rattle.std.specs.Prelude.{◌≡◌, ◌∷◌, [], ◌↔◌, IfOk, IfSome, IfNone, IsTrue, true};
ghost use Rattle.lfg_model.specs.declared.constant.Constant.TheVariants as constant;
ghost use Rattle.lfg_model.specs.Terms.{Name};
ghost use Rattle.lfg_model.specs.Literals.{checks_of};
ghost use Rattle.lfg_model.specs.Solve.{Agrees, LeadsSomewhere};
ghost use Rattle.lfg_context.specs.Sets.{Assignment, member, IsMade, AreMade, IsGrown, HasSamePicks};
ghost use Rattle.lfg_context.specs.Telling.{Tells, Excludes, InSome};
ghost use Rattle.lfg_unify.specs.Closures.{place_in, closure_at, IsClosureOf};
ghost use Rattle.lfg_constrain.specs.Spots.{IsClosure};
ghost use Rattle.lfg_constrain.specs.Checks.{AreSatisfied, IsValued, IsShared, IsCommon, Agreement, IsOn, fails_at, Passes, PassesAll};

use crate::spots::{Spot, touched};
use crate::walks::reached;
use lfg_context::{Contexts, Ctx};
use lfg_model::Constant;
use lfg_terms::{Check, Literal, Name, Node, Target, Walk};
use lfg_unify::Closure;
use std::alloc::{AllocError, Global};

/// Where the value is the atom, and some spot is at its node.
#[tactic(auto, using(crate::proofs::Classes::closed))]
fn valued_by(
    closure: &Closure,
    spots: &[Spot],
    atom: &Name,
    value: &(Node, Constant, Ctx),
    place: usize,
    contexts: &mut Contexts,
) -> Result<Ctx, AllocError>
    requires closure { IsClosure contexts.old closure.now }
    requires spots { AreMade contexts.old (λ s. s.1) spots.now }
    requires value { IsMade contexts.old value.now.2 }
    requires place { place ≡ place_in closure.now.nodes value.now.0 }
    ensures grown { IsGrown contexts.old contexts.new }
    ensures picks { HasSamePicks contexts.old contexts.new }
    ensures made { IfOk result (λ z. IsMade contexts.new z) }
    ensures tells { IfOk result (λ z. Tells z (IsValued closure.now spots.now atom.now value.now)) }
{
    if !is_atom(&value.1, atom) {
        return Ok(contexts.no());
    }
    let one = touched(closure, spots, place, &value.2, contexts)?;
    Ok(one)
}

/// Where some spot is at a node with the atom.
#[tactic(auto, using(crate::proofs::Classes::closed))]
fn valued(
    closure: &Closure,
    spots: &[Spot],
    atom: &Name,
    contexts: &mut Contexts,
) -> Result<Ctx, AllocError>
    requires closure { IsClosure contexts.old closure.now }
    requires spots { AreMade contexts.old (λ s. s.1) spots.now }
    ensures grown { IsGrown contexts.old contexts.new }
    ensures picks { HasSamePicks contexts.old contexts.new }
    ensures made { IfOk result (λ z. IsMade contexts.new z) }
    ensures tells { IfOk result (λ z. Tells z (InSome closure.now.values (IsValued closure.now spots.now atom.now))) }
{
    let mut found = contexts.no();
    let values = closure.values();
    let places = closure.value_places();
    for number in 0..values.len() {
        let value = &values[number];
        let one = valued_by(closure, spots, atom, value, places[number], contexts)?;
        found = contexts.or(&found, &one)?;
    }
    Ok(found)
}

/// Where a spot on the left and one on the right are at one node.
#[tactic(auto, using(crate::proofs::Classes::closed))]
fn shared(
    closure: &Closure,
    left: &[Spot],
    right: &[Spot],
    contexts: &mut Contexts,
) -> Result<Ctx, AllocError>
    requires closure { IsClosure contexts.old closure.now }
    requires left { AreMade contexts.old (λ s. s.1) left.now }
    requires right { AreMade contexts.old (λ s. s.1) right.now }
    ensures grown { IsGrown contexts.old contexts.new }
    ensures picks { HasSamePicks contexts.old contexts.new }
    ensures made { IfOk result (λ z. IsMade contexts.new z) }
    ensures tells { IfOk result (λ z. Tells z (InSome right.now (IsShared closure.now left.now))) }
{
    let mut found = contexts.no();
    for spot in right {
        let one = touched(closure, left, spot.0, &spot.1, contexts)?;
        found = contexts.or(&found, &one)?;
    }
    Ok(found)
}

/// Whether the value is the atom.
fn is_atom(value: &Constant, atom: &Name) -> bool
    ensures { IsTrue result ↔ (value.now ≡ constant.Atom atom.now) }
{
    match value {
        Constant::Atom(name) => name == atom,
        Constant::Form { .. } => false,
    }
}

/// The atom that the value is, if it is one.
fn atom_of(value: &Constant) -> Option<&Name>
    ensures some { IfSome result (λ name. value.now ≡ constant.Atom name.now) }
    ensures none { IfNone result ((name : Name) → value.now ≡ constant.Atom name → ⊥) }
{
    match value {
        Constant::Atom(name) => Some(name),
        Constant::Form { .. } => None,
    }
}

/// Where the value is an atom that some spot on the left has, and some spot on the right too.
#[tactic(auto, using(crate::proofs::Classes::closed))]
fn common_at(
    closure: &Closure,
    left: &[Spot],
    right: &[Spot],
    value: &(Node, Constant, Ctx),
    place: usize,
    contexts: &mut Contexts,
) -> Result<Ctx, AllocError>
    requires closure { IsClosure contexts.old closure.now }
    requires left { AreMade contexts.old (λ s. s.1) left.now }
    requires right { AreMade contexts.old (λ s. s.1) right.now }
    requires value { IsMade contexts.old value.now.2 }
    requires place { place ≡ place_in closure.now.nodes value.now.0 }
    ensures grown { IsGrown contexts.old contexts.new }
    ensures picks { HasSamePicks contexts.old contexts.new }
    ensures made { IfOk result (λ z. IsMade contexts.new z) }
    ensures tells { IfOk result (λ z. Tells z (IsCommon closure.now left.now right.now value.now)) }
{
    let Some(atom) = atom_of(&value.1) else {
        return Ok(contexts.no());
    };
    let here = touched(closure, left, place, &value.2, contexts)?;
    if contexts.is_empty(&here) {
        return Ok(here);
    }
    let there = valued(closure, right, atom, contexts)?;
    let all = contexts.and(&here, &there)?;
    Ok(all)
}

/// Where some spot on the left and some spot on the right have one atom.
#[tactic(auto, using(crate::proofs::Classes::closed))]
fn common(
    closure: &Closure,
    left: &[Spot],
    right: &[Spot],
    contexts: &mut Contexts,
) -> Result<Ctx, AllocError>
    requires closure { IsClosure contexts.old closure.now }
    requires left { AreMade contexts.old (λ s. s.1) left.now }
    requires right { AreMade contexts.old (λ s. s.1) right.now }
    ensures grown { IsGrown contexts.old contexts.new }
    ensures picks { HasSamePicks contexts.old contexts.new }
    ensures made { IfOk result (λ z. IsMade contexts.new z) }
    ensures tells { IfOk result (λ z. Tells z (InSome closure.now.values (IsCommon closure.now left.now right.now))) }
{
    let mut found = contexts.no();
    let values = closure.values();
    let places = closure.value_places();
    for number in 0..values.len() {
        let value = &values[number];
        let one = common_at(closure, left, right, value, places[number], contexts)?;
        found = contexts.or(&found, &one)?;
    }
    Ok(found)
}

/// Where the spots on the left and those on the right are at one node, or at two with one atom.
#[tactic(auto, using(crate::proofs::Classes::closed))]
fn meeting(
    closure: &Closure,
    left: &[Spot],
    right: &[Spot],
    contexts: &mut Contexts,
) -> Result<Ctx, AllocError>
    requires closure { IsClosure contexts.old closure.now }
    requires left { AreMade contexts.old (λ s. s.1) left.now }
    requires right { AreMade contexts.old (λ s. s.1) right.now }
    ensures grown { IsGrown contexts.old contexts.new }
    ensures picks { HasSamePicks contexts.old contexts.new }
    ensures made { IfOk result (λ z. IsMade contexts.new z) }
    ensures tells { IfOk result (λ z. Tells z (Agreement closure.now left.now right.now)) }
{
    let nodes = shared(closure, left, right, contexts)?;
    let atoms = common(closure, left, right, contexts)?;
    let all = contexts.or(&nodes, &atoms)?;
    Ok(all)
}

/// Where some spot is.
#[tactic(auto, using(crate::proofs::Classes::closed))]
fn anywhere(spots: &[Spot], contexts: &mut Contexts) -> Result<Ctx, AllocError>
    requires spots { AreMade contexts.old (λ s. s.1) spots.now }
    ensures grown { IsGrown contexts.old contexts.new }
    ensures picks { HasSamePicks contexts.old contexts.new }
    ensures made { IfOk result (λ z. IsMade contexts.new z) }
    ensures tells { IfOk result (λ z. Tells z (InSome spots.now IsOn)) }
{
    let mut found = contexts.no();
    for spot in spots {
        found = contexts.or(&found, &spot.1)?;
    }
    Ok(found)
}

/// Where the set holds, and the walk leads to the target.
#[tactic(auto, using(crate::proofs::Classes::closed))]
fn agreeing(
    alloc: Global,
    closure: &Closure,
    left: &Walk,
    right: &Target,
    set: &Ctx,
    contexts: &mut Contexts,
) -> Result<Ctx, AllocError>
    requires closure { IsClosure contexts.old closure.now }
    requires set { IsMade contexts.old set.now }
    ensures grown { IsGrown contexts.old contexts.new }
    ensures picks { HasSamePicks contexts.old contexts.new }
    ensures made { IfOk result (λ z. IsMade contexts.new z) }
    ensures tells { IfOk result (λ z. Tells z (λ a. (member set.now a ≡ true) × Agrees (closure_at closure.now a) left.now right.now)) }
{
    let spots = reached(alloc, closure, left, set, contexts)?;
    match right {
        Target::Atom(atom) => {
            let found = valued(closure, &spots, atom, contexts)?;
            Ok(found)
        }
        Target::Walk(other) => {
            let others = reached(alloc, closure, other, set, contexts)?;
            let found = meeting(closure, &spots, &others, contexts)?;
            Ok(found)
        }
    }
}

/// Where the set holds, and the walk leads somewhere.
#[tactic(auto, using(crate::proofs::Classes::closed))]
fn leading(
    alloc: Global,
    closure: &Closure,
    way: &Walk,
    set: &Ctx,
    contexts: &mut Contexts,
) -> Result<Ctx, AllocError>
    requires closure { IsClosure contexts.old closure.now }
    requires set { IsMade contexts.old set.now }
    ensures grown { IsGrown contexts.old contexts.new }
    ensures picks { HasSamePicks contexts.old contexts.new }
    ensures made { IfOk result (λ z. IsMade contexts.new z) }
    ensures tells { IfOk result (λ z. Tells z (λ a. (member set.now a ≡ true) × LeadsSomewhere (closure_at closure.now a) way.now)) }
{
    let spots = reached(alloc, closure, way, set, contexts)?;
    let found = anywhere(&spots, contexts)?;
    Ok(found)
}

/// Where a constraint that is there in the set fails, by where the plain one holds within the set.
#[tactic(auto, using(crate::proofs::Classes::closed))]
fn failed(negated: bool, set: &Ctx, plain: Ctx, contexts: &mut Contexts) -> Result<Ctx, AllocError>
    requires set { IsMade contexts.old set.now }
    requires plain { IsMade contexts.old plain }
    ensures grown { IsGrown contexts.old contexts.new }
    ensures picks { HasSamePicks contexts.old contexts.new }
    ensures made { IfOk result (λ z. IsMade contexts.new z) }
    ensures fails { IfOk result (λ z. (a : Assignment) → member z a ≡ fails_at negated (member set.now a) (member plain a)) }
{
    if negated {
        return Ok(plain);
    }
    let left = contexts.without(set, &plain)?;
    Ok(left)
}

/// Where the constraint fails within the set.
#[tactic(auto, using(crate::proofs::Classes::closed))]
fn failing_one(
    alloc: Global,
    closure: &Closure,
    check: &Check,
    set: &Ctx,
    contexts: &mut Contexts,
) -> Result<Ctx, AllocError>
    requires closure { IsClosure contexts.old closure.now }
    requires set { IsMade contexts.old set.now }
    ensures grown { IsGrown contexts.old contexts.new }
    ensures picks { HasSamePicks contexts.old contexts.new }
    ensures made { IfOk result (λ z. IsMade contexts.new z) }
    ensures tells { IfOk result (λ z. Excludes z (Passes closure.now check.now set.now)) }
{
    match check {
        Check::Same {
            negated,
            left,
            right,
        } => {
            let plain = agreeing(alloc, closure, left, right, set, contexts)?;
            let fails = failed(*negated, set, plain, contexts)?;
            Ok(fails)
        }
        Check::Exists { negated, left } => {
            let plain = leading(alloc, closure, left, set, contexts)?;
            let fails = failed(*negated, set, plain, contexts)?;
            Ok(fails)
        }
    }
}

/// The constraint that the literal is, if it is one.
fn check_of(literal: &Literal) -> Option<&Check>
    ensures some { IfSome result (λ c. checks_of literal.now ≡ c.now ∷ []) }
    ensures none { IfNone result (checks_of literal.now ≡ []) }
{
    match literal {
        Literal::Check(check) => Some(check),
        Literal::Equal { .. } => None,
        Literal::Value { .. } => None,
        Literal::Form { .. } => None,
        Literal::Member { .. } => None,
        Literal::Mark(_) => None,
    }
}

/// Where the literal holds and is a constraint that fails.
#[tactic(auto, using(crate::proofs::Classes::closed))]
fn failing_literal(
    alloc: Global,
    closure: &Closure,
    literal: &(Literal, Ctx),
    contexts: &mut Contexts,
) -> Result<Ctx, AllocError>
    requires closure { IsClosure contexts.old closure.now }
    requires literal { IsMade contexts.old literal.now.1 }
    ensures grown { IsGrown contexts.old contexts.new }
    ensures picks { HasSamePicks contexts.old contexts.new }
    ensures made { IfOk result (λ z. IsMade contexts.new z) }
    ensures tells { IfOk result (λ z. Excludes z (PassesAll closure.now literal.now)) }
{
    let Some(check) = check_of(&literal.0) else {
        return Ok(contexts.no());
    };
    let one = failing_one(alloc, closure, check, &literal.1, contexts)?;
    Ok(one)
}

/// The assignments at which some constraint that holds there is false.
///
/// The closure is that of these literals. A constraint speaks of the solution of the literals that
/// hold at an assignment, and adds nothing to it. A negated one is false exactly where it holds and
/// the plain one is true.
///
/// # Errors
///
/// Only for want of memory. Each earlier set is then as before, and so are the picks.
#[tactic(auto, using(crate::proofs::Classes::closed))]
pub fn failing(
    alloc: Global,
    closure: &Closure,
    literals: &[(Literal, Ctx)],
    contexts: &mut Contexts,
) -> Result<Ctx, AllocError>
    requires closure { IsClosureOf contexts.old literals.now closure.now }
    requires made { AreMade contexts.old (λ l. l.1) literals.now }
    ensures made { IfOk result (λ z. IsMade contexts.new z) }
    ensures fails { IfOk result (λ z. Excludes z (AreSatisfied literals.now)) }
    ensures grown { IsGrown contexts.old contexts.new }
    ensures picks { HasSamePicks contexts.old contexts.new }
{
    let mut found = contexts.no();
    for literal in literals {
        let one = failing_literal(alloc, closure, literal, contexts)?;
        found = contexts.or(&found, &one)?;
    }
    Ok(found)
}
