ghost use Rattle.std.specs.Prelude.{◌≡◌, ◌↔◌, ℕ, IfNone, IfOk, IfSome, IsTrue};
ghost use Rattle.lfg_model.specs.declared.constant.Constant.TheVariants.{Atom};
ghost use Rattle.lfg_model.specs.Lists.{In};
ghost use Rattle.lfg_solve.specs.Found.{LeadsBy, SomeOf};
ghost use Rattle.lfg_solve.specs.Walking.{AreMatching, AreReached, HasArcTo, IsAtomIn, IsAtomOf, IsSharedAtom, LeadsAlong, OneTarget, Unless};

use crate::classes::Arc;
use crate::conditions::leads_by;
use crate::same::same_name;
use crate::solution::{Solution, Value, push_some};
use lfg_model::Constant;
use lfg_terms::{Check, Literal, Name, Path, Target, Walk};
use std::alloc::{AllocError, Global};

/// Where an arc by the attribute leads from the class.
fn target(arcs: &[Arc], class: usize, attribute: &str) -> Option<usize>
    ensures found { IfSome result (HasArcTo arcs.now class attribute.now) }
    ensures none { IfNone result (¬ SomeOf (LeadsBy class attribute.now) arcs.now) }
{
    for arc in arcs {
        if leads_by(arc, class, attribute) {
            return Some(arc.to);
        }
    }
    None
}

/// The class to which the path leads from the class.
fn leads(arcs: &[Arc], from: usize, path: &[Name]) -> Option<usize>
    ensures found { IfSome result (LeadsAlong arcs.now from path.now) }
    ensures only { IfSome result (λ to. OneTarget arcs.now → (k : ℕ) → LeadsAlong arcs.now from path.now k → k ≡ to) }
    ensures none { IfNone result (OneTarget arcs.now → (k : ℕ) → ¬ LeadsAlong arcs.now from path.now k) }
{
    let mut class = from;
    for attribute in path {
        class = target(arcs, class, attribute.text())?;
    }
    Some(class)
}

/// The classes to which the paths lead from the class.
fn reached_from(
    alloc: Global,
    arcs: &[Arc],
    start: usize,
    paths: &[Path],
) -> Result<Vec<usize>, AllocError>
    ensures { IfOk result (λ classes. AreReached arcs.now start paths.now classes.items) }
{
    let mut classes = Vec::new(alloc);
    for path in paths {
        push_some(&mut classes, leads(arcs, start, path.list()))?;
    }
    Ok(classes)
}

/// Whether the constant is the atom.
fn is_atom(constant: &Constant, atom: &Name) -> bool
    ensures { IsTrue result ↔ (constant.now ≡ Atom atom.now) }
{
    match constant {
        Constant::Atom(known) => same_name(known, atom),
        Constant::Form { .. } => false,
    }
}

/// Whether the value is the atom, of the class.
fn is_atom_of(value: &Value, class: usize, atom: &Name) -> bool
    ensures { IsTrue result ↔ IsAtomOf class atom.now value.now }
{
    if value.class != class {
        return false;
    }
    is_atom(&value.constant, atom)
}

/// Whether the class has the atom as a value.
fn has_atom(values: &[Value], class: usize, atom: &Name) -> bool
    ensures { IsTrue result ↔ SomeOf (IsAtomOf class atom.now) values.now }
{
    for value in values {
        if is_atom_of(value, class, atom) {
            return true;
        }
    }
    false
}

/// Whether the constant is an atom that the class has as a value.
fn is_atom_in(constant: &Constant, values: &[Value], class: usize) -> bool
    ensures { IsTrue result ↔ IsAtomIn values.now class constant.now }
{
    match constant {
        Constant::Atom(atom) => has_atom(values, class, atom),
        Constant::Form { .. } => false,
    }
}

/// Whether the value is of the one class and an atom that the other one has as well.
fn is_shared_atom(value: &Value, values: &[Value], one: usize, other: usize) -> bool
    ensures { IsTrue result ↔ IsSharedAtom values.now one other value.now }
{
    if value.class != one {
        return false;
    }
    is_atom_in(&value.constant, values, other)
}

/// Whether the two classes have one atom.
fn share_atom(values: &[Value], one: usize, other: usize) -> bool
    ensures { IsTrue result ↔ SomeOf (IsSharedAtom values.now one other) values.now }
{
    for value in values {
        if is_shared_atom(value, values, one, other) {
            return true;
        }
    }
    false
}

/// Whether the two are one class, or classes with one atom.
fn are_matching(values: &[Value], one: usize, other: usize) -> bool
    ensures { IsTrue result ↔ AreMatching values.now one other }
{
    if one == other {
        return true;
    }
    share_atom(values, one, other)
}

/// Whether the class matches one of the classes.
fn matches_any(values: &[Value], class: usize, others: &[usize]) -> bool
    ensures { IsTrue result ↔ SomeOf (AreMatching values.now class) others.now }
{
    for other in others {
        if are_matching(values, class, *other) {
            return true;
        }
    }
    false
}

/// Whether one of the classes matches one of the others.
fn any_matches(values: &[Value], classes: &[usize], others: &[usize]) -> bool
    ensures { IsTrue result ↔ SomeOf (λ class. SomeOf (AreMatching values.now class) others.now) classes.now }
{
    for class in classes {
        if matches_any(values, *class, others) {
            return true;
        }
    }
    false
}

/// Whether one of the classes has the atom as a value.
fn any_has_atom(values: &[Value], classes: &[usize], atom: &Name) -> bool
    ensures { IsTrue result ↔ SomeOf (λ class. SomeOf (IsAtomOf class atom.now) values.now) classes.now }
{
    for class in classes {
        if has_atom(values, *class, atom) {
            return true;
        }
    }
    false
}

/// Whether a constraint holds, by whether it is negated and whether the plain one holds.
fn unless(negated: bool, holds: bool) -> bool
    ensures { IsTrue result ↔ Unless negated (IsTrue holds) }
{
    if negated { !holds } else { holds }
}

impl Solution {
    ghost use Rattle.std.specs.Prelude.{◌≡◌, ◌↔◌, ℕ, IfOk, IsTrue, List};
    ghost use Rattle.lfg_terms.specs.declared.literal.Literal.{Literal};
    ghost use Rattle.lfg_terms.specs.declared.literal.Check.{Check};
    ghost use Rattle.lfg_terms.specs.declared.literal.Target.TheVariants as target;
    ghost use Rattle.lfg_model.specs.Lists.{In};
    ghost use Rattle.lfg_model.specs.Literals.{checks_of};
    ghost use Rattle.lfg_model.specs.Solve.{Agrees, Holds, LeadsSomewhere, solution};
    ghost use Rattle.lfg_solve.specs.Solves.{Solves};
    ghost use Rattle.lfg_solve.specs.Walking.{AreReachedBy};

    /// The classes to which the strings of the walk lead.
    fn reached(&self, alloc: Global, walk: &Walk) -> Result<Vec<usize>, AllocError>
        ensures { (ls : List Literal) → Solves ls self.now → IfOk result (λ classes. AreReachedBy ls self.now walk.now classes.items) }
    {
        let Some(start) = self.class_of(&walk.start) else {
            return Ok(Vec::new(alloc));
        };
        reached_from(alloc, &self.arcs, start, walk.paths.list())
    }

    /// Whether strings of the two walks lead to one class, or to classes with one atom.
    fn agree(&self, alloc: Global, left: &Walk, right: &Walk) -> Result<bool, AllocError>
        ensures { (ls : List Literal) → Solves ls self.now → IfOk result (λ agree. IsTrue agree ↔ Agrees (solution ls) left.now (target.Walk right.now)) }
    {
        let classes = self.reached(alloc, left)?;
        let others = self.reached(alloc, right)?;
        Ok(any_matches(&self.values, &classes, &others))
    }

    /// Whether some string of the walk leads to a class with the atom.
    fn reaches_atom(&self, alloc: Global, walk: &Walk, atom: &Name) -> Result<bool, AllocError>
        ensures { (ls : List Literal) → Solves ls self.now → IfOk result (λ reaches. IsTrue reaches ↔ Agrees (solution ls) walk.now (target.Atom atom.now)) }
    {
        let classes = self.reached(alloc, walk)?;
        Ok(any_has_atom(&self.values, &classes, atom))
    }

    /// Whether the walk leads to the atom, or to where the other walk leads.
    fn agrees(&self, alloc: Global, walk: &Walk, target: &Target) -> Result<bool, AllocError>
        ensures { (ls : List Literal) → Solves ls self.now → IfOk result (λ agrees. IsTrue agrees ↔ Agrees (solution ls) walk.now target.now) }
    {
        match target {
            Target::Atom(atom) => self.reaches_atom(alloc, walk, atom),
            Target::Walk(other) => self.agree(alloc, walk, other),
        }
    }

    /// Whether some string of the walk leads to a class.
    fn leads_somewhere(&self, alloc: Global, walk: &Walk) -> Result<bool, AllocError>
        ensures { (ls : List Literal) → Solves ls self.now → IfOk result (λ leads. IsTrue leads ↔ LeadsSomewhere (solution ls) walk.now) }
    {
        let classes = self.reached(alloc, walk)?;
        Ok(!classes.is_empty())
    }

    /// Whether the check holds. A negated check holds exactly where the plain one does not.
    ///
    /// # Errors
    ///
    /// Only for want of memory.
    pub fn satisfies(&self, alloc: Global, check: &Check) -> Result<bool, AllocError>
        ensures { (ls : List Literal) → Solves ls self.now → IfOk result (λ holds. IsTrue holds ↔ Holds (solution ls) check.now) }
    {
        match check {
            Check::Exists { negated, left } => {
                let leads = self.leads_somewhere(alloc, left)?;
                Ok(unless(*negated, leads))
            }
            Check::Same {
                negated,
                left,
                right,
            } => {
                let agrees = self.agrees(alloc, left, right)?;
                Ok(unless(*negated, agrees))
            }
        }
    }

    /// Whether the literal is no check or one that holds.
    ///
    /// # Errors
    ///
    /// Only for want of memory.
    pub(crate) fn meets(&self, alloc: Global, literal: &Literal) -> Result<bool, AllocError>
        ensures { (ls : List Literal) → Solves ls self.now
            → IfOk result (λ meets. IsTrue meets ↔ ((c : Check) → In c (checks_of literal.now) → Holds (solution ls) c)) }
    {
        match literal {
            Literal::Check(check) => self.satisfies(alloc, check),
            _ => Ok(true),
        }
    }
}
