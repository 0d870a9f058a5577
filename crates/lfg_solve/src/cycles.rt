ghost use Rattle.std.specs.Prelude.{◌≡◌, ◌⊎◌, ◌↔◌, ℕ, ◌<◌, ◌≤◌, IfOk, IsTrue, List, false, length};
ghost use Rattle.lfg_solve.specs.declared.classes.Arc.{Arc};
ghost use Rattle.lfg_solve.specs.declared.solution.Membership.{Membership};
ghost use Rattle.lfg_solve.specs.Descents.{AreUnder, AreWithin, Descends, IsMarked, IsUnder, Marks, Passes, PassesArcs, PassesMembers};
ghost use Rattle.lfg_solve.specs.Marks.{unmarked};

use crate::classes::Arc;
use crate::solution::{Membership, Solution};
use std::alloc::{AllocError, Global};

/// Marks the place. Tells whether it was not marked before.
#[tactic(auto, using(crate::proofs::MarkLaws::marking))]
fn mark(marks: &mut [bool], place: usize) -> bool
    requires { place < length marks.old }
    ensures length { length marks.new ≡ length marks.old }
    ensures less { unmarked marks.new ≤ unmarked marks.old }
    ensures fewer { IsTrue result → unmarked marks.new < unmarked marks.old }
    ensures marks { Marks marks.old place marks.new }
    ensures unchanged { result ≡ false → marks.new ≡ marks.old }
{
    if marks[place] {
        return false;
    }
    marks[place] = true;
    true
}

/// Whether the place is marked; places beyond the marks are not.
fn is_marked(marks: &[bool], place: usize) -> bool
    ensures { IsTrue result ↔ IsMarked marks.now place }
{
    match marks.get(place) {
        Some(marked) => *marked,
        None => false,
    }
}

/// Whether the place is the class or is marked.
fn is_reached(marks: &[bool], class: usize, place: usize) -> bool
    ensures { IsTrue result ↔ ((place ≡ class) ⊎ IsMarked marks.now place) }
{
    if place == class {
        return true;
    }
    is_marked(marks, place)
}

/// Marks the end of a step that begins at the class or at a marked one. Tells whether it was not
/// marked before.
fn step(marks: &mut [bool], class: usize, from: usize, to: usize) -> bool
    ensures length { length marks.new ≡ length marks.old }
    ensures less { unmarked marks.new ≤ unmarked marks.old }
    ensures fewer { IsTrue result → unmarked marks.new < unmarked marks.old }
    ensures unchanged { result ≡ false → marks.new ≡ marks.old }
    ensures passes { result ≡ false → Passes class marks.old from to }
    ensures under { (arcs : List Arc) (members : List Membership) → Descends arcs members from to
        → AreUnder arcs members class marks.old → AreUnder arcs members class marks.new }
{
    if !is_reached(marks, class, from) {
        return false;
    }
    if to >= marks.len() {
        return false;
    }
    mark(marks, to)
}

/// Marks the ends of the arcs that leave the class or a marked one. Tells whether any was not
/// marked before.
fn follow_arcs(arcs: &[Arc], class: usize, marks: &mut [bool]) -> bool
    ensures length { length marks.new ≡ length marks.old }
    ensures less { unmarked marks.new ≤ unmarked marks.old }
    ensures fewer { IsTrue result → unmarked marks.new < unmarked marks.old }
    ensures unchanged { result ≡ false → marks.new ≡ marks.old }
    ensures passes { result ≡ false → PassesArcs class marks.old arcs.now }
    ensures under { (members : List Membership) → AreUnder arcs.now members class marks.old
        → AreUnder arcs.now members class marks.new }
{
    let mut stepped = false;
    for arc in arcs {
        stepped |= step(marks, class, arc.from, arc.to);
    }
    stepped
}

/// Marks the members of the class and of marked ones. Tells whether any was not marked before.
fn enter_sets(members: &[Membership], class: usize, marks: &mut [bool]) -> bool
    ensures length { length marks.new ≡ length marks.old }
    ensures less { unmarked marks.new ≤ unmarked marks.old }
    ensures fewer { IsTrue result → unmarked marks.new < unmarked marks.old }
    ensures unchanged { result ≡ false → marks.new ≡ marks.old }
    ensures passes { result ≡ false → PassesMembers class marks.old members.now }
    ensures under { (arcs : List Arc) → AreUnder arcs members.now class marks.old
        → AreUnder arcs members.now class marks.new }
{
    let mut stepped = false;
    for member in members {
        stepped |= step(marks, class, member.set, member.item);
    }
    stepped
}

/// Marks the classes one step below the class and below the marked ones. Tells whether any was
/// not marked before.
fn step_down(arcs: &[Arc], members: &[Membership], class: usize, marks: &mut [bool]) -> bool
    ensures length { length marks.new ≡ length marks.old }
    ensures less { unmarked marks.new ≤ unmarked marks.old }
    ensures fewer { IsTrue result → unmarked marks.new < unmarked marks.old }
    ensures unchanged { result ≡ false → marks.new ≡ marks.old }
    ensures along { result ≡ false → PassesArcs class marks.old arcs.now }
    ensures entered { result ≡ false → PassesMembers class marks.old members.now }
    ensures under { AreUnder arcs.now members.now class marks.old → AreUnder arcs.now members.now class marks.new }
{
    let along = follow_arcs(arcs, class, marks);
    let entered = enter_sets(members, class, marks);
    along || entered
}

/// Whether the class reaches itself by one or more steps down, between classes below the count.
fn reaches_itself(
    alloc: Global,
    count: usize,
    arcs: &[Arc],
    members: &[Membership],
    class: usize,
) -> Result<bool, AllocError>
    ensures { AreWithin count arcs.now members.now
        → IfOk result (λ found. IsTrue found ↔ IsUnder arcs.now members.now class class) }
{
    let mut marks = vec![in alloc; false; count]?;
    while step_down(arcs, members, class, &mut marks) {}
    Ok(is_marked(&marks, class))
}

/// Whether some class below the count reaches itself by one or more steps down.
fn some_reaches_itself(
    alloc: Global,
    count: usize,
    arcs: &[Arc],
    members: &[Membership],
) -> Result<bool, AllocError>
    ensures { AreWithin count arcs.now members.now
        → IfOk result (λ found. IsTrue found ↔ ((class : ℕ) × IsUnder arcs.now members.now class class)) }
{
    for class in 0..count {
        if reaches_itself(alloc, count, arcs, members, class)? {
            return Ok(true);
        }
    }
    Ok(false)
}

impl Solution {
    ghost use Rattle.std.specs.Prelude.{◌≡◌, ◌↔◌, IfOk, IsTrue, List};
    ghost use Rattle.lfg_terms.specs.declared.literal.Literal.{Literal};
    ghost use Rattle.lfg_terms.specs.declared.node.Node.{Node};
    ghost use Rattle.lfg_model.specs.Solve.{Below, solution};
    ghost use Rattle.lfg_solve.specs.Solves.{Solves};

    /// Whether some class reaches itself by one or more steps down, a step being an arc or going
    /// from a set to a member (this project's own).
    ///
    /// # Errors
    ///
    /// Only for want of memory.
    pub fn has_cycle(&self, alloc: Global) -> Result<bool, AllocError>
        ensures { (ls : List Literal) → Solves ls self.now
            → IfOk result (λ found. IsTrue found ↔ ((x : Node) × Below (solution ls) x x)) }
    {
        some_reaches_itself(alloc, self.nodes.len(), &self.arcs, &self.members)
    }
}
