ghost use Rattle.std.specs.Prelude.{◌≡◌, ℕ, ◌<◌, ◌≤◌, List, length, IfOk, OnOk, IsTrue, All};
ghost use Rattle.std.specs.Prelude.{map, slice_get, Some, false};
ghost use Rattle.lfg_model.specs.Lists.{In};
ghost use Rattle.lfg_solve.specs.Divides.{Divides, Grows, HoldsGiven, IsDivision, Joins, Meets, MeetsAll, OneClass};
ghost use Rattle.lfg_solve.specs.Links.{IsWithin, ArcsWithin, GivenWithin, relabelled, total};

use lfg_terms::Name;
use std::alloc::{AllocError, Global};
use std::marker::Model;

/// An arc of an f-structure, between nodes that are told by their places in a table.
#[derive(Drop)]
pub(crate) struct Arc {
    pub from: usize,
    pub attribute: Name,
    pub to: usize,
}

/// A division of the numbers below some number into classes, each named by its least member.
#[derive(Drop)]
pub(crate) struct Classes {
    // The name of each number's class.
    labels: Vec<usize>,
}

impl Model for Classes {
    ghost use Rattle.std.specs.Prelude.{List, ℕ};

    ghost Value = { List ℕ };

    ghost view = { λ c. c.labels.items };
}

impl Classes {
    /// Each number below `count` in a class of its own.
    pub fn new(alloc: Global, count: usize) -> Result<Classes, AllocError>
        ensures length { IfOk result (λ classes. length classes ≡ count) }
        ensures alone { IfOk result (λ classes. (given : List (ℕ × ℕ)) (arcs : List Arc) → IsDivision count given arcs classes) }
    {
        let mut labels = Vec::new(alloc);
        for number in 0..count {
            labels.push(number)?;
        }
        Ok(Classes { labels })
    }

    /// How many numbers are divided.
    pub fn count(&self) -> usize
        ensures { result ≡ length self.now }
    {
        self.labels.len()
    }

    /// The least member of the number's class.
    pub fn of(&self, number: usize) -> usize
        requires { number < length self.now }
        ensures { slice_get self.now number ≡ Some result }
    {
        self.labels[number]
    }

    /// Joins the classes of two numbers. Tells whether they were two.
    #[tactic(auto, using(crate::proofs::Relabelling::relabelling))]
    pub fn join(&mut self, a: usize, b: usize) -> bool
        requires a { a < length self.old }
        requires b { b < length self.old }
        ensures length { length self.new ≡ length self.old }
        ensures joins { Joins self.old a b self.new }
        ensures fewer { IsTrue result → total self.new < total self.old }
        ensures less { total self.new ≤ total self.old }
        ensures unchanged { result ≡ false → self.new ≡ self.old }
    {
        let a = self.of(a);
        let b = self.of(b);
        if a == b {
            return false;
        }
        if b < a {
            self.relabel(a, b);
        } else {
            self.relabel(b, a);
        }
        true
    }

    /// Gives all members of the class `high` to the class `low`.
    #[tactic(auto, using(std::proofs::lemmas::List::Edits::map_over_more))]
    fn relabel(&mut self, high: usize, low: usize)
        ensures { self.new ≡ map (relabelled high low) self.old }
    {
        for i in 0..self.labels.len() {
            self.labels[i] = relabelled(self.labels[i], high, low);
        }
    }
}

/// The name of a number's class after the class `high` has become a part of the class `low`.
fn relabelled(label: usize, high: usize, low: usize) -> usize
    ensures { result ≡ relabelled high low label }
{
    if label == high { low } else { label }
}

/// Joins the targets of the two arcs, if they leave one class by one attribute. Tells whether two
/// classes were joined.
fn join_ends(classes: &mut Classes, arc: &Arc, other: &Arc) -> bool
    requires arc { IsWithin (length classes.old) arc.now.from arc.now.to }
    requires other { IsWithin (length classes.old) other.now.from other.now.to }
    ensures length { length classes.new ≡ length classes.old }
    ensures less { total classes.new ≤ total classes.old }
    ensures fewer { IsTrue result → total classes.new < total classes.old }
    ensures grown { Grows classes.old classes.new }
    ensures forced { (count : ℕ) (given : List (ℕ × ℕ)) (arcs : List Arc) → In arc.now arcs → In other.now arcs
        → IsDivision count given arcs classes.old → IsDivision count given arcs classes.new }
    ensures unchanged { result ≡ false → classes.new ≡ classes.old }
    ensures met { result ≡ false → OneClass classes.old arc.now.from other.now.from
        → arc.now.attribute ≡ other.now.attribute → OneClass classes.old arc.now.to other.now.to }
{
    if classes.of(arc.from) != classes.of(other.from) {
        return false;
    }
    if arc.attribute == other.attribute {
        classes.join(arc.to, other.to)
    } else {
        false
    }
}

/// Joins the target of the arc with the targets of the arcs by its attribute that leave its class.
/// Tells whether any two classes were joined.
fn join_target(classes: &mut Classes, arcs: &[Arc], arc: &Arc) -> bool
    requires arcs { ArcsWithin (length classes.old) arcs.now }
    requires arc { IsWithin (length classes.old) arc.now.from arc.now.to }
    requires listed { In arc.now arcs.now }
    ensures length { length classes.new ≡ length classes.old }
    ensures less { total classes.new ≤ total classes.old }
    ensures fewer { IsTrue result → total classes.new < total classes.old }
    ensures grown { Grows classes.old classes.new }
    ensures forced { (count : ℕ) (given : List (ℕ × ℕ)) → IsDivision count given arcs.now classes.old
        → IsDivision count given arcs.now classes.new }
    ensures unchanged { result ≡ false → classes.new ≡ classes.old }
    ensures met { result ≡ false → Meets classes.old arc.now arcs.now }
{
    let mut joined = false;
    for other in arcs {
        joined |= join_ends(classes, arc, other);
    }
    joined
}

/// Joins the targets of arcs by one attribute that leave one class. Tells whether any two classes
/// were joined.
fn join_targets(classes: &mut Classes, arcs: &[Arc]) -> bool
    requires { ArcsWithin (length classes.old) arcs.now }
    ensures length { length classes.new ≡ length classes.old }
    ensures less { total classes.new ≤ total classes.old }
    ensures fewer { IsTrue result → total classes.new < total classes.old }
    ensures grown { Grows classes.old classes.new }
    ensures forced { (count : ℕ) (given : List (ℕ × ℕ)) → IsDivision count given arcs.now classes.old
        → IsDivision count given arcs.now classes.new }
    ensures unchanged { result ≡ false → classes.new ≡ classes.old }
    ensures met { result ≡ false → MeetsAll classes.old arcs.now arcs.now }
{
    let mut joined = false;
    for arc in arcs {
        joined |= join_target(classes, arcs, arc);
    }
    joined
}

/// Joins the numbers of each pair.
fn join_given(classes: &mut Classes, given: &[(usize, usize)])
    requires { GivenWithin (length classes.old) given.now }
    ensures length { length classes.new ≡ length classes.old }
    ensures forced { (count : ℕ) (arcs : List Arc) → IsDivision count given.now arcs classes.old
        → IsDivision count given.now arcs classes.new }
    ensures given { HoldsGiven given.now classes.new }
{
    for (a, b) in given {
        classes.join(*a, *b);
    }
}

/// The classes of equal nodes: the given pairs are equal, and so are the targets of arcs of one
/// attribute from equal nodes.
pub(crate) fn close(
    alloc: Global,
    count: usize,
    given: &[(usize, usize)],
    arcs: &[Arc],
) -> Result<Classes, AllocError>
    requires given { GivenWithin count given.now }
    requires arcs { ArcsWithin count arcs.now }
    ensures length { IfOk result (λ classes. length classes ≡ count) }
    ensures divides { IfOk result (Divides count given.now arcs.now) }
{
    let mut classes = Classes::new(alloc, count)?;
    join_given(&mut classes, given);
    loop {
        if !join_targets(&mut classes, arcs) {
            return Ok(classes);
        }
    }
}
