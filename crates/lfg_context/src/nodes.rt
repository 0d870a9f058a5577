ghost use Rattle.std.specs.Prelude.{◌≢◌, ◌≡◌, ℕ, ◌+◌, ◌-◌, ◌<◌, ◌≤◌, ◌↔◌, ◌++◌, ◌∷◌, [], IsTrue, IfOk, OnOk, OnErr, IfSome, IfNone, All, length, map, slice_index, slice_index_or};
ghost use Rattle.lfg_context.specs.Forms.{AllBelow};
ghost use Rattle.lfg_context.specs.Tables.{Entry, cubes_at, arity_in, IsTable, Extends, IsChoice, AreChildren, IsTop, IsChild};

use crate::ctx::Ctx;
use crate::diagram::{Diagram, Test};
use indexmap::IndexMap;
use std::alloc::{AllocError, Global};

/// Whether all numbers are the first one.
fn is_one_number(numbers: &[usize]) -> bool
    requires { 0 < length numbers.now }
    ensures { IsTrue result ↔ All (λ k. k ≡ slice_index numbers.now 0) numbers.now }
{
    let first = numbers[0];
    numbers.iter().all(|number| *number == first)
}

impl Diagram {
    /// The diagram without a node. Takes no memory.
    pub(crate) fn new(alloc: Global) -> Diagram
        ensures nodes { result.nodes.entries ≡ [] }
        ensures results { result.results.entries ≡ [] }
    {
        Diagram {
            alloc,
            nodes: IndexMap::new(alloc),
            results: IndexMap::new(alloc),
        }
    }

    /// What the node tests, and its set.
    fn node(&self, number: usize) -> (&Test, &Ctx)
        requires two { 2 ≤ number }
        requires within { number < length self.now.nodes.entries + 2 }
        ensures { let entry : Entry = (result.0.now, result.1.now) in entry ≡ slice_index_or self.now.nodes.entries (number - 2) entry }
    {
        match self.nodes.get_index(number - 2) {
            Some((test, ctx)) => (test, ctx),
            None => unreachable!(),
        }
    }

    /// The place of the node with this test.
    fn find(&self, test: &Test) -> Option<usize>
        ensures found { IfSome result (λ i. (i < length self.now.nodes.entries) × ((e : Entry) → e ≡ slice_index_or self.now.nodes.entries i e → (e.0.choice ≡ test.now.choice) × (e.0.children.items ≡ test.now.children.items))) }
        ensures fresh { IfNone result ((i : ℕ) (e : Entry) → i < length self.now.nodes.entries → e ≡ slice_index_or self.now.nodes.entries i e → e.0.choice ≡ test.now.choice → e.0.children.items ≡ test.now.children.items → ⊥) }
    {
        self.nodes.get_index_of(test)
    }

    /// The choice that a number tests first; the greatest number for the two sets without a node.
    pub(crate) fn top(&self, number: usize) -> u32
        requires { number < length self.now.nodes.entries + 2 }
        ensures { IsTop self.now.nodes.entries number result }
    {
        if number < 2 {
            return u32::MAX;
        }
        self.node(number).0.choice
    }

    /// The number of the child at an alternative of a choice before which the number tests none.
    pub(crate) fn child(
        &self,
        arities: &[u32],
        choice: u32,
        alternative: u32,
        number: usize,
    ) -> usize
        requires table { IsTable self.now.nodes.entries (arity_in arities.now) (length arities.now) }
        requires within { number < length self.now.nodes.entries + 2 }
        requires room { length arities.now ≤ 4294967295 }
        requires choice_in { choice < length arities.now }
        requires alternative { alternative < arity_in arities.now choice }
        requires first { (t : ℕ) → IsTop self.now.nodes.entries number t → choice ≤ t }
        ensures { (t : ℕ) → IsTop self.now.nodes.entries number t → IsChild self.now.nodes.entries (arity_in arities.now) (length arities.now) choice alternative t number result }
    {
        let _ = arities;
        if number < 2 {
            return number;
        }
        let test = self.node(number).0;
        if test.choice != choice {
            return number;
        }
        test.children[alternative as usize]
    }

    /// The set of a number.
    pub(crate) fn ctx(&self, arities: &[u32], number: usize) -> Result<Ctx, AllocError>
        requires table { IsTable self.now.nodes.entries (arity_in arities.now) (length arities.now) }
        requires within { number < length self.now.nodes.entries + 2 }
        ensures { IfOk result (λ x. x ≡ (number, cubes_at self.now.nodes.entries number)) }
    {
        let _ = arities;
        if number < 2 {
            return Ok(Ctx::terminal(number == 1));
        }
        let ctx = self.node(number).1.share()?;
        Ok(ctx)
    }

    /// The sets of the numbers.
    fn sets(&self, arities: &[u32], numbers: &[usize]) -> Result<Vec<Ctx>, AllocError>
        requires table { IsTable self.now.nodes.entries (arity_in arities.now) (length arities.now) }
        requires within { All (λ k. k < length self.now.nodes.entries + 2) numbers.now }
        ensures cubes { IfOk result (λ v. map (λ x. x.1) v.items ≡ map (cubes_at self.now.nodes.entries) numbers.now) }
        ensures below { IfOk result (λ v. AllBelow (length self.now.nodes.entries + 2) v.items) }
    {
        let mut sets = Vec::new(self.alloc);
        for number in numbers {
            sets.push(self.ctx(arities, *number)?)?;
        }
        Ok(sets)
    }

    /// Puts a node with a new test behind the others.
    fn add(&mut self, test: Test, ctx: Ctx) -> Result<(), AllocError>
        requires fresh { (i : ℕ) (e : Entry) → i < length self.old.nodes.entries → e ≡ slice_index_or self.old.nodes.entries i e → e.0.choice ≡ test.choice → e.0.children.items ≡ test.children.items → ⊥ }
        ensures added { OnOk result (self.new.nodes.entries ≡ self.old.nodes.entries ++ (test, ctx) ∷ []) }
        ensures refused { OnErr result (self.new.nodes.entries ≡ self.old.nodes.entries) }
        ensures results { self.new.results ≡ self.old.results }
    {
        self.nodes.insert(test, ctx)?;
        Ok(())
    }

    /// The number of the set that takes at each alternative of the choice the child there.
    ///
    /// The children test later choices alone. A node is made only where no equal one is there, and
    /// where the children are not all one.
    pub(crate) fn make(
        &mut self,
        arities: &[u32],
        choice: u32,
        children: Vec<usize>,
    ) -> Result<usize, AllocError>
        requires table { IsTable self.old.nodes.entries (arity_in arities.now) (length arities.now) }
        requires children { AreChildren self.old.nodes.entries (arity_in arities.now) (length arities.now) choice children.items }
        ensures table { IsTable self.new.nodes.entries (arity_in arities.now) (length arities.now) }
        ensures extends { Extends self.old.nodes.entries self.new.nodes.entries }
        ensures results { self.new.results ≡ self.old.results }
        ensures ok { IfOk result (IsChoice self.old.nodes.entries self.new.nodes.entries (arity_in arities.now) (length arities.now) choice children.items) }
    {
        if is_one_number(children.as_slice()) {
            return Ok(children[0]);
        }
        let test = Test { choice, children };
        let number = self.nodes.len() + 2;
        if let Some(place) = self.find(&test) {
            return Ok(place + 2);
        }
        let sets = self.sets(arities, test.children.as_slice())?;
        let ctx = Ctx::node(self.alloc, number, choice, sets)?;
        self.add(test, ctx)?;
        Ok(number)
    }
}
