ghost use Rattle.std.specs.Prelude.{◌≡◌, ◌≢◌, ℕ, ◌<◌, ◌≤◌, ◌⊎◌, ◌==◌, ◌&&◌, ◌||◌, not, true, false, length, IfOk, OnOk, IfSome, IfNone, IsTrue, slice_index};
ghost use Rattle.lfg_choice.specs.Choices.{alternatives_of};
ghost use Rattle.lfg_context.specs.Cubes.{taken, set_at};
ghost use Rattle.lfg_context.specs.Ops.{op_of};
ghost use Rattle.lfg_context.specs.Sets.{Assignment, assigned, member, arity_of, IsMade, IsGrown, HasSamePicks, HasPicksOf, IsSetOf, IsConstant, IsFirstChoice, IsOver, IsLeast};

use crate::ctx::Ctx;
use crate::diagram::Diagram;
use crate::op::Op;
use lfg_choice::ChoiceSpace;
use std::alloc::{AllocError, Global};
use std::marker::Model;

/// What makes sets of assignments, and remembers what it made.
///
/// A set keeps its members for good. A `Contexts` is needed only to make one: it then knows more
/// sets than before, and each set that it made earlier is still one of its sets. It also remembers
/// which choices were picked, and with how many alternatives.
#[derive(Drop)]
pub struct Contexts {
    diagram: Diagram,
    arities: Vec<u32>,
}

impl Model for Contexts {
    ghost use Rattle.std.specs.Prelude.{map, length, ◌≤◌};
    ghost use Rattle.lfg_context.specs.Seen.{Known};

    ghost Value = { Known };

    ghost use Rattle.lfg_context.specs.Tables.{IsTable, arity_in};
    ghost use Rattle.lfg_context.specs.Ops.{AreResults};

    ghost view = { λ x. (map (λ e. e.1) x.diagram.nodes.entries, x.arities.items) };

    ghost invariant = { λ x. IsTable x.diagram.nodes.entries (arity_in x.arities.items) (length x.arities.items) × (length x.arities.items ≤ 4294967295) × AreResults x.diagram.nodes.entries x.diagram.results.entries };
}

impl Contexts {
    /// Contexts that have picked nothing. Takes no memory.
    pub fn new(alloc: Global) -> Contexts
        ensures { (c : ℕ) → arity_of result c ≡ 0 }
    {
        Contexts {
            diagram: Diagram::new(alloc),
            arities: Vec::new(alloc),
        }
    }

    /// All assignments. Takes no memory.
    pub fn yes(&self) -> Ctx
        ensures { IsSetOf self.now result (λ _. true) }
    {
        Ctx::terminal(true)
    }

    /// No assignment. Takes no memory.
    pub fn no(&self) -> Ctx
        ensures { IsSetOf self.now result (λ _. false) }
    {
        Ctx::terminal(false)
    }

    /// The assignments that take the alternative `alt` of the choice; both are counted from 0.
    ///
    /// The choice is one of the space, and has there as many alternatives as at each earlier pick.
    ///
    /// # Errors
    ///
    /// Only for want of memory. Each earlier set is then as before, and so are the other choices;
    /// the choice itself may have been picked.
    pub fn pick(&mut self, space: &ChoiceSpace, choice: u32, alt: u32) -> Result<Ctx, AllocError>
        requires choice_in { choice < length space.now }
        requires alternative_in { alt < alternatives_of space.now choice }
        requires consistent { (arity_of self.old choice ≡ 0) ⊎ (arity_of self.old choice ≡ alternatives_of space.now choice) }
        ensures ok { IfOk result (λ x. IsSetOf self.new x (λ a. taken a choice (alternatives_of space.now choice) == alt)) }
        ensures grown { IsGrown self.old self.new }
        ensures picked { OnOk result (arity_of self.new choice ≡ alternatives_of space.now choice) }
        ensures others { (c : ℕ) → c ≢ choice → arity_of self.new c ≡ arity_of self.old c }
        ensures picks { HasPicksOf self.old space.now → HasPicksOf self.new space.now }
    {
        let arity = space.arity(choice);
        let number = self.diagram.pick(&mut self.arities, choice, arity, alt)?;
        let ctx = self.diagram.ctx(self.arities.as_slice(), number)?;
        Ok(ctx)
    }

    fn combined(&mut self, op: Op, a: &Ctx, b: &Ctx) -> Result<Ctx, AllocError>
        requires a_made { IsMade self.old a.now }
        requires b_made { IsMade self.old b.now }
        ensures ok { IfOk result (λ z. IsSetOf self.new z (λ c. op_of op (member a.now c) (member b.now c))) }
        ensures grown { IsGrown self.old self.new }
        ensures picks { HasSamePicks self.old self.new }
    {
        let number = self
            .diagram
            .combine(op, self.arities.as_slice(), a.number(), b.number())?;
        let ctx = self.diagram.ctx(self.arities.as_slice(), number)?;
        Ok(ctx)
    }

    /// The meet: the assignments that are in both sets.
    ///
    /// # Errors
    ///
    /// Only for want of memory. Each earlier set is then as before, and so are the picks.
    pub fn and(&mut self, a: &Ctx, b: &Ctx) -> Result<Ctx, AllocError>
        requires a_made { IsMade self.old a.now }
        requires b_made { IsMade self.old b.now }
        ensures ok { IfOk result (λ x. IsSetOf self.new x (λ c. member a.now c && member b.now c)) }
        ensures grown { IsGrown self.old self.new }
        ensures picks { HasSamePicks self.old self.new }
    {
        self.combined(Op::And, a, b)
    }

    /// The union: the assignments that are in one of the sets, or in both.
    ///
    /// # Errors
    ///
    /// Only for want of memory. Each earlier set is then as before, and so are the picks.
    pub fn or(&mut self, a: &Ctx, b: &Ctx) -> Result<Ctx, AllocError>
        requires a_made { IsMade self.old a.now }
        requires b_made { IsMade self.old b.now }
        ensures ok { IfOk result (λ x. IsSetOf self.new x (λ c. member a.now c || member b.now c)) }
        ensures grown { IsGrown self.old self.new }
        ensures picks { HasSamePicks self.old self.new }
    {
        self.combined(Op::Or, a, b)
    }

    /// The difference: the assignments that are in the first set and not in the second.
    ///
    /// # Errors
    ///
    /// Only for want of memory. Each earlier set is then as before, and so are the picks.
    pub fn without(&mut self, a: &Ctx, b: &Ctx) -> Result<Ctx, AllocError>
        requires a_made { IsMade self.old a.now }
        requires b_made { IsMade self.old b.now }
        ensures ok { IfOk result (λ x. IsSetOf self.new x (λ c. member a.now c && not (member b.now c))) }
        ensures grown { IsGrown self.old self.new }
        ensures picks { HasSamePicks self.old self.new }
    {
        self.combined(Op::Without, a, b)
    }

    /// Whether no assignment is in the set. Takes no memory.
    pub fn is_empty(&self, a: &Ctx) -> bool
        requires { IsMade self.now a.now }
        ensures none { IsTrue result → (c : Assignment) → member a.now c ≡ false }
        ensures some { result ≡ false → (c : Assignment) × (member a.now c ≡ true) }
    {
        let _ = &self.diagram;
        a.number() == 0
    }

    /// Whether the two sets have the same members. Takes no memory.
    pub fn same(&self, a: &Ctx, b: &Ctx) -> bool
        requires a_made { IsMade self.now a.now }
        requires b_made { IsMade self.now b.now }
        ensures same { IsTrue result → (c : Assignment) → member a.now c ≡ member b.now c }
        ensures different { result ≡ false → (c : Assignment) × (member a.now c ≢ member b.now c) }
    {
        let _ = &self.diagram;
        a.number() == b.number()
    }

    /// Whether the assignment is in the set. Takes no memory.
    ///
    /// The alternative of the choice c stands at the place c. An alternative that a choice does not
    /// have stands for its last one, and behind the end of the list stands 0.
    pub fn holds(&self, a: &Ctx, assignment: &[u32]) -> bool
        requires { IsMade self.now a.now }
        ensures { result ≡ member a.now (assigned assignment.now) }
    {
        self.diagram
            .holds(self.arities.as_slice(), a.number(), assignment)
    }

    /// The least assignment of the set, compared from the first choice on; none where it is empty.
    ///
    /// The set is one of the choices of the space. The list has an alternative for each of them.
    ///
    /// # Errors
    ///
    /// Only for want of memory.
    pub fn some_member(&self, a: &Ctx, space: &ChoiceSpace) -> Result<Option<Vec<u32>>, AllocError>
        requires made { IsMade self.now a.now }
        requires over { IsOver self.now space.now a.now }
        ensures some { IfOk result (λ found. IfSome found (λ xs. IsLeast space.now a.now xs.items)) }
        ensures none { IfOk result (λ found. IfNone found ((c : Assignment) → member a.now c ≡ false)) }
    {
        let arities = self.arities.as_slice();
        let number = a.number();
        if number == 0 {
            return Ok(None);
        }
        let least = self.diagram.least(arities, number, space.len())?;
        Ok(Some(least))
    }

    /// The first choice on which membership depends, counted from 0; none where the set is empty or
    /// has all assignments. Takes no memory.
    pub fn first(&self, a: &Ctx) -> Option<u32>
        requires { IsMade self.now a.now }
        ensures some { IfSome result (IsFirstChoice a.now) }
        ensures picked { IfSome result (λ c. 2 ≤ arity_of self.now c) }
        ensures none { IfNone result (IsConstant a.now) }
    {
        let diagram = &self.diagram;
        let number = a.number();
        if number < 2 {
            return None;
        }
        Some(diagram.top(number))
    }

    /// The assignments that are in the set once its first choice is set to the alternative, counted
    /// from 0.
    ///
    /// # Errors
    ///
    /// Only for want of memory.
    pub fn child(&self, a: &Ctx, alt: u32) -> Result<Ctx, AllocError>
        requires made { IsMade self.now a.now }
        requires some { IsConstant a.now → ⊥ }
        requires alternative_in { (c : ℕ) → IsFirstChoice a.now c → alt < arity_of self.now c }
        ensures made { IfOk result (IsMade self.now) }
        ensures members { IfOk result (λ x. (c : ℕ) → IsFirstChoice a.now c → (b : Assignment) → member x b ≡ member a.now (set_at b c alt)) }
    {
        let arities = self.arities.as_slice();
        let number = a.number();
        if number < 2 {
            return Ok(self.no());
        }
        let choice = self.diagram.top(number);
        let child = self.diagram.child(arities, choice, alt, number);
        let ctx = self.diagram.ctx(arities, child)?;
        Ok(ctx)
    }
}
