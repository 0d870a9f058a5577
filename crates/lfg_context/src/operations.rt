ghost use Rattle.std.specs.Prelude.{◌≡◌, ℕ, ◌+◌, ◌<◌, ◌≤◌, ◌⊎◌, IfOk, IfSome, length};
ghost use Rattle.lfg_context.specs.declared.diagram.Work.{Work};
ghost use Rattle.lfg_context.specs.Tables.{arity_in, IsTable, Extends};
ghost use Rattle.lfg_context.specs.Ops.{AreResults, IsResult, IsCombined, IsFirst};

use crate::diagram::{Diagram, Work};
use crate::op::{Op, trivial};
use std::alloc::AllocError;

impl Diagram {
    /// The first choice that one of the two numbers tests.
    fn first_choice(&self, arities: &[u32], left: usize, right: usize) -> u32
        requires table { IsTable self.now.nodes.entries (arity_in arities.now) (length arities.now) }
        requires room { length arities.now ≤ 4294967295 }
        requires left_in { left < length self.now.nodes.entries + 2 }
        requires right_in { right < length self.now.nodes.entries + 2 }
        requires some { (2 ≤ left) ⊎ (2 ≤ right) }
        ensures { IsFirst self.now.nodes.entries (arity_in arities.now) (length arities.now) left right result }
    {
        let _ = arities;
        let left_top = self.top(left);
        let right_top = self.top(right);
        left_top.min(right_top)
    }

    /// What was computed before.
    fn remembered(&self, work: Work) -> Option<usize>
        requires { AreResults self.now.nodes.entries self.now.results.entries }
        ensures { IfSome result (λ n. IsResult self.now.nodes.entries work n) }
    {
        self.results.get(&work).copied()
    }

    /// Remembers what was computed.
    fn remember(&mut self, work: Work, number: usize) -> Result<(), AllocError>
        requires results { AreResults self.old.nodes.entries self.old.results.entries }
        requires right { IsResult self.old.nodes.entries work number }
        ensures nodes { self.new.nodes ≡ self.old.nodes }
        ensures results { AreResults self.new.nodes.entries self.new.results.entries }
    {
        self.results.insert(work, number)?;
        Ok(())
    }

    /// The number of what the operation makes of the sets of the two numbers.
    pub(crate) fn combine(
        &mut self,
        op: Op,
        arities: &[u32],
        left: usize,
        right: usize,
    ) -> Result<usize, AllocError>
        requires table { IsTable self.old.nodes.entries (arity_in arities.now) (length arities.now) }
        requires results { AreResults self.old.nodes.entries self.old.results.entries }
        requires room { length arities.now ≤ 4294967295 }
        requires left_in { left < length self.old.nodes.entries + 2 }
        requires right_in { right < length self.old.nodes.entries + 2 }
        ensures table { IsTable self.new.nodes.entries (arity_in arities.now) (length arities.now) }
        ensures results { AreResults self.new.nodes.entries self.new.results.entries }
        ensures extends { Extends self.old.nodes.entries self.new.nodes.entries }
        ensures ok { IfOk result (IsCombined self.old.nodes.entries self.new.nodes.entries (arity_in arities.now) (length arities.now) op left right) }
    {
        if let Some(number) = trivial(op, left, right) {
            return Ok(number);
        }
        let work = Work { op, left, right };
        if let Some(number) = self.remembered(work) {
            return Ok(number);
        }
        let choice = self.first_choice(arities, left, right);
        let arity = arities[choice as usize];
        let mut children = Vec::new(self.alloc);
        for alternative in 0..arity {
            let x = self.child(arities, choice, alternative, left);
            let y = self.child(arities, choice, alternative, right);
            children.push(self.combine(op, arities, x, y)?)?;
        }
        let number = self.make(arities, choice, children)?;
        self.remember(work, number)?;
        Ok(number)
    }
}
