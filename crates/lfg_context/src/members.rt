ghost use Rattle.std.specs.Prelude.{◌≡◌, ℕ, ◌+◌, ◌<◌, ◌≤◌, IfOk, length, slice_index};
ghost use Rattle.lfg_context.specs.Cubes.{in_cubes};
ghost use Rattle.lfg_context.specs.Tables.{cubes_at, arity_in, IsTable, IsTop};
ghost use Rattle.lfg_context.specs.Least.{AreBlindTo, IsLeastStep, IsLeastOf};

use crate::diagram::Diagram;
use std::alloc::AllocError;

/// The alternative that a list names for a choice: 0 behind its end.
fn named(assignment: &[u32], choice: u32) -> u32
    ensures { result ≡ slice_index assignment.now choice }
{
    if (choice as usize) < assignment.len() {
        assignment[choice as usize]
    } else {
        0
    }
}

impl Diagram {
    /// Whether the assignment is in the set of the number.
    pub(crate) fn holds(&self, arities: &[u32], number: usize, assignment: &[u32]) -> bool
        requires table { IsTable self.now.nodes.entries (arity_in arities.now) (length arities.now) }
        requires room { length arities.now ≤ 4294967295 }
        requires within { number < length self.now.nodes.entries + 2 }
        ensures { result ≡ in_cubes (cubes_at self.now.nodes.entries number) (λ c. slice_index assignment.now c) }
    {
        let mut n = number;
        while n >= 2 {
            let choice = self.top(n);
            let last = arities[choice as usize] - 1;
            n = self.child(arities, choice, named(assignment, choice).min(last), n);
        }
        n == 1
    }

    /// The least alternative of the choice at which the number has a member, and what is left there.
    fn least_step(&self, arities: &[u32], choice: u32, number: usize) -> (u32, usize)
        requires table { IsTable self.now.nodes.entries (arity_in arities.now) (length arities.now) }
        requires room { length arities.now ≤ 4294967295 }
        requires within { number < length self.now.nodes.entries + 2 }
        requires some { 1 ≤ number }
        requires small { choice < 4294967295 }
        requires later { (t : ℕ) → IsTop self.now.nodes.entries number t → choice ≤ t }
        ensures { IsLeastStep self.now.nodes.entries (arity_in arities.now) choice number result.0 result.1 }
    {
        if self.top(number) != choice {
            return (0, number);
        }
        let last = arities[choice as usize] - 1;
        for alternative in 0..last {
            let child = self.child(arities, choice, alternative, number);
            if child != 0 {
                return (alternative, child);
            }
        }
        (last, self.child(arities, choice, last, number))
    }

    /// The least member of the set of the number, as the alternatives of the first `len` choices.
    pub(crate) fn least(
        &self,
        arities: &[u32],
        number: usize,
        len: u32,
    ) -> Result<Vec<u32>, AllocError>
        requires table { IsTable self.now.nodes.entries (arity_in arities.now) (length arities.now) }
        requires room { length arities.now ≤ 4294967295 }
        requires within { number < length self.now.nodes.entries + 2 }
        requires some { 1 ≤ number }
        requires blind { (c : ℕ) → len ≤ c → AreBlindTo (cubes_at self.now.nodes.entries number) c }
        ensures { IfOk result (λ v. IsLeastOf self.now.nodes.entries (arity_in arities.now) number len v.items) }
    {
        let mut least = Vec::new(self.alloc);
        let mut left = number;
        for choice in 0..len {
            let (alternative, rest) = self.least_step(arities, choice, left);
            least.push(alternative)?;
            left = rest;
        }
        Ok(least)
    }
}
