ghost use Rattle.std.specs.Prelude.{◌≢◌, ◌≡◌, ◌⊎◌, ◌==◌, ℕ, ◌+◌, ◌<◌, ◌≤◌, IfOk, OnOk, length};
ghost use Rattle.lfg_context.specs.Cubes.{in_cubes, taken};
ghost use Rattle.lfg_context.specs.Tables.{cubes_at, arity_in, IsTable, Extends, PicksOne};
ghost use Rattle.lfg_context.specs.Ops.{AreResults};

use crate::diagram::Diagram;
use std::alloc::{AllocError, Global};

/// The children of a choice of which one alternative is picked.
fn one_alternative(alloc: Global, arity: u32, alternative: u32) -> Result<Vec<usize>, AllocError>
    ensures { IfOk result (λ v. PicksOne v.items arity alternative) }
{
    let mut children = Vec::new(alloc);
    for k in 0..arity {
        children.push(if k == alternative { 1 } else { 0 })?;
    }
    Ok(children)
}

/// Makes room for the number of alternatives of the choice.
fn make_room(arities: &mut Vec<u32>, choice: u32) -> Result<(), AllocError>
    ensures same { (c : ℕ) → arity_in arities.new.items c ≡ arity_in arities.old.items c }
    ensures longer { length arities.old.items ≤ length arities.new.items }
    ensures room { OnOk result (choice < length arities.new.items) }
    ensures bound { (m : ℕ) → length arities.old.items ≤ m → choice < m → length arities.new.items ≤ m }
{
    for _place in arities.len()..choice as usize + 1 {
        arities.push(0)?;
    }
    Ok(())
}

impl Diagram {
    /// The number of the set that takes the alternative.
    pub(crate) fn pick(
        &mut self,
        arities: &mut Vec<u32>,
        choice: u32,
        arity: u32,
        alternative: u32,
    ) -> Result<usize, AllocError>
        requires table { IsTable self.old.nodes.entries (arity_in arities.old.items) (length arities.old.items) }
        requires results { AreResults self.old.nodes.entries self.old.results.entries }
        requires room { length arities.old.items ≤ 4294967295 }
        requires choice_in { choice < 4294967295 }
        requires two { 2 ≤ arity }
        requires consistent { (arity_in arities.old.items choice ≡ 0) ⊎ (arity_in arities.old.items choice ≡ arity) }
        ensures table { IsTable self.new.nodes.entries (arity_in arities.new.items) (length arities.new.items) }
        ensures results { AreResults self.new.nodes.entries self.new.results.entries }
        ensures room { length arities.new.items ≤ 4294967295 }
        ensures extends { Extends self.old.nodes.entries self.new.nodes.entries }
        ensures others { (c : ℕ) → c ≢ choice → arity_in arities.new.items c ≡ arity_in arities.old.items c }
        ensures kept { (arity_in arities.new.items choice ≡ arity_in arities.old.items choice) ⊎ (arity_in arities.new.items choice ≡ arity) }
        ensures picked { OnOk result (arity_in arities.new.items choice ≡ arity) }
        ensures within { IfOk result (λ n. n < length self.new.nodes.entries + 2) }
        ensures members { IfOk result (λ n. (a : ℕ → ℕ) → in_cubes (cubes_at self.new.nodes.entries n) a ≡ (taken a choice arity == alternative)) }
    {
        make_room(arities, choice)?;
        arities[choice as usize] = arity;
        let children = one_alternative(self.alloc, arity, alternative)?;
        let number = self.make(arities.as_slice(), choice, children)?;
        Ok(number)
    }
}
