ghost use Rattle.std.specs.Prelude.{◌≡◌, ℕ, ◌<◌, ◌≤◌, ◌++◌, ◌∷◌, [], Some, IfOk, OnOk, OnErr, length, slice_get};
ghost use Rattle.std.specs.Option.{option_map};
ghost use Rattle.lfg_choice.specs.Choices.{alternatives_of};

use lfg_terms::{Choice, ChoiceKind};
use std::alloc::{AllocError, Global};
use std::marker::Model;

/// A list of choices that grows at its end. A choice is told by its place, counted from 0.
///
/// Contracts see it as the list of its choices. Each has two alternatives at least.
#[derive(Drop)]
pub struct ChoiceSpace {
    choices: Vec<Choice>,
}

impl Model for ChoiceSpace {
    ghost use Rattle.std.specs.Prelude.{List, length, ◌≤◌};
    ghost use Rattle.lfg_terms.specs.declared.choice.Choice.{Choice};
    ghost use Rattle.lfg_choice.specs.Choices.{AreReal};

    ghost Value = { List Choice };

    ghost view = { λ s. s.choices.items };

    ghost invariant = { λ s. AreReal s.choices.items × (length s.choices.items ≤ 4294967295) };
}

impl ChoiceSpace {
    /// The space without a choice. Takes no memory.
    pub fn new(alloc: Global) -> ChoiceSpace
        ensures { result ≡ [] }
    {
        ChoiceSpace {
            choices: Vec::new(alloc),
        }
    }

    /// Puts a choice behind the others and answers its place.
    ///
    /// # Errors
    ///
    /// Only for want of memory; the space is then as before.
    pub fn push(&mut self, choice: Choice) -> Result<u32, AllocError>
        requires two { 2 ≤ choice.alternatives }
        requires room { length self.old < 4294967295 }
        ensures place { IfOk result (λ place. place ≡ length self.old) }
        ensures grown { OnOk result (self.new ≡ self.old ++ choice ∷ []) }
        ensures refused { OnErr result (self.new ≡ self.old) }
    {
        let place = self.len();
        self.choices.push(choice)?;
        Ok(place)
    }

    /// How many choices there are. Takes no memory.
    pub fn len(&self) -> u32
        ensures value { result ≡ length self.now }
        ensures two { (c : ℕ) → c < length self.now → 2 ≤ alternatives_of self.now c }
    {
        self.choices.len() as u32
    }

    /// The number of alternatives of the choice at this place. Takes no memory.
    pub fn arity(&self, choice: u32) -> u32
        requires { choice < length self.now }
        ensures value { result ≡ alternatives_of self.now choice }
        ensures two { 2 ≤ result }
        ensures room { length self.now ≤ 4294967295 }
    {
        self.choices[choice as usize].alternatives
    }

    /// What the choice at this place is between. Takes no memory.
    pub fn kind(&self, choice: u32) -> ChoiceKind
        requires { choice < length self.now }
        ensures { option_map (λ c. c.kind) (slice_get self.now choice) ≡ Some result }
    {
        self.choices[choice as usize].kind
    }
}
