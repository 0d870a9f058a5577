ghost use Rattle.std.specs.Prelude.{◌≡◌, ◌<◌, ℕ, [], Some, IfOk, OnOk, OnErr, length, slice_get};
ghost use Rattle.lfg_names.specs.Numbering.{with_text, number_of};

use indexmap::IndexSet;
use lfg_terms::Name;
use std::alloc::{AllocError, Global};
use std::marker::Model;

/// A table of texts, each with the number of texts that came before it.
///
/// Contracts see it as the list of its texts in the order in which they first came, so that a
/// text's number is its place in the list. No text stands there twice.
#[derive(Drop)]
pub struct Names {
    alloc: Global,
    texts: IndexSet<Name>,
}

impl Model for Names {
    ghost use Rattle.std.specs.Prelude.{List, ℕ};
    ghost use Rattle.std.specs.List.{IsDistinct};
    ghost use Rattle.lfg_names.specs.Numbering.{same};

    ghost Value = { List (List ℕ) };

    ghost view = { λ n. n.texts.keys };

    ghost invariant = { λ n. IsDistinct same n.texts.keys };
}

impl Names {
    /// The table without a text. Takes no memory.
    pub fn new(alloc: Global) -> Names
        ensures { result ≡ [] }
    {
        Names {
            alloc,
            texts: IndexSet::new(alloc),
        }
    }

    /// The number of the text. A text that is new gets the number of texts so far.
    ///
    /// # Errors
    ///
    /// Only for want of memory; the table is then as before.
    pub fn intern(&mut self, text: &str) -> Result<u32, AllocError>
        requires { length self.old < 4294967295 }
        ensures number { IfOk result (λ n. n ≡ number_of self.old text.now) }
        ensures held { OnOk result (self.new ≡ with_text self.old text.now) }
        ensures found { IfOk result (λ n. slice_get self.new n ≡ Some text.now) }
        ensures kept { (id : ℕ) → id < length self.old → slice_get self.new id ≡ slice_get self.old id }
        ensures refused { OnErr result (self.new ≡ self.old) }
    {
        let name = Name::new(self.alloc, text)?;
        let (place, _) = self.texts.insert_full(name)?;
        Ok(place as u32)
    }

    /// The text with a number that this table gave; no other number has it. Takes no memory.
    pub fn text(&self, id: u32) -> &str
        requires { id < length self.now }
        ensures value { slice_get self.now id ≡ Some result.now }
        ensures only { (other : ℕ) → slice_get self.now other ≡ Some result.now → other ≡ id }
    {
        match self.texts.get_index(id as usize) {
            Some(name) => name.text(),
            None => unreachable!(),
        }
    }

    /// The shared text with a number that this table gave.
    ///
    /// # Errors
    ///
    /// Only for want of memory.
    pub fn name(&self, id: u32) -> Result<Name, AllocError>
        requires { id < length self.now }
        ensures { IfOk result (λ name. slice_get self.now id ≡ Some name) }
    {
        match self.texts.get_index(id as usize) {
            Some(name) => name.clone(),
            None => unreachable!(),
        }
    }
}

#[cfg(test)]
mod tests {
    use super::*;
    use std::test::Fail;

    #[test]
    fn texts_are_numbered_by_first_appearance(rt: HostRuntime) -> Result<(), Fail> {
        let mut names = Names::new(rt.alloc());
        let sentence = names.intern("S")?;
        let phrase = names.intern("NP")?;
        let again = names.intern("S")?;
        assert_eq!(rt; (sentence, phrase, again), (0, 1, 0));
        assert_eq!(rt; names.text(phrase), "NP");
        let shared = names.name(sentence)?;
        assert_eq!(rt; shared.text(), "S");
        Ok(())
    }
}
