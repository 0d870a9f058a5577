ghost use Rattle.std.specs.Prelude.{◌≡◌, IfOk};
ghost use Rattle.std.specs.Cmp.Lexicographic.{pointwise, lists_per, lists_equiv};
ghost use Rattle.std.specs.List.{AllZip};

use std::alloc::{AllocError, Global};
use std::marker::Model;

/// A list in a field of a term, which contracts see as the list of its items.
#[derive(Debug, Drop)]
pub struct List<T> {
    items: Vec<T>,
}

impl<T> Model for List<T> {
    ghost use Rattle.std.specs.Prelude.{List};
    ghost use Rattle.std.specs.Coded.{coded_list};

    ghost Value = { List T };

    ghost coded = { coded_list T.code };

    ghost view = { λ it. it.items.items };
}

impl<T: Drop> List<T> {
    /// The list of these items. Takes no memory beyond theirs.
    ///
    /// # Errors
    ///
    /// None in this form; the signature is that of all lists, of which some share their items.
    pub fn new(_alloc: Global, items: Vec<T>) -> Result<List<T>, AllocError>
        ensures { IfOk result (λ it. it ≡ items.items) }
    {
        Ok(List { items })
    }

    /// The items in order. Takes no memory.
    pub fn list(&self) -> &[T]
        ensures { result.now ≡ self.now }
    {
        self.items.as_slice()
    }
}

impl<T: Clone + Drop> Clone for List<T> {
    ghost is_clone = { AllZip T.is_clone };

    /// The same list, with a copy of each item.
    fn clone(&self) -> Result<List<T>, AllocError> {
        Ok(List {
            items: self.items.clone()?,
        })
    }
}

impl<T: PartialEq> PartialEq for List<T> {
    ghost eq = { pointwise T.eq };

    ghost laws = { lists_per T.laws };

    fn eq(&self, other: &List<T>) -> bool {
        self.items == other.items
    }
}

impl<T: Eq> Eq for List<T> {
    ghost laws = { lists_equiv T.Eq.laws };
}
