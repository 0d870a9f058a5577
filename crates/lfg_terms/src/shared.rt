ghost use Rattle.std.specs.Prelude.{◌≡◌, IfOk};

use std::alloc::{AllocError, Global};
use std::fmt;
use std::marker::Model;
use std::rc::Rc;

/// A list with several owners, which contracts see as the list of its items.
#[derive(Drop)]
pub struct Shared<T> {
    inner: Rc<Vec<T>>,
}

impl<T> Model for Shared<T> {
    ghost use Rattle.std.specs.Prelude.{List};
    ghost use Rattle.std.specs.Coded.{coded_list};

    ghost Value = { List T };

    ghost coded = { coded_list T.code };

    ghost view = { λ it. it.inner.value.items };
}

impl<T: Drop> Shared<T> {
    /// The list of these items.
    ///
    /// # Errors
    ///
    /// Only for want of memory.
    pub fn new(alloc: Global, items: Vec<T>) -> Result<Shared<T>, AllocError>
        ensures { IfOk result (λ it. it ≡ items.items) }
    {
        Ok(Shared {
            inner: Rc::new(alloc, items)?,
        })
    }

    /// The items in order. Takes no memory.
    pub fn list(&self) -> &[T]
        ensures { result.now ≡ self.now }
    {
        self.inner.as_ref().as_slice()
    }
}

impl<T: fmt::Debug + Drop> fmt::Debug for Shared<T> {
    fn fmt<W: fmt::Write>(&self, f: &mut fmt::Formatter<W>) -> fmt::Result {
        let items = self.list();
        write!(f, "{items:?}")
    }
}

impl<T: Drop> Clone for Shared<T> {
    ghost is_clone = { λ it copy. copy ≡ it };

    /// The same list, with one owner more. No item is copied.
    fn clone(&self) -> Result<Shared<T>, AllocError> {
        Ok(Shared {
            inner: self.inner.clone()?,
        })
    }
}
