ghost use Rattle.std.specs.Prelude.{◌≡◌, ◌↔◌, ◌==◌, List, [], ℕ, IsTrue, IfOk, Some};
ghost use Rattle.std.proofs.Common.{rules};
ghost use Rattle.std.specs.Cmp.Rules.{comparing, hashing};
ghost use Rattle.std.specs.Hash as fed;
ghost use Rattle.std.specs.Cmp.{partial_order_from_own_ties};
ghost use Rattle.std.specs.Cmp.Lexicographic.{pointwise, slice_cmp};
ghost use Rattle.std.specs.Ordering.{nat_cmp, as_partial_cmp};

use std::alloc::{AllocError, Global};
use std::cmp::Ordering;
use std::fmt;
use std::hash::{Hash, Hasher};
use std::marker::Model;
use std::rc::RcStr;

/// A name of a grammar: a category, an attribute, an atom, a relation or a word form.
///
/// Contracts see a name as the bytes of its text. Its text is shared, so a clone copies no byte;
/// a clone can still be refused for want of memory, since the count of owners may be full.
/// Names are ordered by their bytes.
#[derive(Drop)]
pub struct Name {
    // `None` is the empty text, which takes no memory.
    shared: Option<RcStr>,
}

impl Model for Name {
    ghost use Rattle.std.specs.Prelude.{List, ℕ};
    ghost use Rattle.lfg_terms.specs.Name.{bytes_of};

    ghost Value = { List ℕ };

    ghost view = { λ n. bytes_of n.shared };
}

impl Default for Name {
    ghost is_default = { λ n. n ≡ [] };

    fn default() -> Name {
        Name { shared: None }
    }
}

impl Name {
    /// The name with this text.
    ///
    /// # Errors
    ///
    /// Only for want of memory.
    pub fn new(alloc: Global, text: &str) -> Result<Name, AllocError>
        ensures { IfOk result (λ name. name ≡ text.now) }
    {
        Ok(Name {
            shared: Some(RcStr::from_str(alloc, text)?),
        })
    }

    /// Its text. Takes no memory.
    pub fn text(&self) -> &str
        ensures { result.now ≡ self.now }
    {
        match &self.shared {
            Some(shared) => shared.as_str(),
            None => "",
        }
    }
}

impl fmt::Debug for Name {
    fn fmt<W: fmt::Write>(&self, f: &mut fmt::Formatter<W>) -> fmt::Result {
        let text = self.text();
        write!(f, "{text:?}")
    }
}

impl fmt::Display for Name {
    ghost output = { λ name. Some name };

    /// The name's text, without backquotes.
    fn fmt<W: fmt::Write>(&self, f: &mut fmt::Formatter<W>) -> fmt::Result {
        f.write_str(self.text())
    }
}

impl Clone for Name {
    ghost is_clone = { λ name copy. copy ≡ name };

    /// The same text, with one owner more.
    fn clone(&self) -> Result<Name, AllocError> {
        match &self.shared {
            Some(shared) => Ok(Name {
                shared: Some(shared.clone()?),
            }),
            None => Ok(Name { shared: None }),
        }
    }
}

impl PartialEq for Name {
    ghost eq = { pointwise ◌==◌ };

    ghost laws = { Prim.search (comparing, rules) };

    fn eq(&self, other: &Name) -> bool
        ensures same { IsTrue result ↔ (self.now ≡ other.now) }
        ensures eq { result ≡ pointwise ◌==◌ self.now other.now }
    {
        self.text() == other.text()
    }
}

impl Eq for Name {
    ghost laws = { Prim.search (comparing, rules) };
}

impl PartialOrd for Name {
    ghost partial_cmp = { as_partial_cmp (slice_cmp nat_cmp) };

    ghost laws = { partial_order_from_own_ties (Prim.search (comparing, rules)) (Prim.search (comparing, rules)) };

    fn partial_cmp(&self, other: &Name) -> Option<Ordering> {
        Some(self.cmp(other))
    }
}

impl Ord for Name {
    ghost cmp = { slice_cmp nat_cmp };

    ghost total = { Prim.search (comparing, rules) };

    ghost matches_partial_cmp = { Prim.search (comparing, rules) };

    ghost matches_eq = { Prim.search (comparing, rules) };

    #[tactic(auto, using(crate::proofs::Ties::name_cmp_same))]
    fn cmp(&self, other: &Name) -> Ordering
        ensures same { (result ≡ Ordering.Equal) ↔ (self.now ≡ other.now) }
        ensures cmp { result ≡ slice_cmp nat_cmp self.now other.now }
    {
        self.text().cmp(other.text())
    }
}

impl Hash for Name {
    ghost hash_input = { λ n. fed.str n };

    ghost respects_eq = { Prim.search (hashing, rules) };

    fn hash<H: Hasher>(&self, state: &mut H) {
        self.text().hash(state);
    }
}
