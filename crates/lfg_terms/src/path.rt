ghost use Rattle.std.specs.Prelude.{◌≡◌, ◌↔◌, List, ℕ, IsTrue, IfOk, refl};
ghost use Rattle.std.specs.Cmp.{partial_order_from_total, partial_equiv_from_equiv};
ghost use Rattle.std.specs.Ordering.{as_partial_cmp, eq_by_cmp};
ghost use Rattle.std.proofs.lemmas.Cmp.{eq_by_cmp_equiv};
ghost use Rattle.lfg_terms.specs.PathOrder.{path_cmp, path_cmp_total};

use crate::name::Name;
use smallvec::SmallVec;
use std::alloc::{AllocError, Global};
use std::cmp::Ordering;
use std::fmt;
use std::marker::Model;

/// A list of attributes, of which four lie in the value.
#[derive(Drop)]
pub struct Path {
    names: SmallVec<Name, 4>,
}

impl Model for Path {
    ghost Value = { List (List ℕ) };

    ghost view = { λ p. p.names.items };
}

impl Path {
    /// The path of these attributes.
    pub fn new(alloc: Global, items: Vec<Name>) -> Result<Path, AllocError>
        ensures { IfOk result (λ path. path ≡ items.items) }
    {
        let mut names = SmallVec::new(alloc);
        for item in items {
            names.push(item)?;
        }
        Ok(Path { names })
    }

    /// The attributes in order.
    pub fn list(&self) -> &[Name]
        ensures { result.now ≡ self.now }
    {
        self.names.as_slice()
    }
}

impl fmt::Debug for Path {
    fn fmt<W: fmt::Write>(&self, f: &mut fmt::Formatter<W>) -> fmt::Result {
        let names = self.list();
        write!(f, "{names:?}")
    }
}

impl PartialEq for Path {
    ghost eq = { eq_by_cmp path_cmp };

    ghost laws = { partial_equiv_from_equiv (eq_by_cmp_equiv path_cmp_total) };

    #[tactic(auto, using(crate::proofs::Ties::path_eq_same))]
    fn eq(&self, other: &Path) -> bool
        ensures same { IsTrue result ↔ (self.now ≡ other.now) }
        ensures eq { result ≡ eq_by_cmp path_cmp self.now other.now }
    {
        self.cmp(other).is_eq()
    }
}

impl Eq for Path {
    ghost laws = { eq_by_cmp_equiv path_cmp_total };
}

impl PartialOrd for Path {
    ghost partial_cmp = { as_partial_cmp path_cmp };

    ghost laws = { partial_order_from_total path_cmp_total };

    fn partial_cmp(&self, other: &Path) -> Option<Ordering> {
        Some(self.cmp(other))
    }
}

impl Ord for Path {
    ghost cmp = { path_cmp };

    ghost total = { path_cmp_total };

    ghost matches_partial_cmp = { λ x y. refl };

    ghost matches_eq = { λ x y. refl };

    #[tactic(auto, using(crate::proofs::Ties::path_cmp_same))]
    fn cmp(&self, other: &Path) -> Ordering
        ensures same { (result ≡ Ordering.Equal) ↔ (self.now ≡ other.now) }
        ensures cmp { result ≡ path_cmp self.now other.now }
    {
        let mine = self.list();
        let theirs = other.list();
        mine.len().cmp(&theirs.len()).then(mine.cmp(theirs))
    }
}

impl Clone for Path {
    ghost is_clone = { λ path copy. copy ≡ path };

    fn clone(&self) -> Result<Path, AllocError> {
        Ok(Path {
            names: self.names.clone()?,
        })
    }
}
