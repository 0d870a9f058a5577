ghost use Rattle.std.specs.Prelude.{◌≡◌, ◌↔◌, IsTrue, refl};
ghost use Rattle.std.specs.Cmp.{partial_order_from_total, partial_equiv_from_equiv};
ghost use Rattle.std.specs.Ordering.{as_partial_cmp, eq_by_cmp};
ghost use Rattle.std.proofs.lemmas.Cmp.{eq_by_cmp_equiv};
ghost use Rattle.lfg_model.specs.Points.{point_cmp, next_cmp, point_cmp_total, next_cmp_total};

use lfg_terms::Edge;
use std::alloc::AllocError;
use std::cmp::Ordering;

/// A place in a rule's right side while an edge is built by the rule.
///
/// The items before and with `occ` cover the tokens from the start of `edge` to `at`. Points are
/// ordered by their edge, then by `at`, then by `occ`.
#[derive(Debug, Drop)]
pub struct Point {
    pub edge: Edge,
    /// The number of the item that was read last, counted from 1; 0 is the start.
    pub occ: u32,
    /// The token at which the next item begins, counted from 0.
    pub at: u32,
}

/// How a derivation goes on at a point. Items are ordered by their number, then by `to`; the end
/// comes last.
#[derive(Clone, Copy, Debug, Drop)]
pub enum Next {
    /// By the item `occ` of the rule, counted from 1, which ends before the token `to`.
    Item { occ: u32, to: u32 },
    /// The rule ends here.
    End,
}

impl Clone for Point {
    ghost is_clone = { λ point copy. copy ≡ point };

    fn clone(&self) -> Result<Point, AllocError> {
        Ok(Point {
            edge: self.edge.clone()?,
            occ: self.occ,
            at: self.at,
        })
    }
}

impl PartialEq for Point {
    ghost eq = { eq_by_cmp point_cmp };

    ghost laws = { partial_equiv_from_equiv (eq_by_cmp_equiv point_cmp_total) };

    #[tactic(auto, using(crate::proofs::PointTies::point_eq_same))]
    fn eq(&self, other: &Point) -> bool
        ensures same { IsTrue result ↔ (self.now ≡ other.now) }
        ensures eq { result ≡ eq_by_cmp point_cmp self.now other.now }
    {
        self.cmp(other).is_eq()
    }
}

impl Eq for Point {
    ghost laws = { eq_by_cmp_equiv point_cmp_total };
}

impl PartialOrd for Point {
    ghost partial_cmp = { as_partial_cmp point_cmp };

    ghost laws = { partial_order_from_total point_cmp_total };

    fn partial_cmp(&self, other: &Point) -> Option<Ordering> {
        Some(self.cmp(other))
    }
}

impl Ord for Point {
    ghost cmp = { point_cmp };

    ghost total = { point_cmp_total };

    ghost matches_partial_cmp = { λ x y. refl };

    ghost matches_eq = { λ x y. refl };

    #[tactic(auto, using(crate::proofs::PointTies::point_cmp_same))]
    fn cmp(&self, other: &Point) -> Ordering
        ensures same { (result ≡ Ordering.Equal) ↔ (self.now ≡ other.now) }
        ensures cmp { result ≡ point_cmp self.now other.now }
    {
        self.edge
            .cmp(&other.edge)
            .then(self.at.cmp(&other.at))
            .then(self.occ.cmp(&other.occ))
    }
}

impl PartialEq for Next {
    ghost eq = { eq_by_cmp next_cmp };

    ghost laws = { partial_equiv_from_equiv (eq_by_cmp_equiv next_cmp_total) };

    #[tactic(auto, using(crate::proofs::PointTies::next_eq_same))]
    fn eq(&self, other: &Next) -> bool
        ensures same { IsTrue result ↔ (self.now ≡ other.now) }
        ensures eq { result ≡ eq_by_cmp next_cmp self.now other.now }
    {
        self.cmp(other).is_eq()
    }
}

impl Eq for Next {
    ghost laws = { eq_by_cmp_equiv next_cmp_total };
}

impl PartialOrd for Next {
    ghost partial_cmp = { as_partial_cmp next_cmp };

    ghost laws = { partial_order_from_total next_cmp_total };

    fn partial_cmp(&self, other: &Next) -> Option<Ordering> {
        Some(self.cmp(other))
    }
}

impl Ord for Next {
    ghost cmp = { next_cmp };

    ghost total = { next_cmp_total };

    ghost matches_partial_cmp = { λ x y. refl };

    ghost matches_eq = { λ x y. refl };

    #[tactic(auto, using(crate::proofs::PointTies::next_cmp_same))]
    fn cmp(&self, other: &Next) -> Ordering
        ensures same { (result ≡ Ordering.Equal) ↔ (self.now ≡ other.now) }
        ensures cmp { result ≡ next_cmp self.now other.now }
    {
        match self {
            Next::Item { occ, to } => match other {
                Next::Item {
                    occ: other_occ,
                    to: other_to,
                } => occ.cmp(other_occ).then(to.cmp(other_to)),
                Next::End => Ordering::Less,
            },
            Next::End => match other {
                Next::Item { .. } => Ordering::Greater,
                Next::End => Ordering::Equal,
            },
        }
    }
}
