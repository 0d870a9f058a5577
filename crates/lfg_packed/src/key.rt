ghost use Rattle.std.specs.Prelude.{◌≡◌, ◌↔◌, IsTrue, refl};
ghost use Rattle.std.specs.Cmp.{partial_order_from_total, partial_equiv_from_equiv};
ghost use Rattle.std.specs.Ordering.{as_partial_cmp, eq_by_cmp};
ghost use Rattle.std.proofs.lemmas.Cmp.{eq_by_cmp_equiv};
ghost use Rattle.lfg_packed.specs.ChoicePoints.{key_cmp};
ghost use Rattle.lfg_packed.specs.KeyLaws.{key_cmp_total};

use lfg_terms::Edge;
use std::cmp::Ordering;

/// Where a choice stands in the order of a sentence's choices: keys are compared part by part.
#[derive(Debug, Drop)]
pub struct ChoiceKey {
    /// The edge at which derivations part.
    pub edge: Edge,
    /// 0 for the way to go on at a point, 1 for an entry, 2 for a place in an item's annotation, 3 for
    /// one in an entry's.
    pub rank: u32,
    /// The token at which the point or item is, counted from 0; for a place in an entry's annotation
    /// the place of the entry's form among the token's forms. 0 where there is none.
    pub from: u32,
    /// The end of the item. 0 where there is none.
    pub to: u32,
    /// The item's number in its rule, counted from 1, or the entry's in the lexicon, counted from 0; at
    /// a point the number of the item that was read last. 0 where there is none.
    pub item: u32,
    /// The place in the annotation, counted from 0. 0 where there is none.
    pub place: u32,
}

impl PartialEq for ChoiceKey {
    ghost eq = { eq_by_cmp key_cmp };

    ghost laws = { partial_equiv_from_equiv (eq_by_cmp_equiv key_cmp_total) };

    #[tactic(auto, using(crate::proofs::KeyTies::key_eq_same))]
    fn eq(&self, other: &ChoiceKey) -> bool
        ensures same { IsTrue result ↔ (self.now ≡ other.now) }
        ensures eq { result ≡ eq_by_cmp key_cmp self.now other.now }
    {
        self.cmp(other).is_eq()
    }
}

impl Eq for ChoiceKey {
    ghost laws = { eq_by_cmp_equiv key_cmp_total };
}

impl PartialOrd for ChoiceKey {
    ghost partial_cmp = { as_partial_cmp key_cmp };

    ghost laws = { partial_order_from_total key_cmp_total };

    fn partial_cmp(&self, other: &ChoiceKey) -> Option<Ordering> {
        Some(self.cmp(other))
    }
}

impl Ord for ChoiceKey {
    ghost cmp = { key_cmp };

    ghost total = { key_cmp_total };

    ghost matches_partial_cmp = { λ x y. refl };

    ghost matches_eq = { λ x y. refl };

    #[tactic(auto, using(crate::proofs::KeyTies::key_cmp_same))]
    fn cmp(&self, other: &ChoiceKey) -> Ordering
        ensures same { (result ≡ Ordering.Equal) ↔ (self.now ≡ other.now) }
        ensures cmp { result ≡ key_cmp self.now other.now }
    {
        self.edge
            .cmp(&other.edge)
            .then(self.rank.cmp(&other.rank))
            .then(self.from.cmp(&other.from))
            .then(self.to.cmp(&other.to))
            .then(self.item.cmp(&other.item))
            .then(self.place.cmp(&other.place))
    }
}
