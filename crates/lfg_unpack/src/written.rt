ghost use Rattle.std.specs.Prelude.{◌≡◌, IfOk, refl};
ghost use Rattle.std.specs.Cmp.{partial_order_from_total, partial_equiv_from_equiv};
ghost use Rattle.std.specs.Ordering.{as_partial_cmp, eq_by_cmp};
ghost use Rattle.std.proofs.lemmas.Cmp.{eq_by_cmp_equiv};
ghost use Rattle.lfg_model.specs.Lists.{In, Lists};
ghost use Rattle.lfg_model.specs.PairTexts.{pair_cmp};
ghost use Rattle.lfg_model.proofs.ReadingLaws.{pair_cmp_total};
ghost use Rattle.lfg_unpack.specs.Plain.{ArePlain};

use crate::texts::pair_text;
use lfg_model::Pair;
use std::alloc::{AllocError, Global};
use std::cmp::Ordering;
use std::marker::Model;

/// A pair with its text, by which pairs are ordered. Contracts see the pair.
#[derive(Drop)]
pub(crate) struct Written {
    text: Vec<u8>,
    pair: Pair,
}

impl Model for Written {
    ghost use Rattle.std.specs.Prelude.{◌≡◌};
    ghost use Rattle.lfg_model.specs.declared.pair.Pair.{Pair};
    ghost use Rattle.lfg_model.specs.PairTexts.{pair_text};

    ghost Value = { Pair };

    ghost use Rattle.std.specs.Coded.{codes};
    ghost use Rattle.lfg_model.specs.contracts.pair.Pair as pair_type;

    ghost coded = { Prim.hlevel (codes, pair_type.the_row.coded) };

    ghost view = { λ w. w.pair };

    ghost invariant = { λ w. w.text.items ≡ pair_text w.pair };
}

impl Written {
    /// The pair with its text.
    pub(crate) fn new(alloc: Global, pair: Pair) -> Result<Written, AllocError>
        requires { ArePlain pair.facts }
        ensures { IfOk result (λ written. written ≡ pair) }
    {
        let text = pair_text(alloc, &pair)?;
        Ok(Written { text, pair })
    }
}

impl PartialEq for Written {
    ghost eq = { eq_by_cmp pair_cmp };

    ghost laws = { partial_equiv_from_equiv (eq_by_cmp_equiv pair_cmp_total) };

    fn eq(&self, other: &Written) -> bool {
        self.cmp(other).is_eq()
    }
}

impl Eq for Written {
    ghost laws = { eq_by_cmp_equiv pair_cmp_total };
}

impl PartialOrd for Written {
    ghost partial_cmp = { as_partial_cmp pair_cmp };

    ghost laws = { partial_order_from_total pair_cmp_total };

    fn partial_cmp(&self, other: &Written) -> Option<Ordering> {
        Some(self.cmp(other))
    }
}

impl Ord for Written {
    ghost cmp = { pair_cmp };

    ghost total = { pair_cmp_total };

    ghost matches_partial_cmp = { λ x y. refl };

    ghost matches_eq = { λ x y. refl };

    fn cmp(&self, other: &Written) -> Ordering {
        let texts = self.text.as_slice().cmp(other.text.as_slice());
        let trees = self.pair.tree.list().cmp(other.pair.tree.list());
        let facts = self.pair.facts.list().cmp(other.pair.facts.list());
        texts.then(trees.then(facts))
    }
}

/// The pairs in order, each once.
fn sorted(mut written: Vec<Written>) -> Result<Vec<Written>, AllocError>
    ensures { IfOk result (λ set. Lists pair_cmp (λ p. In p written.items) set.items) }
{
    written.sort()?;
    written.dedup();
    Ok(written)
}

/// The pairs without their texts, in order, each once.
pub(crate) fn sorted_pairs(alloc: Global, written: Vec<Written>) -> Result<Vec<Pair>, AllocError>
    ensures { IfOk result (λ pairs. Lists pair_cmp (λ p. In p written.items) pairs.items) }
{
    let mut pairs = Vec::new(alloc);
    for written in sorted(written)? {
        pairs.push(written.pair)?;
    }
    Ok(pairs)
}
