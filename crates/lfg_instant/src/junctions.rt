ghost use Rattle.std.specs.Prelude.{◌≡◌, ◌↔◌, ℕ, ◌<◌, ◌≤◌, IsTrue, refl, Some, IfOk, OnOk, length, slice_get};
ghost use Rattle.std.specs.Cmp.{partial_order_from_total, partial_equiv_from_equiv};
ghost use Rattle.std.specs.Ordering.{as_partial_cmp, eq_by_cmp};
ghost use Rattle.std.proofs.lemmas.Cmp.{eq_by_cmp_equiv};
ghost use Rattle.lfg_model.specs.Terms.{annotation_of};
ghost use Rattle.lfg_model.specs.Places.{places};
ghost use Rattle.lfg_model.specs.Charts.{IsChart};
ghost use Rattle.lfg_model.specs.Derive.{rule_of, item_at};
ghost use Rattle.lfg_model.specs.Lists.{In, Lists};
ghost use Rattle.lfg_model.specs.Loaded.{Loaded};
ghost use Rattle.lfg_model.specs.Trees.{items_of, item_annotation, entry_annotation};
ghost use Rattle.lfg_packed.specs.Choices.{annotation_at};
ghost use Rattle.lfg_instant.specs.Sites.{AreEntryLists, site_of_key, AreSiteKeys};
ghost use Rattle.lfg_instant.specs.Collects.{Collects};
ghost use Rattle.lfg_instant.specs.Junctions.{IsJunction, IsNextJunction, IsEntryJunction, IsPlaceJunction, IsBranchJunction, AreJunctions};
ghost use Rattle.lfg_instant.specs.JunctionOrder.{junction_cmp, junction_cmp_total};

use crate::schemata::schemata_at;
use crate::sizes::place_arities;
use lfg_chart::Chart;
use lfg_packed::ChoiceKey;
use lfg_terms::{Edge, Grammar, Item, List, Name, Paths, Schema, TokenForms};
use std::alloc::{AllocError, Global};
use std::cmp::Ordering;

/// A choice of a sentence: the key of the place at which derivations part, and how many alternatives
/// there are.
#[derive(Debug, Drop)]
pub(crate) struct Junction {
    pub(crate) key: ChoiceKey,
    pub(crate) alternatives: u32,
}

impl PartialEq for Junction {
    ghost eq = { eq_by_cmp junction_cmp };

    ghost laws = { partial_equiv_from_equiv (eq_by_cmp_equiv junction_cmp_total) };

    #[tactic(auto, using(crate::proofs::JunctionTies::junction_eq_same))]
    fn eq(&self, other: &Junction) -> bool
        ensures same { IsTrue result ↔ (self.now ≡ other.now) }
        ensures eq { result ≡ eq_by_cmp junction_cmp self.now other.now }
    {
        self.cmp(other).is_eq()
    }
}

impl Eq for Junction {
    ghost laws = { eq_by_cmp_equiv junction_cmp_total };
}

impl PartialOrd for Junction {
    ghost partial_cmp = { as_partial_cmp junction_cmp };

    ghost laws = { partial_order_from_total junction_cmp_total };

    fn partial_cmp(&self, other: &Junction) -> Option<Ordering> {
        Some(self.cmp(other))
    }
}

impl Ord for Junction {
    ghost cmp = { junction_cmp };

    ghost total = { junction_cmp_total };

    ghost matches_partial_cmp = { λ x y. refl };

    ghost matches_eq = { λ x y. refl };

    #[tactic(auto, using(crate::proofs::JunctionTies::junction_cmp_same))]
    fn cmp(&self, other: &Junction) -> Ordering
        ensures same { (result ≡ Ordering.Equal) ↔ (self.now ≡ other.now) }
        ensures cmp { result ≡ junction_cmp self.now other.now }
    {
        self.key
            .cmp(&other.key)
            .then(self.alternatives.cmp(&other.alternatives))
    }
}

/// Adds the junction with this key, where there are two alternatives or more.
///
/// # Errors
///
/// For want of memory; and where a number is past 32 bits.
fn push_junction(
    key: ChoiceKey,
    many: usize,
    junctions: &mut Vec<Junction>,
) -> Result<(), AllocError>
    ensures { OnOk result (Collects junctions.old.items junctions.new.items (IsJunction key many)) }
{
    if many < 2 {
        return Ok(());
    }
    let Ok(alternatives) = u32::try_from(many) else {
        return Err(AllocError);
    };
    junctions.push(Junction { key, alternatives })?;
    Ok(())
}

/// Adds the ways to go on at the points of a chart.
fn next_junctions(chart: &Chart, junctions: &mut Vec<Junction>) -> Result<(), AllocError>
    ensures { OnOk result (Collects junctions.old.items junctions.new.items (IsNextJunction chart.now.forks)) }
{
    for (place, point) in chart.points().iter().enumerate() {
        let key = ChoiceKey {
            edge: point.edge.clone()?,
            rank: 0,
            from: point.at,
            to: 0,
            item: point.occ,
            place: 0,
        };
        push_junction(key, chart.alternatives_at(place).len(), junctions)?;
    }
    Ok(())
}

/// Adds the entries of some edges.
fn entry_junctions(
    edges: &[Edge],
    lists: &[List<u32>],
    junctions: &mut Vec<Junction>,
) -> Result<(), AllocError>
    requires { length lists.now ≡ length edges.now }
    ensures { OnOk result (Collects junctions.old.items junctions.new.items (IsEntryJunction edges.now lists.now)) }
{
    for (place, edge) in edges.iter().enumerate() {
        let key = ChoiceKey {
            edge: edge.clone()?,
            rank: 1,
            from: 0,
            to: 0,
            item: 0,
            place: 0,
        };
        push_junction(key, lists[place].list().len(), junctions)?;
    }
    Ok(())
}

/// Adds the numbered places of an annotation, with these numbers of alternatives.
fn place_junctions(
    key: &ChoiceKey,
    numbers: &[u32],
    junctions: &mut Vec<Junction>,
) -> Result<(), AllocError>
    ensures { OnOk result (Collects junctions.old.items junctions.new.items (IsPlaceJunction key.now numbers.now)) }
{
    for (place, many) in numbers.iter().enumerate() {
        let Ok(place) = u32::try_from(place) else {
            return Err(AllocError);
        };
        let at_place = ChoiceKey {
            edge: key.edge.clone()?,
            rank: key.rank,
            from: key.from,
            to: key.to,
            item: key.item,
            place,
        };
        push_junction(at_place, *many as usize, junctions)?;
    }
    Ok(())
}

/// How many alternatives each numbered place of the schemata has.
///
/// # Errors
///
/// For want of memory; and where a number is past 32 bits.
pub(crate) fn place_numbers(
    alloc: Global,
    schemata: &[Schema<Paths>],
) -> Result<Vec<u32>, AllocError>
    ensures { IfOk result (λ it. it.items ≡ places (annotation_of schemata.now)) }
{
    let numbers = place_arities(alloc, schemata)?;
    if numbers.contains(&u32::MAX) {
        return Err(AllocError);
    }
    Ok(numbers)
}

/// Adds the numbered places of the annotations of some items and entries.
fn branch_junctions(
    alloc: Global,
    grammar: &Grammar,
    keys: &[ChoiceKey],
    junctions: &mut Vec<Junction>,
) -> Result<(), AllocError>
    ensures { OnOk result (Collects junctions.old.items junctions.new.items (IsBranchJunction grammar.now keys.now)) }
{
    for (place, key) in keys.iter().enumerate() {
        let numbers = place_numbers(alloc, schemata_at(grammar, key))?;
        place_junctions(key, &numbers, junctions)?;
    }
    Ok(())
}

/// Sorts the junctions, and leaves each once.
fn sorted(mut junctions: Vec<Junction>) -> Result<Vec<Junction>, AllocError>
    ensures { IfOk result (λ js. Lists junction_cmp (λ j. In j junctions.items) js.items) }
{
    junctions.sort()?;
    junctions.dedup();
    Ok(junctions)
}

/// The choices of a sentence with this chart, where `lists` has the entries of each edge, and `keys`
/// the keys of all items and entries.
///
/// # Errors
///
/// For want of memory; and where a number is past 32 bits.
pub(crate) fn junctions_of(
    alloc: Global,
    grammar: &Grammar,
    tokens: &[TokenForms],
    chart: &Chart,
    lists: &[List<u32>],
    keys: &[ChoiceKey],
) -> Result<Vec<Junction>, AllocError>
    requires loaded { Loaded grammar.now }
    requires chart { IsChart grammar.now tokens.now chart.now.edges chart.now.forks }
    requires lists { AreEntryLists grammar.now tokens.now chart.now.edges lists.now }
    requires keys { AreSiteKeys grammar.now tokens.now keys.now }
    ensures { IfOk result (λ js. AreJunctions grammar.now tokens.now js.items) }
{
    let mut junctions = Vec::new(alloc);
    next_junctions(chart, &mut junctions)?;
    entry_junctions(chart.edges(), lists, &mut junctions)?;
    branch_junctions(alloc, grammar, keys, &mut junctions)?;
    let listed = sorted(junctions)?;
    Ok(listed)
}
