ghost use Rattle.std.specs.Prelude.{◌≡◌, [], ◌∷◌, Some, IfNone, IfSome, IfOk, OnOk, map, slice_get};
ghost use Rattle.std.specs.List.Sorted.{IsStrictlySortedBy};
ghost use Rattle.lfg_model.specs.Lists.{In};
ghost use Rattle.lfg_packed.specs.ChoicePoints.{key_cmp};
ghost use Rattle.lfg_terms.specs.Order.{fact_cmp};
ghost use Rattle.lfg_model.specs.Spots.{point};
ghost use Rattle.lfg_packed.specs.SpotFacts.{category_at};
ghost use Rattle.lfg_instant.specs.Collects.{Collects};
ghost use Rattle.lfg_instant.specs.Facts.{as_list};
ghost use Rattle.lfg_instant.specs.Ways.{TheEdge, ThePoint, TheSite, TheFact, things_of, IsPlaceOf, IsPlaceIn, ArePlacesOf, AreInOrder, daughters, step_things, word_things};

use crate::facts::{item_at, items_of, under_fact, word_fact};
use crate::sites::{entry_key, item_key};
use crate::steps::{Step, Word};
use lfg_chart::Chart;
use lfg_model::Point;
use lfg_packed::ChoiceKey;
use lfg_terms::{Edge, Fact, Grammar, TokenForms};
use std::alloc::{AllocError, Global};

/// A sentence with its chart, the keys of its items and entries, and the facts of its trees. Each of
/// these things has a place, counted from 0: first the edges, then the points, the keys, the facts.
#[derive(Drop)]
pub(crate) struct Outline<'a> {
    pub(crate) grammar: &'a Grammar,
    pub(crate) tokens: &'a [TokenForms],
    pub(crate) chart: &'a Chart,
    pub(crate) keys: &'a [ChoiceKey],
    pub(crate) facts: &'a [Fact],
}

/// The place of a key among some keys.
fn key_position(keys: &[ChoiceKey], key: &ChoiceKey) -> Option<usize>
    ensures found { IfSome result (λ place. slice_get keys.now place ≡ Some key.now) }
    ensures absent { IfNone result (IsStrictlySortedBy key_cmp keys.now → ¬ In key.now keys.now) }
{
    keys.binary_search(key).ok()
}

/// The place of a fact among some facts.
fn fact_position(facts: &[Fact], fact: &Fact) -> Option<usize>
    ensures found { IfSome result (λ place. slice_get facts.now place ≡ Some fact.now) }
    ensures absent { IfNone result (IsStrictlySortedBy fact_cmp facts.now → ¬ In fact.now facts.now) }
{
    facts.binary_search(fact).ok()
}

/// The place of an edge.
pub(crate) fn edge_place(outline: &Outline, edge: &Edge) -> Option<usize>
    ensures { IsPlaceOf (things_of outline.now.chart.now outline.now.keys.now outline.now.facts.now) (TheEdge edge.now) result }
{
    match outline.chart.place_of_edge(edge) {
        None => None,
        Some(place) => Some(place),
    }
}

/// The place of a point.
pub(crate) fn point_place(outline: &Outline, point: &Point) -> Option<usize>
    requires { AreInOrder outline.now.chart.now outline.now.keys.now outline.now.facts.now }
    ensures { IsPlaceOf (things_of outline.now.chart.now outline.now.keys.now outline.now.facts.now) (ThePoint point.now) result }
{
    match outline.chart.place_of_point(point) {
        None => None,
        Some(place) => Some(outline.chart.edges().len() + place),
    }
}

/// The place of an item or entry by its key.
fn site_place(outline: &Outline, key: &ChoiceKey) -> Option<usize>
    requires { AreInOrder outline.now.chart.now outline.now.keys.now outline.now.facts.now }
    ensures { IsPlaceOf (things_of outline.now.chart.now outline.now.keys.now outline.now.facts.now) (TheSite key.now) result }
{
    match key_position(outline.keys, key) {
        None => None,
        Some(place) => Some(outline.chart.edges().len() + outline.chart.points().len() + place),
    }
}

/// The place of a fact.
fn fact_place(outline: &Outline, fact: &Fact) -> Option<usize>
    requires { AreInOrder outline.now.chart.now outline.now.keys.now outline.now.facts.now }
    ensures { IsPlaceOf (things_of outline.now.chart.now outline.now.keys.now outline.now.facts.now) (TheFact fact.now) result }
{
    match fact_position(outline.facts, fact) {
        None => None,
        Some(place) => {
            let before = outline.chart.edges().len() + outline.chart.points().len();
            Some(before + outline.keys.len() + place)
        }
    }
}

/// Adds a place that was found.
fn add_place(place: Option<usize>, places: &mut Vec<usize>) -> Result<(), AllocError>
    ensures { OnOk result (Collects places.old.items places.new.items (λ i. place ≡ Some i)) }
{
    if let Some(place) = place {
        places.push(place)?;
    }
    Ok(())
}

/// Adds the place of an edge, if one was found.
fn add_edge(
    outline: &Outline,
    found: Option<Edge>,
    places: &mut Vec<usize>,
) -> Result<(), AllocError>
    requires { AreInOrder outline.now.chart.now outline.now.keys.now outline.now.facts.now }
    ensures { OnOk result (Collects places.old.items places.new.items (IsPlaceIn (things_of outline.now.chart.now outline.now.keys.now outline.now.facts.now) (map TheEdge (as_list found)))) }
{
    match found {
        None => Ok(()),
        Some(edge) => add_place(edge_place(outline, &edge), places),
    }
}

/// Adds the place of a point.
pub(crate) fn add_point(
    outline: &Outline,
    point: &Point,
    places: &mut Vec<usize>,
) -> Result<(), AllocError>
    requires { AreInOrder outline.now.chart.now outline.now.keys.now outline.now.facts.now }
    ensures { OnOk result (Collects places.old.items places.new.items (IsPlaceIn (things_of outline.now.chart.now outline.now.keys.now outline.now.facts.now) (ThePoint point.now ∷ []))) }
{
    add_place(point_place(outline, point), places)
}

/// Adds the place of an item or entry.
fn add_site(outline: &Outline, key: &ChoiceKey, places: &mut Vec<usize>) -> Result<(), AllocError>
    requires { AreInOrder outline.now.chart.now outline.now.keys.now outline.now.facts.now }
    ensures { OnOk result (Collects places.old.items places.new.items (IsPlaceIn (things_of outline.now.chart.now outline.now.keys.now outline.now.facts.now) (TheSite key.now ∷ []))) }
{
    add_place(site_place(outline, key), places)
}

/// Adds the place of a fact, if one was found.
fn add_fact(
    outline: &Outline,
    found: Option<Fact>,
    places: &mut Vec<usize>,
) -> Result<(), AllocError>
    requires { AreInOrder outline.now.chart.now outline.now.keys.now outline.now.facts.now }
    ensures { OnOk result (Collects places.old.items places.new.items (IsPlaceIn (things_of outline.now.chart.now outline.now.keys.now outline.now.facts.now) (map TheFact (as_list found)))) }
{
    match found {
        None => Ok(()),
        Some(fact) => add_place(fact_place(outline, &fact), places),
    }
}

/// The daughter's edge over which the step goes; none for `e`.
fn daughter(grammar: &Grammar, step: &Step) -> Result<Option<Edge>, AllocError>
    ensures { IfOk result (λ found. as_list found ≡ daughters step.now.point.at step.now.to (category_at grammar.now step.now.point.edge step.now.occ)) }
{
    let items = items_of(grammar, &step.point.edge.cat);
    let Some(item) = item_at(items, step.occ) else {
        return Ok(None);
    };
    let Some(cat) = &item.cat else {
        return Ok(None);
    };
    Ok(Some(Edge {
        cat: cat.clone()?,
        from: step.point.at,
        to: step.to,
    }))
}

/// The point behind the item of a step.
fn point_behind(step: &Step) -> Result<Point, AllocError>
    ensures { IfOk result (λ it. it ≡ point step.now.point.edge step.now.occ step.now.to) }
{
    Ok(Point {
        edge: step.point.edge.clone()?,
        occ: step.occ,
        at: step.to,
    })
}

/// The places of what a step leads to.
pub(crate) fn step_places(
    alloc: Global,
    outline: &Outline,
    step: &Step,
) -> Result<Vec<usize>, AllocError>
    requires { AreInOrder outline.now.chart.now outline.now.keys.now outline.now.facts.now }
    ensures { IfOk result (λ places. ArePlacesOf (things_of outline.now.chart.now outline.now.keys.now outline.now.facts.now) (step_things outline.now.grammar.now outline.now.tokens.now step.now) places.items) }
{
    let mut places = Vec::new(alloc);
    add_point(outline, &point_behind(step)?, &mut places)?;
    add_site(outline, &item_key(step)?, &mut places)?;
    add_edge(outline, daughter(outline.grammar, step)?, &mut places)?;
    add_fact(
        outline,
        under_fact(alloc, outline.grammar, step)?,
        &mut places,
    )?;
    Ok(places)
}

/// The places of what a word leads to.
pub(crate) fn word_places(
    alloc: Global,
    outline: &Outline,
    word: &Word,
) -> Result<Vec<usize>, AllocError>
    requires { AreInOrder outline.now.chart.now outline.now.keys.now outline.now.facts.now }
    ensures { IfOk result (λ places. ArePlacesOf (things_of outline.now.chart.now outline.now.keys.now outline.now.facts.now) (word_things outline.now.grammar.now outline.now.tokens.now word.now) places.items) }
{
    let mut places = Vec::new(alloc);
    add_site(
        outline,
        &entry_key(outline.grammar, outline.tokens, word)?,
        &mut places,
    )?;
    add_fact(
        outline,
        word_fact(alloc, outline.tokens, &word.edge)?,
        &mut places,
    )?;
    Ok(places)
}
