ghost use Rattle.std.specs.Prelude.{◌≡◌, ◌↔◌, ◌+◌, ◌<◌, ◌≤◌, [], ◌∷◌, Some, IfOk, OnOk, length, slice_get};
ghost use Rattle.lfg_model.specs.Lists.{In};
ghost use Rattle.lfg_model.specs.Spots.{point};
ghost use Rattle.lfg_instant.specs.Collects.{Collects};
ghost use Rattle.lfg_instant.specs.declared.flow.Passage.{Passage};
ghost use Rattle.lfg_instant.specs.Ways.{TheEdge, ThePoint, things_of, AreInOrder, Joins, JoinsOneOf, step_things, word_things, IsStart, IsOverStep, IsToEntry, ArePassages};

use crate::flow::Passage;
use crate::steps::{Step, Word};
use crate::ways::{Outline, add_point, edge_place, point_place, step_places, word_places};
use lfg_model::Point;
use lfg_terms::Edge;
use std::alloc::{AllocError, Global};

/// Adds a passage from one place to each of some places.
fn add_passages(
    from: usize,
    pick: usize,
    places: &[usize],
    passages: &mut Vec<Passage>,
) -> Result<(), AllocError>
    ensures { OnOk result (Collects passages.old.items passages.new.items (λ p. (p.from ≡ from) × (p.pick ≡ pick) × In p.to places.now)) }
{
    for place in places {
        passages.push(Passage {
            from,
            pick,
            to: *place,
        })?;
    }
    Ok(())
}

/// Adds the passages from one place, if it was found, to some others.
fn add_passages_from(
    from: Option<usize>,
    pick: usize,
    places: &[usize],
    passages: &mut Vec<Passage>,
) -> Result<(), AllocError>
    ensures { OnOk result (Collects passages.old.items passages.new.items (λ p. (from ≡ Some p.from) × (p.pick ≡ pick) × In p.to places.now)) }
{
    match from {
        None => Ok(()),
        Some(from) => add_passages(from, pick, places, passages),
    }
}

/// Adds the passage from an edge to the first point of its rule.
fn add_start(
    alloc: Global,
    outline: &Outline,
    edge: &Edge,
    passages: &mut Vec<Passage>,
) -> Result<(), AllocError>
    requires { AreInOrder outline.now.chart.now outline.now.keys.now outline.now.facts.now }
    ensures { OnOk result (Collects passages.old.items passages.new.items (Joins (things_of outline.now.chart.now outline.now.keys.now outline.now.facts.now) (TheEdge edge.now) (ThePoint (point edge.now 0 edge.now.from)) 0)) }
{
    let first = Point {
        edge: edge.clone()?,
        occ: 0,
        at: edge.from,
    };
    let mut places = Vec::new(alloc);
    add_point(outline, &first, &mut places)?;
    add_passages_from(edge_place(outline, edge), 0, &places, passages)
}

/// Adds the passages from the point of a step.
fn add_step(
    alloc: Global,
    outline: &Outline,
    step: &Step,
    pick: usize,
    passages: &mut Vec<Passage>,
) -> Result<(), AllocError>
    requires { AreInOrder outline.now.chart.now outline.now.keys.now outline.now.facts.now }
    ensures { OnOk result (Collects passages.old.items passages.new.items (JoinsOneOf (things_of outline.now.chart.now outline.now.keys.now outline.now.facts.now) (ThePoint step.now.point) (step_things outline.now.grammar.now outline.now.tokens.now step.now) pick)) }
{
    let places = step_places(alloc, outline, step)?;
    add_passages_from(point_place(outline, &step.point), pick, &places, passages)
}

/// Adds the passages from the edge of a word.
fn add_word(
    alloc: Global,
    outline: &Outline,
    word: &Word,
    pick: usize,
    passages: &mut Vec<Passage>,
) -> Result<(), AllocError>
    requires { AreInOrder outline.now.chart.now outline.now.keys.now outline.now.facts.now }
    ensures { OnOk result (Collects passages.old.items passages.new.items (JoinsOneOf (things_of outline.now.chart.now outline.now.keys.now outline.now.facts.now) (TheEdge word.now.edge) (word_things outline.now.grammar.now outline.now.tokens.now word.now) pick)) }
{
    let places = word_places(alloc, outline, word)?;
    add_passages_from(edge_place(outline, &word.edge), pick, &places, passages)
}

/// Adds the passages from all edges to the first points of their rules.
fn add_starts(
    alloc: Global,
    outline: &Outline,
    passages: &mut Vec<Passage>,
) -> Result<(), AllocError>
    requires { AreInOrder outline.now.chart.now outline.now.keys.now outline.now.facts.now }
    ensures { OnOk result (Collects passages.old.items passages.new.items (IsStart (things_of outline.now.chart.now outline.now.keys.now outline.now.facts.now) outline.now.chart.now.edges)) }
{
    for edge in outline.chart.edges() {
        add_start(alloc, outline, edge, passages)?;
    }
    Ok(())
}

/// Adds the passages of all steps, whose picks are numbered from `first` on.
fn add_steps(
    alloc: Global,
    outline: &Outline,
    steps: &[Step],
    first: usize,
    passages: &mut Vec<Passage>,
) -> Result<(), AllocError>
    requires order { AreInOrder outline.now.chart.now outline.now.keys.now outline.now.facts.now }
    requires fit { first + length steps.now < 18446744073709551616 }
    ensures { OnOk result (Collects passages.old.items passages.new.items (IsOverStep outline.now.grammar.now outline.now.tokens.now (things_of outline.now.chart.now outline.now.keys.now outline.now.facts.now) steps.now first)) }
{
    for (number, step) in steps.iter().enumerate() {
        add_step(alloc, outline, step, first + number, passages)?;
    }
    Ok(())
}

/// Adds the passages of all words, whose picks are numbered from `first` on.
fn add_words(
    alloc: Global,
    outline: &Outline,
    words: &[Word],
    first: usize,
    passages: &mut Vec<Passage>,
) -> Result<(), AllocError>
    requires order { AreInOrder outline.now.chart.now outline.now.keys.now outline.now.facts.now }
    requires fit { first + length words.now < 18446744073709551616 }
    ensures { OnOk result (Collects passages.old.items passages.new.items (IsToEntry outline.now.grammar.now outline.now.tokens.now (things_of outline.now.chart.now outline.now.keys.now outline.now.facts.now) words.now first)) }
{
    for (number, word) in words.iter().enumerate() {
        add_word(alloc, outline, word, first + number, passages)?;
    }
    Ok(())
}

/// For each edge, and then for each point, the place of the edge.
fn edge_places(alloc: Global, outline: &Outline) -> Result<Vec<usize>, AllocError> {
    let mut places = Vec::new(alloc);
    for place in 0..outline.chart.edges().len() {
        places.push(place)?;
    }
    for point in outline.chart.points() {
        places.push(edge_place(outline, &point.edge).unwrap_or(0))?;
    }
    Ok(places)
}

/// The same passages, those of one edge after the other. So they mostly lead down from the root, and
/// few rounds over them are enough: only an edge over the whole span of its mother may come first.
fn downwards(
    alloc: Global,
    outline: &Outline,
    passages: Vec<Passage>,
) -> Result<Vec<Passage>, AllocError>
    ensures { IfOk result (λ sorted. (p : Passage) → In p sorted.items ↔ In p passages.items) }
{
    let places = edge_places(alloc, outline)?;
    let mut sorted = passages;
    sorted.sort_by(|one, other| places.get(one.from).cmp(&places.get(other.from)))?;
    Ok(sorted)
}

/// All passages of a sentence.
pub(crate) fn passages_of(
    alloc: Global,
    outline: &Outline,
    steps: &[Step],
    words: &[Word],
) -> Result<Vec<Passage>, AllocError>
    requires order { AreInOrder outline.now.chart.now outline.now.keys.now outline.now.facts.now }
    requires fit { 1 + length steps.now + length words.now < 18446744073709551616 }
    ensures { IfOk result (λ passages. ArePassages outline.now.grammar.now outline.now.tokens.now (things_of outline.now.chart.now outline.now.keys.now outline.now.facts.now) outline.now.chart.now.edges steps.now words.now passages.items) }
{
    let mut passages = Vec::new(alloc);
    add_starts(alloc, outline, &mut passages)?;
    add_steps(alloc, outline, steps, 1, &mut passages)?;
    add_words(alloc, outline, words, 1 + steps.len(), &mut passages)?;
    let sorted = downwards(alloc, outline, passages)?;
    Ok(sorted)
}
