ghost use Rattle.std.specs.Prelude.{◌≡◌, ◌<◌, Some, IfOk, OnOk, length, slice_get};
ghost use Rattle.lfg_model.specs.Charts.{points_of};
ghost use Rattle.lfg_instant.specs.Collects.{Collects};
ghost use Rattle.lfg_instant.specs.Steps.{IsStepAt, AreSteps, IsWordAt, AreWordsOf};

use lfg_chart::Chart;
use lfg_model::{Next, Point};
use lfg_terms::{Edge, List};
use std::alloc::{AllocError, Global};

/// A way to go on at a point of a chart over an item.
#[derive(Debug, Drop)]
pub(crate) struct Step {
    /// The place of the point among the chart's, counted from 0.
    pub(crate) place: usize,
    pub(crate) point: Point,
    /// The number of this way among those at the point, counted from 0, and how many there are.
    pub(crate) number: usize,
    pub(crate) of: usize,
    /// The item's number in its rule, counted from 1, and its end.
    pub(crate) occ: u32,
    pub(crate) to: u32,
}

/// An edge of a chart with one of its lexicon entries.
#[derive(Debug, Drop)]
pub(crate) struct Word {
    /// The place of the edge among the chart's, counted from 0.
    pub(crate) place: usize,
    pub(crate) edge: Edge,
    /// The number of this entry among those of the edge, counted from 0, and how many there are.
    pub(crate) number: usize,
    pub(crate) of: usize,
    /// The entry's place in the lexicon, counted from 0.
    pub(crate) entry: u32,
}

/// Adds the steps at a point.
fn add_steps(
    place: usize,
    point: &Point,
    ways: &[Next],
    steps: &mut Vec<Step>,
) -> Result<(), AllocError>
    ensures { OnOk result (Collects steps.old.items steps.new.items (IsStepAt place point.now ways.now)) }
{
    for (number, way) in ways.iter().enumerate() {
        if let Next::Item { occ, to } = *way {
            steps.push(Step {
                place,
                point: point.clone()?,
                number,
                of: ways.len(),
                occ,
                to,
            })?;
        }
    }
    Ok(())
}

/// The steps of a chart.
pub(crate) fn steps_of(alloc: Global, chart: &Chart) -> Result<Vec<Step>, AllocError>
    ensures { IfOk result (λ steps. AreSteps chart.now.forks steps.items) }
{
    let mut steps = Vec::new(alloc);
    let points = chart.points();
    for (place, point) in points.iter().enumerate() {
        add_steps(place, point, chart.alternatives_at(place), &mut steps)?;
    }
    Ok(steps)
}

/// Adds the words of an edge.
fn add_words(
    place: usize,
    edge: &Edge,
    entries: &[u32],
    words: &mut Vec<Word>,
) -> Result<(), AllocError>
    ensures { OnOk result (Collects words.old.items words.new.items (IsWordAt place edge.now entries.now)) }
{
    for (number, entry) in entries.iter().enumerate() {
        words.push(Word {
            place,
            edge: edge.clone()?,
            number,
            of: entries.len(),
            entry: *entry,
        })?;
    }
    Ok(())
}

/// The words of some edges with their entries.
pub(crate) fn words_of(
    alloc: Global,
    edges: &[Edge],
    lists: &[List<u32>],
) -> Result<Vec<Word>, AllocError>
    requires { length lists.now ≡ length edges.now }
    ensures { IfOk result (λ words. AreWordsOf edges.now lists.now words.items) }
{
    let mut words = Vec::new(alloc);
    for (place, edge) in edges.iter().enumerate() {
        add_words(place, edge, lists[place].list(), &mut words)?;
    }
    Ok(words)
}
