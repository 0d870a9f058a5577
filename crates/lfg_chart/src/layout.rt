ghost use Rattle.std.specs.Prelude.{◌≡◌, ◌<◌, IfNone, IfSome, Some, length, slice_get};
ghost use Rattle.lfg_model.specs.Charts.{nexts_at, points_of};
ghost use Rattle.lfg_model.specs.Lists.{In};
ghost use Rattle.lfg_model.specs.declared.point.Point.{Point};

use lfg_model::{Next, Point};
use lfg_terms::{Edge, List};
use std::marker::Model;

/// The chart of a sentence: the edges of its whole derivations, their points, and the ways to go on
/// at each.
///
/// Contracts see it as its edges and its forks, a fork being a point with the ways to go on there.
/// Both lists are in order and have each thing once. A later layer can number edges and points by
/// their places in these lists: `place_of_edge` and `place_of_point` find a place in a number of
/// steps that grows with the logarithm of the length, and `alternatives_at` takes one step.
#[derive(Drop)]
pub struct Chart {
    pub(crate) edges: Vec<Edge>,
    pub(crate) points: Vec<Point>,
    pub(crate) nexts: Vec<List<Next>>,
}

impl Model for Chart {
    ghost use Rattle.lfg_chart.specs.Chart.{ChartForm, IsChartForm, forks_of};

    ghost Value = { ChartForm };

    ghost view = { λ it. record { edges = it.edges.items; forks = forks_of it.points.items it.nexts.items } };

    ghost invariant = { λ it. IsChartForm it.edges.items it.points.items it.nexts.items };
}

impl Chart {
    /// The edges of whole derivations, in order, each once. Takes no memory.
    pub fn edges(&self) -> &[Edge]
        ensures { result.now ≡ self.now.edges }
    {
        &self.edges
    }

    /// The points of whole derivations, in order, each once. Takes no memory.
    pub fn points(&self) -> &[Point]
        ensures { result.now ≡ points_of self.now.forks }
    {
        &self.points
    }

    /// The ways to go on at a point, in order, each once; none at a point that the chart has not.
    /// Takes no memory.
    pub fn alternatives(&self, point: &Point) -> &[Next]
        ensures { result.now ≡ nexts_at self.now.forks point.now }
    {
        match self.points.binary_search(point) {
            Ok(place) => self.nexts[place].list(),
            Err(_) => &[],
        }
    }

    /// The ways to go on at the point with this place among the points, counted from 0. Takes no
    /// memory.
    pub fn alternatives_at(&self, place: usize) -> &[Next]
        requires { place < length (points_of self.now.forks) }
        ensures { (point : Point) × (slice_get self.now.forks place ≡ Some (point, result.now)) }
    {
        self.nexts[place].list()
    }

    /// The place of an edge among the edges, counted from 0, if it is there. Takes no memory.
    pub fn place_of_edge(&self, edge: &Edge) -> Option<usize>
        ensures found { IfSome result (λ place. slice_get self.now.edges place ≡ Some edge.now) }
        ensures absent { IfNone result (¬ In edge.now self.now.edges) }
    {
        self.edges.binary_search(edge).ok()
    }

    /// The place of a point among the points, counted from 0, if it is there. Takes no memory.
    pub fn place_of_point(&self, point: &Point) -> Option<usize>
        ensures found { IfSome result (λ place. slice_get (points_of self.now.forks) place ≡ Some point.now) }
        ensures absent { IfNone result (¬ In point.now (points_of self.now.forks)) }
    {
        self.points.binary_search(point).ok()
    }
}
