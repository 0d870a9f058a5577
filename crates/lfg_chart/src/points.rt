ghost use Rattle.std.specs.Prelude.{◌≡◌, ◌↔◌, ◌⊎◌, ℕ, ◌+◌, ◌<◌, ◌≤◌, Some, IfOk, OnOk, length, slice_get};
ghost use Rattle.lfg_chart.specs.Filling.{IsRule};
ghost use Rattle.lfg_chart.specs.Points.{AreEdges, ArePoints, Collects, IsEdgeOf, IsPointBehind, IsPointFrom, IsPointOf, SpanWithin};
ghost use Rattle.lfg_chart.specs.Tables.{HasRows, Holds, IsRow};
ghost use Rattle.lfg_chart.specs.declared.kept.Span.{Span};
ghost use Rattle.lfg_chart.specs.declared.table.Row.TheVariants.{Whole, Read, Left};
ghost use Rattle.lfg_model.specs.Lists.{In};
ghost use Rattle.lfg_model.specs.declared.point.Point.{Point};
ghost use Rattle.lfg_terms.specs.declared.node.Edge.{Edge};

use crate::kept::Span;
use crate::links::RuleLinks;
use crate::table::{Row, Table};
use lfg_model::Point;
use lfg_terms::{Edge, Name};
use std::alloc::{AllocError, Global};

/// The edge with its category's name.
pub(crate) fn edge_of(cats: &[Name], span: Span) -> Result<Edge, AllocError>
    requires { SpanWithin (length cats.now) 128 span }
    ensures { IfOk result (IsEdgeOf cats.now span) }
{
    Ok(Edge {
        cat: cats[span.cat].clone()?,
        from: span.from as u32,
        to: span.to as u32,
    })
}

/// Adds the points of an edge behind an item.
fn add_points_behind(
    cats: &[Name],
    table: &Table,
    span: Span,
    before: u32,
    points: &mut Vec<Point>,
) -> Result<(), AllocError>
    requires span { SpanWithin (length cats.now) table.now.size span }
    requires few { table.now.size ≤ 128 }
    requires read { IsRow table.now (Read span.cat before) }
    requires left { IsRow table.now (Left span.cat before) }
    ensures { OnOk result (Collects points.old.items points.new.items (IsPointBehind cats.now table.now span before table.now.size)) }
{
    let reads = table.places(
        Row::Read {
            cat: span.cat,
            item: before,
        },
        span.from,
    );
    let left = Row::Left {
        cat: span.cat,
        item: before,
    };
    for at in 0..table.size() {
        if reads.has(at) && table.places(left, at).has(span.to) {
            let edge = edge_of(cats, span)?;
            points.push(Point {
                edge,
                occ: before,
                at: at as u32,
            })?;
        }
    }
    Ok(())
}

/// Adds the points of an edge.
fn add_points_of(
    rules: &[Option<RuleLinks>],
    cats: &[Name],
    table: &Table,
    span: Span,
    points: &mut Vec<Point>,
) -> Result<(), AllocError>
    requires span { SpanWithin (length cats.now) table.now.size span }
    requires length { length rules.now ≡ length cats.now }
    requires few { table.now.size ≤ 128 }
    requires rows { HasRows rules.now table.now }
    ensures { OnOk result (Collects points.old.items points.new.items (IsPointOf rules.now cats.now table.now span)) }
{
    if let Some(rule) = &rules[span.cat] {
        add_points_behind(cats, table, span, 0, points)?;
        for before in 0..rule.size {
            add_points_behind(cats, table, span, before + 1, points)?;
        }
    }
    Ok(())
}

/// The points of edges, in no order.
pub(crate) fn points_of(
    alloc: Global,
    rules: &[Option<RuleLinks>],
    cats: &[Name],
    table: &Table,
    spans: &[Span],
) -> Result<Vec<Point>, AllocError>
    requires spans { (span : Span) → In span spans.now → SpanWithin (length cats.now) table.now.size span }
    requires length { length rules.now ≡ length cats.now }
    requires few { table.now.size ≤ 128 }
    requires rows { HasRows rules.now table.now }
    ensures { IfOk result (λ points. (point : Point) → In point points.items ↔ ArePoints rules.now cats.now table.now spans.now point) }
{
    let mut points = Vec::new(alloc);
    for span in spans {
        add_points_of(rules, cats, table, *span, &mut points)?;
    }
    Ok(points)
}

/// Edges with the names of their categories, in no order.
pub(crate) fn edges_of(
    alloc: Global,
    cats: &[Name],
    spans: &[Span],
) -> Result<Vec<Edge>, AllocError>
    requires { (span : Span) → In span spans.now → SpanWithin (length cats.now) 128 span }
    ensures { IfOk result (λ edges. (edge : Edge) → In edge edges.items ↔ AreEdges cats.now spans.now edge) }
{
    let mut edges = Vec::new(alloc);
    for span in spans {
        edges.push(edge_of(cats, *span)?)?;
    }
    Ok(edges)
}
