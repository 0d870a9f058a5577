ghost use Rattle.std.specs.Prelude.{◌≡◌, ℕ, ◌+◌, ◌*◌, ◌^◌, ◌<◌, ◌≤◌, IfOk, length};
ghost use Rattle.std.specs.List.Sorted.{IsStrictlySortedBy};
ghost use Rattle.lfg_chart.specs.Chart.{AreForks};
ghost use Rattle.lfg_chart.specs.Filling.{Ready};
ghost use Rattle.lfg_chart.specs.Meaning.{IsTableOf};
ghost use Rattle.lfg_chart.specs.Numbers.{AreRulesOf, IsNumbered, item_total};
ghost use Rattle.lfg_chart.specs.Tables.{HasRows};
ghost use Rattle.lfg_model.specs.Charts.{IsChart};
ghost use Rattle.lfg_model.specs.Kept.{IsFillable};
ghost use Rattle.lfg_model.specs.Lists.{In, Lists};
ghost use Rattle.lfg_model.specs.Loaded.{Loaded};
ghost use Rattle.lfg_model.specs.Points.{point_cmp};
ghost use Rattle.lfg_model.specs.declared.point.Point.{Point};
ghost use Rattle.lfg_terms.specs.Order.{edge_cmp, name_cmp};

use crate::fill::fill;
use crate::kept::kept;
use crate::layout::Chart;
use crate::links::{RuleLinks, number_of};
use crate::nexts::nexts_of;
use crate::points::{edges_of, points_of};
use crate::rules::rules_of;
use crate::table::Table;
use crate::words::add_words;
use lfg_model::{Next, Point};
use lfg_terms::{Edge, Grammar, List, Name, Steps, TokenForms};
use std::alloc::{AllocError, Global};
use std::sync::ledger::Ledger;

/// Edges in order, each once.
fn sorted_edges(mut edges: Vec<Edge>) -> Result<Vec<Edge>, AllocError>
    ensures { IfOk result (λ set. Lists edge_cmp (λ e. In e edges.items) set.items) }
{
    edges.sort()?;
    edges.dedup();
    Ok(edges)
}

/// Points in order, each once.
fn sorted_points(mut points: Vec<Point>) -> Result<Vec<Point>, AllocError>
    ensures { IfOk result (λ set. Lists point_cmp (λ p. In p points.items) set.items) }
{
    points.sort()?;
    points.dedup();
    Ok(points)
}

/// The filled table of a sentence.
fn filled(
    alloc: Global,
    grammar: &Grammar,
    tokens: &[TokenForms],
    rules: &[Option<RuleLinks>],
) -> Result<Table, AllocError>
    requires numbered { IsNumbered grammar.now }
    requires rules { AreRulesOf grammar.now.cats grammar.now.rules rules.now }
    requires tokens { length tokens.now ≤ 64 }
    ensures table { IfOk result (IsTableOf grammar.now tokens.now) }
    ensures ready { IfOk result (Ready rules.now) }
    ensures rows { IfOk result (HasRows rules.now) }
{
    let mut table = Table::new(alloc, rules, tokens.len() + 1)?;
    let cats = grammar.cats.list();
    add_words(rules, cats, grammar.lexicon.list(), tokens, &mut table);
    fill(rules, &mut table);
    Ok(table)
}

/// The ways to go on at each of the points.
fn all_nexts(
    alloc: Global,
    rules: &[Option<RuleLinks>],
    cats: &[Name],
    table: &Table,
    points: &[Point],
) -> Result<Vec<List<Next>>, AllocError>
    requires ready { Ready rules.now table.now }
    requires ordered { IsStrictlySortedBy name_cmp cats.now }
    requires length { length rules.now ≡ length cats.now }
    requires known { (p : Point) → In p points.now → In p.edge.cat cats.now }
    requires at { (p : Point) → In p points.now → p.at < table.now.size }
    requires to { (p : Point) → In p points.now → p.edge.to < table.now.size }
    ensures { IfOk result (λ nexts. AreForks rules.now cats.now table.now points.now nexts.items) }
{
    let mut nexts = Vec::new(alloc);
    for point in points {
        nexts.push(nexts_of(alloc, rules, cats, table, point)?)?;
    }
    Ok(nexts)
}

/// The chart of a sentence by the links of the grammar's rules.
fn chart_of(
    alloc: Global,
    grammar: &Grammar,
    tokens: &[TokenForms],
    rules: &[Option<RuleLinks>],
) -> Result<Chart, AllocError>
    requires numbered { IsNumbered grammar.now }
    requires fillable { IsFillable grammar.now }
    requires rules { AreRulesOf grammar.now.cats grammar.now.rules rules.now }
    requires tokens { length tokens.now ≤ 64 }
    ensures { IfOk result (λ chart. IsChart grammar.now tokens.now chart.edges chart.forks) }
{
    let table = filled(alloc, grammar, tokens, rules)?;
    let cats = grammar.cats.list();
    let root = number_of(cats, &grammar.root);
    let spans = kept(alloc, rules, &table, root, table.cleared(alloc)?)?;
    let edges = sorted_edges(edges_of(alloc, cats, &spans)?)?;
    let points = sorted_points(points_of(alloc, rules, cats, &table, &spans)?)?;
    let nexts = all_nexts(alloc, rules, cats, &table, &points)?;
    Ok(Chart {
        edges,
        points,
        nexts,
    })
}

/// The chart of a sentence by a grammar whose categories have numbers.
pub(crate) fn chart_by<L: Ledger>(
    alloc: Global,
    grammar: &Grammar,
    tokens: &[TokenForms],
    steps: &mut Steps<L>,
) -> Result<Chart, AllocError>
    requires numbered { IsNumbered grammar.now }
    requires fillable { IsFillable grammar.now }
    requires tokens { length tokens.now ≤ 64 }
    ensures chart { IfOk result (λ chart. IsChart grammar.now tokens.now chart.edges chart.forks) }
    ensures steps { steps.new ≤ steps.old + (4 * (length tokens.now + 1) ^ 3) * (item_total grammar.now + 1) ^ 2 }
{
    let rules = rules_of(alloc, grammar.cats.list(), grammar.rules.list(), steps)?;
    chart_of(alloc, grammar, tokens, &rules)
}

/// The chart of a sentence by a grammar.
///
/// Edges are built from the words up by the graphs of the rules, and what no whole derivation has
/// is left out. No derivation is listed. Each pair of items of a rule is asked for once by
/// `follows`; nothing else ticks.
///
/// # Errors
///
/// Only for want of memory.
pub fn chart<L: Ledger>(
    alloc: Global,
    grammar: &Grammar,
    tokens: &[TokenForms],
    steps: &mut Steps<L>,
) -> Result<Chart, AllocError>
    requires loaded { Loaded grammar.now }
    requires tokens { length tokens.now ≤ 64 }
    ensures chart { IfOk result (λ chart. IsChart grammar.now tokens.now chart.edges chart.forks) }
    ensures steps { steps.new ≤ steps.old + (4 * (length tokens.now + 1) ^ 3) * (item_total grammar.now + 1) ^ 2 }
{
    chart_by(alloc, grammar, tokens, steps)
}
