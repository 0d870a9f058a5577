//! Charts of lines by whole grammar files.

ghost use Rattle.std.specs.Prelude.{◌≡◌, ◌<◌, IfOk};
ghost use Rattle.lfg_model.specs.Charts.{IsChart};
ghost use Rattle.lfg_model.specs.Loaded.{Loaded};

use crate::files::{A, EN, L, P};
use crate::{ChartFault, Charted, chart_of};
use lfg_chart::{Chart, Next, Point};
use lfg_model::laws::loaded_grammars_keep_the_conditions;
use lfg_terms::{Edge, Grammar, Name, Steps};
use std::alloc::Global;
use std::marker::Brand;
use std::sync::ledger::{Blank, Ledger};
use std::test::Fail;

/// The chart of the line by the file, with a counter of steps. No `&str` stands in the signature,
/// since a caller could not choose the counter's ghost members beside one.
fn counted<K: Ledger>(
    alloc: Global,
    file: &[u8],
    line: &String,
    blank: Blank,
) -> Result<Charted, ChartFault>
    requires name { blank.name ≡ K.name }
    requires parts { blank.parts ≡ K.parts }
    requires some { 0 < blank.parts }
    ensures loaded { IfOk result (λ it. Loaded it.grammar) }
    ensures chart { IfOk result (λ it. IsChart it.grammar it.tokens.items it.chart.edges it.chart.forks) }
{
    let line = line.as_str();
    if file.len() > 4_194_304 || line.len() > 4_194_304 {
        return Err(ChartFault::Memory);
    }
    loaded_grammars_keep_the_conditions();
    let it = chart_of(alloc, file, line, &mut Steps::<K>::new(blank))?;
    Ok(it)
}

/// The same, with a counter of its own.
pub(crate) fn charted(alloc: Global, file: &str, line: &str) -> Result<Charted, ChartFault>
    ensures loaded { IfOk result (λ it. Loaded it.grammar) }
    ensures chart { IfOk result (λ it. IsChart it.grammar it.tokens.items it.chart.edges it.chart.forks) }
{
    let line = String::from_str(alloc, line)?;
    let it = counted::<Brand>(alloc, file.as_bytes(), &line, Blank::new(1))?;
    Ok(it)
}

fn edges_text(alloc: Global, chart: &Chart) -> Result<String, Fail> {
    let mut text = String::new(alloc);
    for edge in chart.edges() {
        text = format!(in alloc; "{text}{}:{}:{} ", edge.cat, edge.from, edge.to)?;
    }
    Ok(text)
}

fn nexts_text(alloc: Global, nexts: &[Next]) -> Result<String, Fail> {
    let mut text = String::new(alloc);
    for next in nexts {
        text = match next {
            Next::Item { occ, to } => format!(in alloc; "{text} {occ}>{to}")?,
            Next::End => format!(in alloc; "{text} end")?,
        };
    }
    Ok(text)
}

/// Each point with its edge, the item read last, its place and the ways to go on.
fn points_text(alloc: Global, chart: &Chart) -> Result<String, Fail> {
    let mut text = String::new(alloc);
    for point in chart.points() {
        let nexts = nexts_text(alloc, chart.alternatives(point))?;
        let edge = &point.edge;
        text = format!(in alloc; "{text}{}:{}:{}", edge.cat, edge.from, edge.to)?;
        text = format!(in alloc; "{text} {}@{}:{nexts}; ", point.occ, point.at)?;
    }
    Ok(text)
}

fn edge(alloc: Global, cat: &str, from: u32, to: u32) -> Result<Edge, Fail> {
    Ok(Edge {
        cat: Name::new(alloc, cat)?,
        from,
        to,
    })
}

/// The rules of the grammar, each with how many items it has.
fn sizes_text(alloc: Global, grammar: &Grammar) -> Result<String, Fail> {
    let mut text = String::new(alloc);
    for rule in grammar.rules.list() {
        let size = rule.items.list().len();
        text = format!(in alloc; "{text}{}:{size} ", rule.cat)?;
    }
    Ok(text)
}

#[test]
fn a_list_of_two_words(rt: HostRuntime) -> Result<(), Fail> {
    let alloc = rt.alloc();
    let it = charted(alloc, L, "w w")?;
    let chart = &it.chart;
    assert_eq!(rt;
        edges_text(alloc, chart)?.as_str(),
        "L:0:2 W:0:1 L:1:2 W:1:2 "
    );
    let points = "L:0:2 0@0: 1>1; L:0:2 1@1: 2>2; L:0:2 2@2: end; L:1:2 0@1: 1>2; L:1:2 1@2: end; ";
    assert_eq!(rt; points_text(alloc, chart)?.as_str(), points);
    Ok(())
}

/// With two tokens and two items the clause on steps gives 4 * 3 * 3 * 3 * 3 * 3, which is 972.
#[test]
fn at_most_972_steps_for_a_list_of_two_words(rt: HostRuntime) -> Result<(), Fail> {
    let alloc = rt.alloc();
    let it = charted(alloc, L, "w w")?;
    assert_eq!(rt; it.tokens.len(), 2);
    assert_eq!(rt; sizes_text(alloc, &it.grammar)?.as_str(), "L:2 ");
    Ok(())
}

#[test]
fn a_point_that_is_there_and_one_that_is_not(rt: HostRuntime) -> Result<(), Fail> {
    let alloc = rt.alloc();
    let it = charted(alloc, L, "w w")?;
    let there = Point {
        edge: edge(alloc, "L", 0, 2)?,
        occ: 1,
        at: 1,
    };
    let absent = Point {
        edge: edge(alloc, "L", 0, 2)?,
        occ: 1,
        at: 2,
    };
    let expected = [Next::Item { occ: 2, to: 2 }];
    assert_eq!(rt; it.chart.alternatives(&there), expected.as_slice());
    assert_eq!(rt; it.chart.alternatives(&absent).len(), 0);
    Ok(())
}

#[test]
fn a_line_without_a_derivation(rt: HostRuntime) -> Result<(), Fail> {
    let alloc = rt.alloc();
    let it = charted(alloc, P, "man the")?;
    assert_eq!(rt; it.chart.edges().len(), 0);
    assert_eq!(rt; it.chart.points().len(), 0);
    let it = charted(alloc, P, "the man walks")?;
    let edges = "S:0:3 NP:0:2 D:0:1 N:1:2 V:2:3 VP:2:3 ";
    assert_eq!(rt; edges_text(alloc, &it.chart)?.as_str(), edges);
    Ok(())
}

#[test]
fn a_noun_phrase_without_a_determiner(rt: HostRuntime) -> Result<(), Fail> {
    let alloc = rt.alloc();
    let it = charted(alloc, A, "sheep slept")?;
    let edges = "S:0:2 N:0:1 NP:0:1 V:1:2 VP:1:2 ";
    assert_eq!(rt; edges_text(alloc, &it.chart)?.as_str(), edges);
    Ok(())
}

fn count(chart: &Chart, cat: &str) -> usize {
    chart
        .edges()
        .iter()
        .filter(|edge| edge.cat.text() == cat)
        .count()
}

/// The line `Mary sleeps` with twenty times `in the park`.
fn long_line(alloc: Global) -> Result<String, Fail> {
    let mut line = String::from_str(alloc, "Mary sleeps")?;
    for _phrase in 0..20 {
        line.push_str(" in the park")?;
    }
    Ok(line)
}

/// The chart of the long line.
fn long_chart(alloc: Global) -> Result<Charted, Fail> {
    let line = long_line(alloc)?;
    Ok(charted(alloc, EN, line.as_str())?)
}

#[test]
fn counts_of_twenty_prepositional_phrases(rt: HostRuntime) -> Result<(), Fail> {
    let it = long_chart(rt.alloc())?;
    assert_eq!(rt; it.tokens.len(), 62);
    assert_eq!(rt; it.chart.edges().len(), 485);
    for (cat, expected) in [
        ("PP", 210),
        ("NP", 211),
        ("S", 1),
        ("VP", 1),
        ("PN", 1),
        ("V", 1),
        ("P", 20),
        ("D", 20),
        ("N", 20),
    ] {
        assert_eq!(rt; count(&it.chart, cat), expected, "{cat}");
    }
    Ok(())
}

#[test]
fn the_whole_of_twenty_prepositional_phrases(rt: HostRuntime) -> Result<(), Fail> {
    let alloc = rt.alloc();
    let it = long_chart(alloc)?;
    for (cat, from) in [("S", 0), ("VP", 1)] {
        let whole = edge(alloc, cat, from, 62)?;
        assert!(rt; it.chart.place_of_edge(&whole).is_some(), "{cat}");
    }
    Ok(())
}

/// What the fault says, or nothing.
fn fault_text(alloc: Global, file: &str, line: &str) -> Result<String, Fail> {
    match charted(alloc, file, line) {
        Ok(_) => Ok(String::new(alloc)),
        Err(fault) => Ok(format!(in alloc; "{fault}")?),
    }
}

#[test]
fn faults_of_files_and_lines_are_told(rt: HostRuntime) -> Result<(), Fail> {
    let alloc = rt.alloc();
    let mut long = String::new(alloc);
    for _word in 0..65 {
        long.push_str("w ")?;
    }
    for (file, line, wanted) in [
        ("ROOTCAT S.", "w", "Section 1"),
        (L, long.as_str(), "65 tokens, more than 64"),
        (L, "w v", ""),
    ] {
        let seen = fault_text(alloc, file, line)?;
        assert_eq!(rt; seen.as_str(), wanted);
    }
    Ok(())
}
