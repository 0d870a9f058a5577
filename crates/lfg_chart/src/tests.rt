ghost use Rattle.std.specs.Prelude.{◌≡◌, ◌<◌};

use crate::building::chart_by;
use crate::checked::is_checked;
use crate::{Chart, Next, Point};
use lfg_rulegraph::graph;
use lfg_terms::{Edge, Grammar, Item, Lex, List, Name, Rhs, Rule, Steps, TokenForms};
use std::alloc::{AllocError, Global};
use std::marker::Brand;
use std::sync::ledger::{Blank, Ledger};
use std::test::Fail;

fn names(alloc: Global, texts: &[&str]) -> Result<List<Name>, Fail> {
    let mut names = Vec::new(alloc);
    for text in texts {
        names.push(Name::new(alloc, text)?)?;
    }
    Ok(List::new(alloc, names)?)
}

/// An item of a right side; `e` is the empty item.
fn item(alloc: Global, cat: &str) -> Result<Rhs, Fail> {
    Ok(Rhs::Item {
        cat: Name::new(alloc, cat)?,
        schemata: None,
    })
}

fn maybe(alloc: Global, cat: &str) -> Result<Rhs, Fail> {
    Ok(Rhs::Maybe(Box::new(alloc, item(alloc, cat)?)?))
}

fn star(alloc: Global, cat: &str) -> Result<Rhs, Fail> {
    Ok(Rhs::Star(Box::new(alloc, item(alloc, cat)?)?))
}

/// A rule without annotations whose right side has these items.
fn rule(alloc: Global, cat: &str, items: &[&str], rhs: Rhs) -> Result<Rule, Fail> {
    let mut list = Vec::new(alloc);
    for item in items {
        let cat = if *item == "e" {
            None
        } else {
            Some(Name::new(alloc, item)?)
        };
        let schemata = List::new(alloc, Vec::new(alloc))?;
        list.push(Item { cat, schemata })?;
    }
    Ok(Rule {
        cat: Name::new(alloc, cat)?,
        items: List::new(alloc, list)?,
        graph: graph(alloc, &rhs)?,
    })
}

/// A rule whose right side is the row of these items.
fn plain_rule(alloc: Global, cat: &str, items: &[&str]) -> Result<Rule, Fail> {
    let mut parts = Vec::new(alloc);
    for part in items {
        parts.push(item(alloc, part)?)?;
    }
    rule(alloc, cat, items, Rhs::Row(parts))
}

/// A grammar with these categories, in the order of their bytes, and these words with their
/// categories.
fn grammar(
    alloc: Global,
    root: &str,
    cats: &[&str],
    rules: Vec<Rule>,
    words: &[(&str, &str)],
) -> Result<Grammar, Fail> {
    let mut lexicon = Vec::new(alloc);
    for (form, cat) in words {
        lexicon.push(Lex {
            form: Name::new(alloc, form)?,
            cat: Name::new(alloc, cat)?,
            schemata: List::new(alloc, Vec::new(alloc))?,
        })?;
    }
    Ok(Grammar {
        root: Name::new(alloc, root)?,
        governable: List::new(alloc, Vec::new(alloc))?,
        gensize: 60,
        maxfacts: 200_000,
        cats: names(alloc, cats)?,
        rules: List::new(alloc, rules)?,
        lexicon: List::new(alloc, lexicon)?,
    })
}

/// The chart of a row of words, each with its text alone as form.
fn charted<L: Ledger>(
    alloc: Global,
    grammar: &Grammar,
    words: &[&str],
    blank: Blank,
) -> Result<Chart, Fail>
    requires name { blank.name ≡ L.name }
    requires parts { blank.parts ≡ L.parts }
    requires some { 0 < blank.parts }
{
    let mut tokens = Vec::new(alloc);
    for word in words {
        let forms = names(alloc, &[*word])?;
        let text = Name::new(alloc, word)?;
        tokens.push(TokenForms { text, forms })?;
    }
    if tokens.len() > 64 || !is_checked(grammar) {
        return Err(AllocError)?;
    }
    Ok(chart_by(alloc, grammar, &tokens, &mut Steps::<L>::new(blank))?)
}

/// The same, with a counter of steps of its own.
fn chart_by_words(alloc: Global, grammar: &Grammar, words: &[&str]) -> Result<Chart, Fail> {
    charted::<Brand>(alloc, grammar, words, Blank::new(1))
}

fn edges_text(alloc: Global, chart: &Chart) -> Result<String, Fail> {
    let mut text = String::new(alloc);
    for edge in chart.edges() {
        text = format!(in alloc; "{text}{}:{}:{} ", edge.cat, edge.from, edge.to)?;
    }
    Ok(text)
}

fn nexts_text(alloc: Global, nexts: &[Next]) -> Result<String, Fail> {
    let mut text = String::new(alloc);
    for next in nexts {
        text = match next {
            Next::Item { occ, to } => format!(in alloc; "{text} {occ}>{to}")?,
            Next::End => format!(in alloc; "{text} end")?,
        };
    }
    Ok(text)
}

/// Each point with its edge, the item read last, its place and the ways to go on.
fn points_text(alloc: Global, chart: &Chart) -> Result<String, Fail> {
    let mut text = String::new(alloc);
    for point in chart.points() {
        let nexts = nexts_text(alloc, chart.alternatives(point))?;
        let edge = &point.edge;
        text = format!(in alloc; "{text}{}:{}:{}", edge.cat, edge.from, edge.to)?;
        text = format!(in alloc; "{text} {}@{}:{nexts}; ", point.occ, point.at)?;
    }
    Ok(text)
}

/// `L --> W (L)`, with two entries for the one word.
fn list_grammar(alloc: Global) -> Result<Grammar, Fail> {
    let rhs = Rhs::Row(vec![in alloc; item(alloc, "W")?, maybe(alloc, "L")?]?);
    let rules = vec![in alloc; rule(alloc, "L", &["W", "L"], rhs)?]?;
    grammar(alloc, "L", &["L", "W"], rules, &[("w", "W"), ("w", "W")])
}

fn point(alloc: Global, cat: &str, span: (u32, u32), occ: u32, at: u32) -> Result<Point, Fail> {
    let edge = Edge {
        cat: Name::new(alloc, cat)?,
        from: span.0,
        to: span.1,
    };
    Ok(Point { edge, occ, at })
}

#[test]
fn chart_of_a_list(rt: HostRuntime) -> Result<(), Fail> {
    let alloc = rt.alloc();
    let chart = chart_by_words(alloc, &list_grammar(alloc)?, &["w", "w"])?;
    assert_eq!(rt;
        edges_text(alloc, &chart)?.as_str(),
        "L:0:2 W:0:1 L:1:2 W:1:2 "
    );
    let points = "L:0:2 0@0: 1>1; L:0:2 1@1: 2>2; L:0:2 2@2: end; L:1:2 0@1: 1>2; L:1:2 1@2: end; ";
    assert_eq!(rt; points_text(alloc, &chart)?.as_str(), points);
    Ok(())
}

#[test]
fn what_is_in_a_chart_and_what_is_not(rt: HostRuntime) -> Result<(), Fail> {
    let alloc = rt.alloc();
    let chart = chart_by_words(alloc, &list_grammar(alloc)?, &["w", "w"])?;
    let there = point(alloc, "L", (0, 2), 1, 1)?;
    let absent = point(alloc, "L", (0, 2), 1, 2)?;
    let expected = [Next::Item { occ: 2, to: 2 }];
    assert_eq!(rt; chart.alternatives(&there), expected.as_slice());
    assert_eq!(rt; chart.alternatives(&absent).len(), 0);
    assert!(rt; 1 < chart.points().len());
    assert_eq!(rt; chart.alternatives_at(1), expected.as_slice());
    assert_eq!(rt; chart.place_of_point(&there), Some(1));
    assert_eq!(rt; chart.place_of_point(&absent), None);
    assert_eq!(rt;
        chart.place_of_edge(&point(alloc, "W", (1, 2), 0, 0)?.edge),
        Some(3)
    );
    assert_eq!(rt;
        chart.place_of_edge(&point(alloc, "W", (0, 2), 0, 0)?.edge),
        None
    );
    Ok(())
}

/// Sentences of a noun phrase and a verb.
fn small_grammar(alloc: Global) -> Result<Grammar, Fail> {
    let mut rules = Vec::new(alloc);
    rules.push(plain_rule(alloc, "S", &["NP", "VP"])?)?;
    rules.push(plain_rule(alloc, "NP", &["D", "N"])?)?;
    rules.push(plain_rule(alloc, "VP", &["V"])?)?;
    let cats = ["D", "N", "NP", "S", "V", "VP"];
    let words = [("the", "D"), ("man", "N"), ("walks", "V")];
    grammar(alloc, "S", &cats, rules, &words)
}

#[test]
fn no_edges_without_a_derivation(rt: HostRuntime) -> Result<(), Fail> {
    let alloc = rt.alloc();
    let grammar = small_grammar(alloc)?;
    let chart = chart_by_words(alloc, &grammar, &["the", "man", "walks"])?;
    let edges = "S:0:3 NP:0:2 D:0:1 N:1:2 V:2:3 VP:2:3 ";
    assert_eq!(rt; edges_text(alloc, &chart)?.as_str(), edges);
    let chart = chart_by_words(alloc, &grammar, &["man", "the"])?;
    assert_eq!(rt; chart.edges().len(), 0);
    assert_eq!(rt; chart.points().len(), 0);
    Ok(())
}

#[test]
fn empty_items_cover_nothing(rt: HostRuntime) -> Result<(), Fail> {
    let alloc = rt.alloc();
    let rhs = Rhs::Row(vec![in alloc; item(alloc, "e")?, item(alloc, "A")?, maybe(alloc, "e")?]?);
    let rules = vec![in alloc; rule(alloc, "S", &["e", "A", "e"], rhs)?]?;
    let grammar = grammar(alloc, "S", &["A", "S"], rules, &[("a", "A")])?;
    let chart = chart_by_words(alloc, &grammar, &["a"])?;
    assert_eq!(rt; edges_text(alloc, &chart)?.as_str(), "A:0:1 S:0:1 ");
    let points = "S:0:1 0@0: 1>0; S:0:1 1@0: 2>1; S:0:1 2@1: 3>1 end; S:0:1 3@1: end; ";
    assert_eq!(rt; points_text(alloc, &chart)?.as_str(), points);
    Ok(())
}

/// `NP --> {PN | D N} PP*`
fn noun_phrase(alloc: Global) -> Result<Rule, Fail> {
    let noun = Rhs::Row(vec![in alloc; item(alloc, "D")?, item(alloc, "N")?]?);
    let head = Rhs::OneOf(vec![in alloc; item(alloc, "PN")?, noun]?);
    let rhs = Rhs::Row(vec![in alloc; head, star(alloc, "PP")?]?);
    rule(alloc, "NP", &["PN", "D", "N", "PP"], rhs)
}

/// `VP --> V (NP) PP*`
fn verb_phrase(alloc: Global) -> Result<Rule, Fail> {
    let parts = vec![in alloc; item(alloc, "V")?, maybe(alloc, "NP")?, star(alloc, "PP")?]?;
    rule(alloc, "VP", &["V", "NP", "PP"], Rhs::Row(parts))
}

/// Noun phrases and verb phrases with any number of prepositional phrases.
fn english(alloc: Global) -> Result<Grammar, Fail> {
    let mut rules = Vec::new(alloc);
    rules.push(plain_rule(alloc, "S", &["NP", "VP"])?)?;
    rules.push(noun_phrase(alloc)?)?;
    rules.push(verb_phrase(alloc)?)?;
    rules.push(plain_rule(alloc, "PP", &["P", "NP"])?)?;
    let cats = ["D", "N", "NP", "P", "PN", "PP", "S", "V", "VP"];
    let words = [
        ("Mary", "PN"),
        ("man", "N"),
        ("park", "N"),
        ("the", "D"),
        ("in", "P"),
        ("sleeps", "V"),
        ("sees", "V"),
    ];
    grammar(alloc, "S", &cats, rules, &words)
}

#[test]
fn alternatives_in_order(rt: HostRuntime) -> Result<(), Fail> {
    let alloc = rt.alloc();
    let words = ["Mary", "sees", "the", "man", "in", "the", "park"];
    let chart = chart_by_words(alloc, &english(alloc)?, &words)?;
    let place = point(alloc, "VP", (1, 7), 1, 2)?;
    let expected = [Next::Item { occ: 2, to: 4 }, Next::Item { occ: 2, to: 7 }];
    assert_eq!(rt; chart.alternatives(&place), expected.as_slice());
    Ok(())
}

fn count(chart: &Chart, cat: &str) -> usize {
    chart
        .edges()
        .iter()
        .filter(|edge| edge.cat.text() == cat)
        .count()
}

#[test]
fn many_prepositional_phrases(rt: HostRuntime) -> Result<(), Fail> {
    let alloc = rt.alloc();
    let mut words = vec![in alloc; "Mary", "sleeps"]?;
    for _phrase in 0..20 {
        words.push("in")?;
        words.push("the")?;
        words.push("park")?;
    }
    let chart = chart_by_words(alloc, &english(alloc)?, &words)?;
    assert_eq!(rt; chart.edges().len(), 485);
    let counts = [
        ("PP", 210),
        ("NP", 211),
        ("S", 1),
        ("VP", 1),
        ("PN", 1),
        ("V", 1),
        ("P", 20),
        ("D", 20),
        ("N", 20),
    ];
    for (cat, expected) in counts {
        assert_eq!(rt; count(&chart, cat), expected, "{cat}");
    }
    assert!(rt;
        chart
            .place_of_edge(&point(alloc, "S", (0, 62), 0, 0)?.edge)
            .is_some()
    );
    assert!(rt;
        chart
            .place_of_edge(&point(alloc, "VP", (1, 62), 0, 0)?.edge)
            .is_some()
    );
    Ok(())
}
