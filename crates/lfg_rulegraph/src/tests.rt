ghost use Rattle.std.specs.Prelude.{◌≡◌, ◌+◌, ◌<◌};
ghost use Rattle.lfg_model.specs.Graphs.{IsGraph};

use crate::{GraphFault, ends, follows, graph};
use lfg_terms::{Graph, List, Name, Rhs, Steps};
use std::alloc::Global;
use std::marker::Brand;
use std::sync::ledger::{Blank, Ledger};
use std::test::Fail;

fn item(alloc: Global, cat: &str) -> Result<Rhs, Fail> {
    Ok(Rhs::Item {
        cat: Name::new(alloc, cat)?,
        schemata: None,
    })
}

/// `(A) {B | C}* D+`
fn noun_phrase(alloc: Global) -> Result<Rhs, Fail> {
    let branches = vec![in alloc; item(alloc, "B")?, item(alloc, "C")?]?;
    let parts = vec![in alloc;
        Rhs::Maybe(Box::new(alloc, item(alloc, "A")?)?),
        Rhs::Star(Box::new(alloc, Rhs::OneOf(branches))?),
        Rhs::Plus(Box::new(alloc, item(alloc, "D")?)?),
    ]?;
    Ok(Rhs::Row(parts))
}

fn list(alloc: Global, items: &[u32]) -> Result<List<u32>, Fail> {
    let mut copy = Vec::new(alloc);
    for item in items {
        copy.push(*item)?;
    }
    Ok(List::new(alloc, copy)?)
}

#[test]
fn graph_of_a_row(rt: HostRuntime) -> Result<(), Fail> {
    let alloc = rt.alloc();
    let next = vec![in alloc;
        list(alloc, &[2, 3, 4])?,
        list(alloc, &[2, 3, 4])?,
        list(alloc, &[2, 3, 4])?,
        list(alloc, &[4])?,
    ]?;
    let expected = Graph {
        size: 4,
        first: list(alloc, &[1, 2, 3, 4])?,
        next: List::new(alloc, next)?,
        last: List::new(alloc, vec![in alloc; false, false, false, true]?)?,
    };
    assert_eq!(rt; graph(alloc, &noun_phrase(alloc)?)?, expected);
    Ok(())
}

/// The fault of the right side.
fn fault(alloc: Global, rhs: Rhs) -> Option<GraphFault> {
    graph(alloc, &rhs).err()
}

#[test]
fn right_sides_without_a_category(rt: HostRuntime) -> Result<(), Fail> {
    let alloc = rt.alloc();
    let star = Rhs::Star(Box::new(alloc, item(alloc, "e")?)?);
    assert_eq!(rt; fault(alloc, star), Some(GraphFault::EmptyStar));
    let option = Rhs::Maybe(Box::new(alloc, item(alloc, "A")?)?);
    assert_eq!(rt; fault(alloc, option), Some(GraphFault::EmptyRule));
    let option = Rhs::Maybe(Box::new(alloc, item(alloc, "e")?)?);
    let both = vec![in alloc; option, Rhs::Plus(Box::new(alloc, item(alloc, "e")?)?)]?;
    assert_eq!(rt; fault(alloc, Rhs::Row(both)), Some(GraphFault::EmptyStar));
    let enough = vec![in alloc; item(alloc, "e")?, item(alloc, "A")?]?;
    assert_eq!(rt; fault(alloc, Rhs::Row(enough)), None);
    Ok(())
}

#[test]
fn nested_brackets(rt: HostRuntime) -> Result<(), Fail> {
    let alloc = rt.alloc();
    let mut rhs = item(alloc, "A")?;
    for _bracket in 0..1000 {
        rhs = Rhs::Row(vec![in alloc; rhs]?);
    }
    assert_eq!(rt; graph(alloc, &rhs)?.size, 1);
    Ok(())
}

/// The pairs of which the second may follow the first, and the items that may end, each with 0.
fn told<L: Ledger>(
    alloc: Global,
    graph: &Graph,
    steps: &mut Steps<L>,
) -> Result<Vec<(u32, u32)>, Fail>
    requires { IsGraph graph.now }
{
    let mut pairs = Vec::new(alloc);
    for p in 0..graph.size {
        if follows(graph, 0, p + 1, steps) {
            pairs.push((0, p + 1))?;
        }
    }
    for q in 0..graph.size {
        if ends(graph, q + 1) {
            pairs.push((q + 1, 0))?;
        }
        for p in 0..graph.size {
            if follows(graph, q + 1, p + 1, steps) {
                pairs.push((q + 1, p + 1))?;
            }
        }
    }
    Ok(pairs)
}

fn told_of_a_row<L: Ledger>(alloc: Global, blank: Blank) -> Result<Vec<(u32, u32)>, Fail>
    requires name { blank.name ≡ L.name }
    requires parts { blank.parts ≡ L.parts }
    requires some { 0 < blank.parts }
{
    let graph = graph(alloc, &noun_phrase(alloc)?)?;
    told(alloc, &graph, &mut Steps::<L>::new(blank))
}

#[test]
fn what_may_follow(rt: HostRuntime) -> Result<(), Fail> {
    let alloc = rt.alloc();
    let pairs = told_of_a_row::<Brand>(alloc, Blank::new(1))?;
    let expected = [
        (0, 1),
        (0, 2),
        (0, 3),
        (0, 4),
        (1, 2),
        (1, 3),
        (1, 4),
        (2, 2),
        (2, 3),
        (2, 4),
        (3, 2),
        (3, 3),
        (3, 4),
        (4, 0),
        (4, 4),
    ];
    assert_eq!(rt; pairs.as_slice(), expected.as_slice());
    Ok(())
}
