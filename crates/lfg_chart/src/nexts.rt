ghost use Rattle.std.specs.Prelude.{◌≡◌, ◌↔◌, ◌⊎◌, ℕ, ◌<◌, ◌≤◌, IsTrue, Some, IfOk, OnOk, length, slice_get};
ghost use Rattle.std.specs.List.Sorted.{IsStrictlySortedBy};
ghost use Rattle.lfg_chart.specs.Filling.{IsLink, IsRule, Ready};
ghost use Rattle.lfg_chart.specs.Nexts.{AreNexts, IsNextOver, IsNextVia, NextsBy, NextsOf};
ghost use Rattle.lfg_chart.specs.Points.{Collects};
ghost use Rattle.lfg_chart.specs.Tables.{IsRow};
ghost use Rattle.lfg_chart.specs.declared.links.Link.{Link};
ghost use Rattle.lfg_chart.specs.declared.table.Row.TheVariants.{Whole, Left};
ghost use Rattle.lfg_model.specs.Lists.{In, Lists};
ghost use Rattle.lfg_model.specs.Points.{next_cmp};
ghost use Rattle.lfg_model.specs.declared.point.Next.{Next};
ghost use Rattle.lfg_model.specs.declared.point.Point.{Point};
ghost use Rattle.lfg_terms.specs.Order.{name_cmp};

use crate::links::{Link, RuleLinks, number_of};
use crate::table::{Row, Table};
use lfg_model::{Next, Point};
use lfg_terms::{List, Name};
use std::alloc::{AllocError, Global};

/// Adds the ways to go on from a place over a link to a category, up to an end of the rule.
fn add_over(
    table: &Table,
    cat: usize,
    to: usize,
    link: Link,
    below: usize,
    at: usize,
    nexts: &mut Vec<Next>,
) -> Result<(), AllocError>
    requires whole { IsRow table.now (Whole below) }
    requires left { IsRow table.now (Left cat link.item) }
    requires few { table.now.size ≤ 128 }
    requires at { at < table.now.size }
    requires to { to < table.now.size }
    ensures { OnOk result (Collects nexts.old.items nexts.new.items (IsNextOver table.now cat to link below at table.now.size)) }
{
    let wholes = table.places(Row::Whole { cat: below }, at);
    let left = Row::Left {
        cat,
        item: link.item,
    };
    for mid in 0..table.size() {
        if wholes.has(mid) && table.places(left, mid).has(to) {
            nexts.push(Next::Item {
                occ: link.item,
                to: mid as u32,
            })?;
        }
    }
    Ok(())
}

/// Adds the ways to go on from a place over a link.
fn add_via(
    rules: &[Option<RuleLinks>],
    table: &Table,
    cat: usize,
    to: usize,
    link: Link,
    at: usize,
    nexts: &mut Vec<Next>,
) -> Result<(), AllocError>
    requires ready { Ready rules.now table.now }
    requires link { IsLink rules.now cat link }
    requires at { at < table.now.size }
    requires to { to < table.now.size }
    ensures { OnOk result (Collects nexts.old.items nexts.new.items (IsNextVia link.cat table.now cat to link at)) }
{
    match link.cat {
        Some(below) => add_over(table, cat, to, link, below, at, nexts)?,
        None => {
            let ends = table.places(
                Row::Left {
                    cat,
                    item: link.item,
                },
                at,
            );
            if ends.has(to) {
                nexts.push(Next::Item {
                    occ: link.item,
                    to: at as u32,
                })?;
            }
        }
    }
    Ok(())
}

/// Adds the ways to go on from a place behind an item over links.
fn add_by(
    rules: &[Option<RuleLinks>],
    table: &Table,
    cat: usize,
    to: usize,
    links: &[Link],
    before: u32,
    at: usize,
    nexts: &mut Vec<Next>,
) -> Result<(), AllocError>
    requires ready { Ready rules.now table.now }
    requires links { (link : Link) → In link links.now → IsLink rules.now cat link }
    requires at { at < table.now.size }
    requires to { to < table.now.size }
    ensures { OnOk result (Collects nexts.old.items nexts.new.items (NextsBy table.now cat to links.now before at)) }
{
    for link in links {
        if link.before == before {
            add_via(rules, table, cat, to, *link, at, nexts)?;
        }
    }
    Ok(())
}

/// Whether the number is among these.
fn is_among(numbers: &[u32], number: u32) -> bool
    ensures { IsTrue result ↔ In number numbers.now }
{
    numbers.contains(&number)
}

/// The ways to go on from a place behind an item of a rule, up to an end of the rule, in no order.
fn nexts_at(
    alloc: Global,
    rules: &[Option<RuleLinks>],
    table: &Table,
    cat: usize,
    to: usize,
    rule: &RuleLinks,
    before: u32,
    at: usize,
) -> Result<Vec<Next>, AllocError>
    requires ready { Ready rules.now table.now }
    requires rule { IsRule rules.now cat rule.now }
    requires at { at < table.now.size }
    requires to { to < table.now.size }
    ensures { IfOk result (λ nexts. (next : Next) → In next nexts.items ↔ AreNexts rule.now table.now cat to before at next) }
{
    let mut nexts = Vec::new(alloc);
    add_by(rules, table, cat, to, &rule.links, before, at, &mut nexts)?;
    if at == to && is_among(&rule.lasts, before) {
        nexts.push(Next::End)?;
    }
    Ok(nexts)
}

/// The ways to go on in order, each once.
fn sorted(mut nexts: Vec<Next>) -> Result<Vec<Next>, AllocError>
    ensures { IfOk result (λ set. Lists next_cmp (λ n. In n nexts.items) set.items) }
{
    nexts.sort()?;
    nexts.dedup();
    Ok(nexts)
}

/// The ways to go on at a point, in no order.
fn unsorted_nexts_of(
    alloc: Global,
    rules: &[Option<RuleLinks>],
    cats: &[Name],
    table: &Table,
    point: &Point,
) -> Result<Vec<Next>, AllocError>
    requires ready { Ready rules.now table.now }
    requires ordered { IsStrictlySortedBy name_cmp cats.now }
    requires length { length rules.now ≡ length cats.now }
    requires known { In point.now.edge.cat cats.now }
    requires at { point.now.at < table.now.size }
    requires to { point.now.edge.to < table.now.size }
    ensures { IfOk result (λ nexts. (next : Next) → In next nexts.items ↔ NextsOf rules.now cats.now table.now point.now next) }
{
    let cat = number_of(cats, &point.edge.cat);
    let to = point.edge.to as usize;
    match &rules[cat] {
        Some(rule) => Ok(nexts_at(
            alloc,
            rules,
            table,
            cat,
            to,
            rule,
            point.occ,
            point.at as usize,
        )?),
        None => Ok(Vec::new(alloc)),
    }
}

/// The ways to go on at a point, in order, each once.
pub(crate) fn nexts_of(
    alloc: Global,
    rules: &[Option<RuleLinks>],
    cats: &[Name],
    table: &Table,
    point: &Point,
) -> Result<List<Next>, AllocError>
    requires ready { Ready rules.now table.now }
    requires ordered { IsStrictlySortedBy name_cmp cats.now }
    requires length { length rules.now ≡ length cats.now }
    requires known { In point.now.edge.cat cats.now }
    requires at { point.now.at < table.now.size }
    requires to { point.now.edge.to < table.now.size }
    ensures { IfOk result (Lists next_cmp (NextsOf rules.now cats.now table.now point.now)) }
{
    let nexts = unsorted_nexts_of(alloc, rules, cats, table, point)?;
    let set = sorted(nexts)?;
    Ok(List::new(alloc, set)?)
}
