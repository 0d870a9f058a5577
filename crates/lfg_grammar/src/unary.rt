ghost use Rattle.std.specs.Prelude.{◌≡◌, ◌↔◌, ℕ, ◌+◌, ◌++◌, IsTrue, IfOk, IfNone, IfSome, OnOk, map};
ghost use Rattle.std.specs.Option.{option_copied};
ghost use Rattle.lfg_model.specs.Derive.{item_at, CanEnd, CanFollow};
ghost use Rattle.lfg_model.specs.Graphs.{IsGraph};
ghost use Rattle.lfg_model.specs.Grounded.{EmptyStep, IsEmptyItem, IsItemOf};
ghost use Rattle.lfg_model.specs.Lists.{In};
ghost use Rattle.lfg_grammar.specs.OnlyDaughters.{FromStart, IsOnlyDaughter, LinksOnly, ToEnd};
ghost use Rattle.lfg_grammar.specs.Reach.{link, Marks};

use crate::reach::{Link, reached, table_of, turned};
use lfg_terms::{Graph, Item, Name, Rule};
use std::alloc::{AllocError, Global};

/// Appends the link from one item to each of the others.
fn push_links(links: &mut Vec<Link>, from: usize, items: &[u32]) -> Result<(), AllocError>
    ensures { OnOk result (links.new.items ≡ links.old.items ++ map (link from) items.now) }
{
    for item in items {
        links.push(Link {
            from,
            to: *item as usize,
        })?;
    }
    Ok(())
}

/// The links of the graph: from the start, which is 0, and from each item to those that may follow.
fn links_of(alloc: Global, graph: &Graph) -> Result<Vec<Link>, AllocError>
    requires { IsGraph graph.now }
    ensures { IfOk result (λ links. (q p : ℕ) → In (link q p) links.items ↔ CanFollow graph.now q p) }
{
    let mut links = Vec::new(alloc);
    push_links(&mut links, 0, graph.first.list())?;
    for (place, items) in graph.next.list().iter().enumerate() {
        push_links(&mut links, place + 1, items.list())?;
    }
    Ok(links)
}

/// The items at which a row may end.
fn last_items(alloc: Global, graph: &Graph) -> Result<Vec<usize>, AllocError>
    requires { IsGraph graph.now }
    ensures { IfOk result (λ items. (q : ℕ) → In q items.items ↔ CanEnd graph.now q) }
{
    let mut items = Vec::new(alloc);
    for (place, last) in graph.last.list().iter().enumerate() {
        if *last {
            items.push(place + 1)?;
        }
    }
    Ok(items)
}

/// The item of this number, counted from 1.
fn item_at(rule: &Rule, number: usize) -> Option<&Item>
    ensures { option_copied result ≡ item_at rule.now.items number }
{
    let place = number.checked_sub(1)?;
    rule.items.list().get(place)
}

/// Whether the item of this number is `e`.
fn is_empty_item(rule: &Rule, number: usize) -> bool
    ensures { IsTrue result ↔ IsEmptyItem rule.now number }
{
    match item_at(rule, number) {
        Some(item) => item.cat.is_none(),
        None => false,
    }
}

/// The category of the item of this number, if it is not `e`.
fn category_at(rule: &Rule, number: usize) -> Option<&Name>
    ensures some { IfSome result (λ cat. IsItemOf rule.now number cat.now) }
    ensures none { IfNone result ((cat : Name) → ¬ IsItemOf rule.now number cat) }
{
    item_at(rule, number)?.cat.as_ref()
}

/// Those of the links that lead to an `e` item.
fn empty_links(alloc: Global, rule: &Rule, links: &[Link]) -> Result<Vec<Link>, AllocError>
    requires { (q p : ℕ) → In (link q p) links.now ↔ CanFollow rule.now.graph q p }
    ensures { IfOk result (λ empty. (q p : ℕ) → In (link q p) empty.items ↔ EmptyStep rule.now p q) }
{
    let mut empty = Vec::new(alloc);
    for link in links {
        if is_empty_item(rule, link.to) {
            empty.push(*link)?;
        }
    }
    Ok(empty)
}

/// A mark for the start and for each item: whether it is reached from the start over `e` items.
fn from_start(alloc: Global, rule: &Rule, empty: &[Link]) -> Result<Vec<bool>, AllocError>
    requires graph { IsGraph rule.now.graph }
    requires links { (q p : ℕ) → In (link q p) empty.now ↔ EmptyStep rule.now p q }
    ensures { IfOk result (λ marks. Marks (rule.now.graph.size + 1) (FromStart rule.now) marks.items) }
{
    let next = table_of(alloc, rule.graph.size as usize + 1, empty)?;
    reached(alloc, &next, &[0])
}

/// A mark for the start and for each item: whether an end is reached from there over `e` items.
fn to_end(alloc: Global, rule: &Rule, empty: &[Link]) -> Result<Vec<bool>, AllocError>
    requires graph { IsGraph rule.now.graph }
    requires links { (q p : ℕ) → In (link q p) empty.now ↔ EmptyStep rule.now p q }
    ensures { IfOk result (λ marks. Marks (rule.now.graph.size + 1) (ToEnd rule.now) marks.items) }
{
    let back = turned(alloc, empty)?;
    let next = table_of(alloc, rule.graph.size as usize + 1, &back)?;
    let ends = last_items(alloc, &rule.graph)?;
    reached(alloc, &next, &ends)
}

/// The category to which the link leads, if all that comes before and behind can be `e`.
fn only_at<'a>(rule: &'a Rule, link: Link, from_start: &[bool], to_end: &[bool]) -> Option<&'a Name>
    requires graph { IsGraph rule.now.graph }
    requires follows { CanFollow rule.now.graph link.from link.to }
    requires from_start { Marks (rule.now.graph.size + 1) (FromStart rule.now) from_start.now }
    requires to_end { Marks (rule.now.graph.size + 1) (ToEnd rule.now) to_end.now }
    ensures some { IfSome result (λ cat. LinksOnly rule.now link cat.now) }
    ensures none { IfNone result ((cat : Name) → ¬ LinksOnly rule.now link cat) }
{
    if from_start[link.from] && to_end[link.to] {
        return category_at(rule, link.to);
    }
    None
}

/// The categories that can be the only daughter under the rule. One may stand more than once.
pub(crate) fn only_daughters<'a>(alloc: Global, rule: &'a Rule) -> Result<Vec<&'a Name>, AllocError>
    requires { IsGraph rule.now.graph }
    ensures { IfOk result (λ cats. (cat : Name) → In cat (map (λ c. c.now) cats.items) ↔ IsOnlyDaughter rule.now cat) }
{
    let links = links_of(alloc, &rule.graph)?;
    let empty = empty_links(alloc, rule, &links)?;
    let from_start = from_start(alloc, rule, &empty)?;
    let to_end = to_end(alloc, rule, &empty)?;
    let mut cats = Vec::new(alloc);
    for link in &links {
        if let Some(cat) = only_at(rule, *link, &from_start, &to_end) {
            cats.push(cat)?;
        }
    }
    Ok(cats)
}
