ghost use Rattle.std.specs.Prelude.{◌≡◌, ◌↔◌, ◌⊎◌, ℕ, ◌+◌, ◌*◌, ◌<◌, ◌≤◌, Some, IfOk, OnOk, length, slice_get};
ghost use Rattle.std.specs.List.Sorted.{IsStrictlySortedBy};
ghost use Rattle.lfg_chart.specs.Numbers.{AreLinksOf, IsLinkOf, IsNumberOf, IsRuleOver};
ghost use Rattle.lfg_chart.specs.declared.links.Link.{Link};
ghost use Rattle.lfg_model.specs.Derive.{CanEnd, CanFollow};
ghost use Rattle.lfg_model.specs.Lists.{In};
ghost use Rattle.lfg_terms.specs.Order.{name_cmp};

use lfg_rulegraph::{ends, follows};
use lfg_terms::{Name, Rule, Steps};
use std::alloc::{AllocError, Global};
use std::sync::ledger::Ledger;

/// An item of a rule that may follow another.
#[derive(Clone, Copy, Debug)]
pub(crate) struct Link {
    /// The item before, counted from 1; 0 is the start.
    pub before: u32,
    /// The item, counted from 1.
    pub item: u32,
    /// The number of the item's category, or none for the empty item.
    pub cat: Option<usize>,
}

/// What the graph of a rule tells, with each link and each end asked for once.
#[derive(Drop)]
pub(crate) struct RuleLinks {
    /// How many items the rule has.
    pub size: u32,
    pub links: Vec<Link>,
    /// The items behind which the rule may end.
    pub lasts: Vec<u32>,
}

/// The number of a category: its place among all categories, counted from 0.
pub(crate) fn number_of(cats: &[Name], cat: &Name) -> usize
    requires ordered { IsStrictlySortedBy name_cmp cats.now }
    requires known { In cat.now cats.now }
    ensures { slice_get cats.now result ≡ Some cat.now }
{
    match cats.binary_search(cat) {
        Ok(number) => number,
        Err(_) => unreachable!(),
    }
}

/// The number of an item's category, or none for the empty item.
fn number_of_item(cats: &[Name], rule: &Rule, item: u32) -> Option<usize>
    requires rule { IsRuleOver cats.now rule.now }
    requires first { 1 ≤ item }
    requires within { item ≤ rule.now.graph.size }
    ensures { (before : ℕ) → CanFollow rule.now.graph before item → IsLinkOf cats.now rule.now (record { before = before; item = item; cat = result }) }
{
    match &rule.items.list()[item as usize - 1].cat {
        Some(cat) => Some(number_of(cats, cat)),
        None => None,
    }
}

/// Adds the links from an item of a rule.
fn add_links<L: Ledger>(
    cats: &[Name],
    rule: &Rule,
    before: u32,
    found: &mut Vec<Link>,
    steps: &mut Steps<L>,
) -> Result<(), AllocError>
    requires rule { IsRuleOver cats.now rule.now }
    requires within { before ≤ rule.now.graph.size }
    ensures found { OnOk result ((link : Link) → In link found.new.items ↔ (In link found.old.items ⊎ ((link.before ≡ before) × IsLinkOf cats.now rule.now link))) }
    ensures steps { steps.new ≤ steps.old + rule.now.graph.size }
{
    for number in 0..rule.graph.size {
        let item = number + 1;
        if follows(&rule.graph, before, item, steps) {
            let cat = number_of_item(cats, rule, item);
            found.push(Link { before, item, cat })?;
        }
    }
    Ok(())
}

/// The links of a rule.
fn all_links<L: Ledger>(
    alloc: Global,
    cats: &[Name],
    rule: &Rule,
    steps: &mut Steps<L>,
) -> Result<Vec<Link>, AllocError>
    requires { IsRuleOver cats.now rule.now }
    ensures links { IfOk result (λ links. (link : Link) → In link links.items ↔ IsLinkOf cats.now rule.now link) }
    ensures steps { steps.new ≤ steps.old + (rule.now.graph.size + 1) * rule.now.graph.size }
{
    let mut found = Vec::new(alloc);
    add_links(cats, rule, 0, &mut found, steps)?;
    for before in 0..rule.graph.size {
        add_links(cats, rule, before + 1, &mut found, steps)?;
    }
    Ok(found)
}

/// The items that may end a rule.
fn all_lasts(alloc: Global, cats: &[Name], rule: &Rule) -> Result<Vec<u32>, AllocError>
    requires { IsRuleOver cats.now rule.now }
    ensures { IfOk result (λ lasts. (item : ℕ) → In item lasts.items ↔ CanEnd rule.now.graph item) }
{
    let mut found = Vec::new(alloc);
    for number in 0..rule.graph.size {
        let item = number + 1;
        if ends(&rule.graph, item) {
            found.push(item)?;
        }
    }
    Ok(found)
}

/// The links and the ends of a rule.
pub(crate) fn links_of<L: Ledger>(
    alloc: Global,
    cats: &[Name],
    rule: &Rule,
    steps: &mut Steps<L>,
) -> Result<RuleLinks, AllocError>
    requires { IsRuleOver cats.now rule.now }
    ensures links { IfOk result (AreLinksOf cats.now rule.now) }
    ensures steps { steps.new ≤ steps.old + (rule.now.graph.size + 1) * rule.now.graph.size }
{
    Ok(RuleLinks {
        size: rule.graph.size,
        links: all_links(alloc, cats, rule, steps)?,
        lasts: all_lasts(alloc, cats, rule)?,
    })
}
