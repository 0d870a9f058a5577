ghost use Rattle.std.specs.Prelude.{◌≡◌, ◌↔◌, ◌⊎◌, ℕ, ◌<◌, IsTrue, IfOk, OnOk, Some, length, map, slice_get};
ghost use Rattle.std.specs.List.Sorted.{IsStrictlySortedBy};
ghost use Rattle.lfg_terms.specs.Order.{name_cmp};
ghost use Rattle.lfg_model.specs.Graphs.{IsGraph};
ghost use Rattle.lfg_model.specs.Lists.{In, Lists, Once};
ghost use Rattle.lfg_model.specs.Loads.{IsCategoryOf, IsUnaryCycle};
ghost use Rattle.lfg_grammar.specs.Cycles.{AreRuleLinks, FirstPlace, LeadsTo, RanksBelow, RanksFall, RanksRise, RuleLinks, TellsCycles, rank_of};
ghost use Rattle.lfg_grammar.specs.OnlyDaughters.{IsOnlyDaughter};
ghost use Rattle.lfg_grammar.specs.Reach.{link};

use crate::reach::{Link, reached, table_of, turned};
use crate::unary::only_daughters;
use lfg_terms::{Grammar, Name, Rule};
use std::alloc::{AllocError, Global};

/// The place of the category in the list of all, from 0. It stands there, so the search finds it.
fn place_of(cats: &[Name], cat: &Name) -> usize
    requires sorted { IsStrictlySortedBy name_cmp cats.now }
    requires among { In cat.now cats.now }
    ensures { slice_get cats.now result ≡ Some cat.now }
{
    match cats.binary_search(cat) {
        Ok(place) => place,
        Err(place) => place,
    }
}

/// Appends a link from the rule's category to each that can be its only daughter.
fn push_rule_links(
    alloc: Global,
    links: &mut Vec<Link>,
    cats: &[Name],
    rule: &Rule,
) -> Result<(), AllocError>
    requires graph { IsGraph rule.now.graph }
    requires sorted { IsStrictlySortedBy name_cmp cats.now }
    requires above { In rule.now.cat cats.now }
    requires below { (cat : Name) → IsOnlyDaughter rule.now cat → In cat cats.now }
    ensures { OnOk result ((a b : ℕ) → In (link a b) links.new.items ↔ (In (link a b) links.old.items ⊎ RuleLinks cats.now rule.now a b)) }
{
    let from = place_of(cats, &rule.cat);
    let daughters = only_daughters(alloc, rule)?;
    for cat in &daughters {
        links.push(Link {
            from,
            to: place_of(cats, *cat),
        })?;
    }
    Ok(())
}

/// The links from each rule's category to those that can be its only daughter.
fn category_links(alloc: Global, cats: &[Name], rules: &[Rule]) -> Result<Vec<Link>, AllocError>
    requires graphs { (r : Rule) → In r rules.now → IsGraph r.graph }
    requires sorted { IsStrictlySortedBy name_cmp cats.now }
    requires above { (r : Rule) → In r rules.now → In r.cat cats.now }
    requires below { (r : Rule) (cat : Name) → In r rules.now → IsOnlyDaughter r cat → In cat cats.now }
    ensures { IfOk result (λ links. AreRuleLinks cats.now rules.now links.items) }
{
    let mut links = Vec::new(alloc);
    for rule in rules {
        push_rule_links(alloc, &mut links, cats, rule)?;
    }
    Ok(links)
}

/// Ranks for the numbers of a table, from its links and from the same links the other way: each
/// number from which no cycle is reached has a rank above those that it is linked to, and the others
/// have 0 (topological order, after Kahn 1962). `ranks_fall` checks them.
fn ranks_from(
    alloc: Global,
    next: &[Vec<usize>],
    back: &[Vec<usize>],
) -> Result<Vec<usize>, AllocError> {
    let mut left = Vec::new(alloc);
    let mut ready = Vec::new(alloc);
    for (number, row) in next.iter().enumerate() {
        left.push(row.len())?;
        if row.is_empty() {
            ready.push(number)?;
        }
    }
    let mut ranks = vec![in alloc; 0; next.len()]?;
    for at in 0..next.len() {
        let Some(number) = ready.get(at).copied() else {
            break;
        };
        if let Some(rank) = ranks.get_mut(number) {
            *rank = at + 1;
        }
        if let Some(row) = back.get(number) {
            count_down(row, &mut left, &mut ready)?;
        }
    }
    Ok(ranks)
}

/// Takes one from the count of each number of the row, and appends those whose count is 0 then.
fn count_down(
    row: &[usize],
    left: &mut Vec<usize>,
    ready: &mut Vec<usize>,
) -> Result<(), AllocError> {
    for number in row {
        if let Some(count) = left.get_mut(*number) {
            *count = count.saturating_sub(1);
            if *count == 0 {
                ready.push(*number)?;
            }
        }
    }
    Ok(())
}

/// The rank at this place, or 0 where there is none.
fn rank_of(ranks: &[usize], place: usize) -> usize
    ensures { result ≡ rank_of ranks.now place }
{
    match ranks.get(place) {
        Some(rank) => *rank,
        None => 0,
    }
}

/// Whether each place of the row has a rank below this one.
fn all_below(row: &[usize], ranks: &[usize], rank: usize) -> bool
    ensures { IsTrue result → (j : ℕ) → In j row.now → RanksBelow ranks.now rank j }
{
    for place in row {
        let below = rank_of(ranks, *place);
        if below == 0 || below >= rank {
            return false;
        }
    }
    true
}

/// Whether what a place with a rank is linked to has a lower rank.
fn ranks_fall(next: &[Vec<usize>], ranks: &[usize]) -> bool
    ensures { IsTrue result → RanksFall next.now ranks.now }
{
    for (place, row) in next.iter().enumerate() {
        let rank = rank_of(ranks, place);
        if rank > 0 && !all_below(row, ranks, rank) {
            return false;
        }
    }
    true
}

/// Ranks of the places that fall along the links. A place from which a cycle is reached has none.
fn falling_ranks(
    alloc: Global,
    next: &[Vec<usize>],
    back: &[Vec<usize>],
) -> Result<Vec<usize>, AllocError>
    ensures { IfOk result (λ ranks. RanksFall next.now ranks.items) }
{
    let ranks = ranks_from(alloc, next, back)?;
    if ranks_fall(next, &ranks) {
        return Ok(ranks);
    }
    Ok(Vec::new(alloc))
}

/// Whether the place leads to itself, at once or through others.
fn leads_back(alloc: Global, next: &[Vec<usize>], place: usize) -> Result<bool, AllocError>
    requires { place < length next.now }
    ensures { IfOk result (λ yes. IsTrue yes ↔ LeadsTo next.now place place) }
{
    let marks = reached(alloc, next, &next[place])?;
    Ok(marks[place])
}

/// The same, where ranks fall along the links and others rise along them: a place with a rank of
/// either does not lead to itself, and takes no search.
fn is_on_cycle(
    alloc: Global,
    next: &[Vec<usize>],
    falling: &[usize],
    rising: &[usize],
    place: usize,
) -> Result<bool, AllocError>
    requires place { place < length next.now }
    requires falling { RanksFall next.now falling.now }
    requires rising { RanksRise next.now rising.now }
    ensures { IfOk result (λ yes. IsTrue yes ↔ LeadsTo next.now place place) }
{
    let below = rank_of(falling, place);
    if below > 0 {
        return Ok(false);
    }
    let above = rank_of(rising, place);
    if above > 0 {
        return Ok(false);
    }
    leads_back(alloc, next, place)
}

/// The place among the rules of the first whose category leads to itself over the table, from 0.
fn first_on_cycle(
    alloc: Global,
    grammar: &Grammar,
    next: &[Vec<usize>],
    falling: &[usize],
    rising: &[usize],
) -> Result<Option<usize>, AllocError>
    requires cats { Lists name_cmp (IsCategoryOf grammar.now) grammar.now.cats }
    requires table { TellsCycles grammar.now next.now }
    requires falling { RanksFall next.now falling.now }
    requires rising { RanksRise next.now rising.now }
    ensures { IfOk result (FirstPlace (IsUnaryCycle grammar.now) grammar.now.rules) }
{
    let cats = grammar.cats.list();
    for (place, rule) in grammar.rules.list().iter().enumerate() {
        let at = place_of(cats, &rule.cat);
        if is_on_cycle(alloc, next, falling, rising, at)? {
            return Ok(Some(place));
        }
    }
    Ok(None)
}

/// The place among the rules, from 0, of the first whose category can be its own only daughter,
/// directly or through others.
///
/// Each link of the rules' graphs is read a fixed number of times, and each link between categories
/// once more for each category that is above one cycle and below another.
///
/// # Errors
///
/// Only for want of memory.
pub(crate) fn first_unary_cycle(
    alloc: Global,
    grammar: &Grammar,
) -> Result<Option<usize>, AllocError>
    requires graphs { (r : Rule) → In r grammar.now.rules → IsGraph r.graph }
    requires cats { Lists name_cmp (IsCategoryOf grammar.now) grammar.now.cats }
    requires once { Once (map (λ r. r.cat) grammar.now.rules) }
    ensures { IfOk result (FirstPlace (IsUnaryCycle grammar.now) grammar.now.rules) }
{
    let cats = grammar.cats.list();
    let rules = grammar.rules.list();
    let links = category_links(alloc, cats, rules)?;
    let next = table_of(alloc, cats.len(), &links)?;
    let turned = turned(alloc, &links)?;
    let back = table_of(alloc, cats.len(), &turned)?;
    let falling = falling_ranks(alloc, &next, &back)?;
    let rising = falling_ranks(alloc, &back, &next)?;
    first_on_cycle(alloc, grammar, &next, &falling, &rising)
}
