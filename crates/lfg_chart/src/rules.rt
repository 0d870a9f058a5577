ghost use Rattle.std.specs.Prelude.{◌≡◌, ℕ, ◌+◌, ◌*◌, ◌<◌, ◌≤◌, None, Some, IfOk, length, slice_get};
ghost use Rattle.std.specs.List.Sorted.{IsStrictlySortedBy};
ghost use Rattle.lfg_chart.specs.Numbers.{AreRulesOf, IsRuleOver, items_in};
ghost use Rattle.lfg_model.specs.Lists.{In};
ghost use Rattle.lfg_terms.specs.Order.{name_cmp};
ghost use Rattle.lfg_terms.specs.declared.grammar.Rule.{Rule};

use crate::links::{RuleLinks, links_of, number_of};
use lfg_terms::{Name, Rule, Steps};
use std::alloc::{AllocError, Global};
use std::sync::ledger::Ledger;

/// No rule for each of this number of categories.
fn no_rules(alloc: Global, count: usize) -> Result<Vec<Option<RuleLinks>>, AllocError>
    ensures length { IfOk result (λ found. length found.items ≡ count) }
    ensures none { IfOk result (λ found. (k : ℕ) → k < count → slice_get found.items k ≡ Some None) }
{
    let mut found = Vec::new(alloc);
    for _cat in 0..count {
        found.push(None)?;
    }
    Ok(found)
}

/// For each category the links and ends of its rule, if it has one.
pub(crate) fn rules_of<L: Ledger>(
    alloc: Global,
    cats: &[Name],
    rules: &[Rule],
    steps: &mut Steps<L>,
) -> Result<Vec<Option<RuleLinks>>, AllocError>
    requires ordered { IsStrictlySortedBy name_cmp cats.now }
    requires rules { (rule : Rule) → In rule rules.now → IsRuleOver cats.now rule }
    ensures rules { IfOk result (λ found. AreRulesOf cats.now rules.now found.items) }
    ensures steps { steps.new ≤ steps.old + (items_in rules.now + 1) * items_in rules.now }
{
    let mut found = no_rules(alloc, cats.len())?;
    let mut left = rules.len();
    while left > 0 {
        left -= 1;
        let rule = &rules[left];
        let links = links_of(alloc, cats, rule, steps)?;
        let number = number_of(cats, &rule.cat);
        found[number] = Some(links);
    }
    Ok(found)
}
