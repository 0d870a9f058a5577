ghost use Rattle.std.specs.Prelude.{◌≡◌, ◌≤◌, IfOk, OnOk, MatchOption, ℕ, ◌++◌, map};
ghost use Rattle.std.specs.List.Sorted.{IsNonDecreasingBy};
ghost use Rattle.lfg_model.specs.DraftForms.{draft_form, rule_form, template_form, word_form};
ghost use Rattle.lfg_model.specs.TemplateRules.{Passes, whole_size, schema_limit};
ghost use Rattle.lfg_templates.specs.Counts.{call_count, rule_count, reading_count, draft_counts, capped_weight};
ghost use Rattle.lfg_templates.specs.Views.{weight_of};

use crate::count::{SCHEMA_LIMIT, count_all, count_side};
use crate::templates::Templates;
use lfg_terms::{Draft, DraftRule, LexEntry};
use std::alloc::{AllocError, Global};

/// How many schemata an entry has, or one more than the limit.
#[derive(Clone, Copy)]
pub(crate) struct Weight {
    pub entry: u32,
    pub size: u32,
}

/// Appends the numbers of schemata of the rules, once calls are replaced.
fn push_rule_weights(
    out: &mut Vec<Weight>,
    templates: &Templates<'_>,
    depth: usize,
    rules: &[DraftRule],
) -> Result<(), AllocError>
    ensures { OnOk result (map weight_of out.new.items ≡ map weight_of out.old.items
        ++ map (λ r. capped_weight (rule_count (call_count (map template_form templates.now) depth) (rule_form r))) rules.now) }
{
    for rule in rules {
        out.push(Weight {
            entry: rule.entry,
            size: count_side(templates, depth, &rule.rhs),
        })?;
    }
    Ok(())
}

/// Appends the numbers of schemata of the readings of the lexicon, once calls are replaced.
fn push_reading_weights(
    out: &mut Vec<Weight>,
    templates: &Templates<'_>,
    depth: usize,
    entries: &[LexEntry],
) -> Result<(), AllocError>
    ensures { OnOk result (map weight_of out.new.items ≡ map weight_of out.old.items
        ++ map (λ e. capped_weight (reading_count (call_count (map template_form templates.now) depth) (word_form e))) entries.now) }
{
    for entry in entries {
        out.push(Weight {
            entry: entry.entry,
            size: count_all(templates, depth, entry.schemata.list()),
        })?;
    }
    Ok(())
}

/// The first entry at which the number of schemata passes the limit. The entries ascend.
fn first_over(weights: &[Weight]) -> Option<u32>
    requires { IsNonDecreasingBy (λ w. w.entry) weights.now }
    ensures { MatchOption result (whole_size (map weight_of weights.now) ≤ schema_limit) (λ entry. Passes schema_limit (map weight_of weights.now) entry) }
{
    let mut sum = 0u32;
    for weight in weights {
        sum = sum.saturating_add(weight.size);
        if sum > SCHEMA_LIMIT {
            return Some(weight.entry);
        }
    }
    None
}

/// The first entry at which the number of schemata passes the limit, once calls are replaced. The
/// calls go at most `depth` deep.
pub(crate) fn first_too_much(
    alloc: Global,
    draft: &Draft,
    templates: &Templates<'_>,
    depth: usize,
) -> Result<Option<u32>, AllocError>
    requires { templates.now ≡ draft.now.templates }
    ensures { IfOk result (λ first. MatchOption first
        (whole_size (draft_counts (call_count (map template_form draft.now.templates) depth) (draft_form draft.now)) ≤ schema_limit)
        (λ entry. Passes schema_limit (draft_counts (call_count (map template_form draft.now.templates) depth) (draft_form draft.now)) entry)) }
{
    let mut weights = Vec::new(alloc);
    push_rule_weights(&mut weights, templates, depth, draft.rules.list())?;
    push_reading_weights(&mut weights, templates, depth, draft.entries.list())?;
    weights.sort_by_key(|weight| weight.entry)?;
    Ok(first_over(&weights))
}
