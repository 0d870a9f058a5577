ghost use Rattle.std.specs.Prelude.{◌≡◌, IfOk, map};
ghost use Rattle.lfg_terms.specs.declared.draft.DraftRule.{DraftRule};
ghost use Rattle.lfg_terms.specs.declared.draft.LexEntry.{LexEntry};
ghost use Rattle.lfg_model.specs.Lists.{In};
ghost use Rattle.lfg_model.specs.RightSides.{draft_annotation_of, right_side_of};
ghost use Rattle.lfg_model.specs.DraftForms.{draft_form, plain_form, rule_form, template_form, word_form};
ghost use Rattle.lfg_model.specs.Templates.{Each, RuleBecomes, ReadingBecomes, Expands};
ghost use Rattle.lfg_model.specs.TemplateRules.{calls, side_calls};
ghost use Rattle.lfg_templates.specs.Depth.{AllLead, DraftLeads};

use crate::bound::Bound;
use crate::expansion::expand_all;
use crate::sides::expand_side;
use crate::templates::Templates;
use lfg_terms::{Draft, DraftRule, LexEntry, List, Plain, Setting};
use std::alloc::{AllocError, Global};

/// The rule, each call replaced.
fn expand_rule(
    alloc: Global,
    templates: &Templates<'_>,
    depth: usize,
    rule: &DraftRule,
) -> Result<DraftRule, AllocError>
    requires { AllLead (map template_form templates.now) depth (side_calls (right_side_of rule.now.rhs)) }
    ensures { IfOk result (λ r. RuleBecomes (map template_form templates.now) (rule_form rule.now) (rule_form r)) }
{
    let cat = rule.cat.clone()?;
    let rhs = expand_side(alloc, templates, depth, &rule.rhs)?;
    Ok(DraftRule {
        entry: rule.entry,
        cat,
        rhs,
    })
}

/// The rules, each call replaced.
fn expand_rules(
    alloc: Global,
    templates: &Templates<'_>,
    depth: usize,
    rules: &[DraftRule],
) -> Result<Vec<DraftRule>, AllocError>
    requires { (r : DraftRule) → In r rules.now → AllLead (map template_form templates.now) depth (side_calls (right_side_of r.rhs)) }
    ensures { IfOk result (λ v. Each (RuleBecomes (map template_form templates.now)) (map rule_form rules.now) (map rule_form v.items)) }
{
    let mut out = Vec::new(alloc);
    for rule in rules {
        out.push(expand_rule(alloc, templates, depth, rule)?)?;
    }
    Ok(out)
}

/// The reading, each call replaced.
fn expand_reading(
    alloc: Global,
    templates: &Templates<'_>,
    depth: usize,
    entry: &LexEntry,
) -> Result<LexEntry, AllocError>
    requires { AllLead (map template_form templates.now) depth (calls (draft_annotation_of entry.now.schemata)) }
    ensures { IfOk result (λ r. ReadingBecomes (map template_form templates.now) (word_form entry.now) (word_form r)) }
{
    let form = entry.form.clone()?;
    let cat = entry.cat.clone()?;
    let unbound = Bound {
        params: &[],
        args: &[],
    };
    let schemata = expand_all(alloc, templates, depth, &unbound, entry.schemata.list())?;
    Ok(LexEntry {
        entry: entry.entry,
        form,
        cat,
        schemata: List::new(alloc, schemata)?,
    })
}

/// The readings, each call replaced.
fn expand_readings(
    alloc: Global,
    templates: &Templates<'_>,
    depth: usize,
    entries: &[LexEntry],
) -> Result<Vec<LexEntry>, AllocError>
    requires { (r : LexEntry) → In r entries.now → AllLead (map template_form templates.now) depth (calls (draft_annotation_of r.schemata)) }
    ensures { IfOk result (λ v. Each (ReadingBecomes (map template_form templates.now)) (map word_form entries.now) (map word_form v.items)) }
{
    let mut out = Vec::new(alloc);
    for entry in entries {
        out.push(expand_reading(alloc, templates, depth, entry)?)?;
    }
    Ok(out)
}

/// A copy of the setting.
fn copy_setting(setting: &Setting) -> Result<Setting, AllocError>
    ensures { IfOk result (λ s. s ≡ setting.now) }
{
    let key = setting.key.clone()?;
    let words = setting.words.clone()?;
    Ok(Setting {
        entry: setting.entry,
        key,
        words,
    })
}

/// A copy of the settings.
fn copy_settings(alloc: Global, settings: &[Setting]) -> Result<Vec<Setting>, AllocError>
    ensures { IfOk result (λ v. v.items ≡ settings.now) }
{
    let mut out = Vec::new(alloc);
    for setting in settings {
        out.push(copy_setting(setting)?)?;
    }
    Ok(out)
}

/// The draft, each call replaced. The calls go at most `depth` deep.
pub(crate) fn plain(
    alloc: Global,
    draft: &Draft,
    templates: &Templates<'_>,
    depth: usize,
) -> Result<Plain, AllocError>
    requires templates { templates.now ≡ draft.now.templates }
    requires leads { DraftLeads (draft_form draft.now) depth }
    ensures { IfOk result (λ p. Expands (draft_form draft.now) (plain_form p)) }
{
    let settings = copy_settings(alloc, draft.settings.list())?;
    let rules = expand_rules(alloc, templates, depth, draft.rules.list())?;
    let entries = expand_readings(alloc, templates, depth, draft.entries.list())?;
    Ok(Plain {
        settings: List::new(alloc, settings)?,
        rules: List::new(alloc, rules)?,
        entries: List::new(alloc, entries)?,
    })
}
