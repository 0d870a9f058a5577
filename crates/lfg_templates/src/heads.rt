ghost use Rattle.std.specs.Prelude.{◌≡◌, ◌≢◌, ◌↔◌, IfOk, IsTrue, false, List, [], ◌∷◌, ◌++◌, map};
ghost use Rattle.std.specs.Option.{option_map};
ghost use Rattle.lfg_model.specs.Lists.{In};
ghost use Rattle.lfg_model.specs.DraftForms.{draft_form, rule_form, template_form, word_form};
ghost use Rattle.lfg_model.specs.TemplateRules as written;
ghost use Rattle.lfg_model.specs.TemplateRules.{HeadsBefore, Headed, Twice, Repeated, headed, heads, head_entry, rule_head, template_head, reading_head, head_name};
ghost use Rattle.lfg_templates.specs.Headings.{Tells};
ghost use Rattle.lfg_templates.specs.Spots.{Finds};
ghost use Rattle.lfg_templates.specs.Views.{head_of, spot_of};

use crate::spots::{Spot, earlier};
use indexmap::{IndexMap, IndexSet};
use lfg_terms::{Draft, DraftRule, LexEntry, Name, Template};
use std::alloc::{AllocError, Global};

/// What heads an entry: its number, and a category, a template's name or a word form; and the
/// parameters of a template.
#[derive(Clone, Copy)]
pub(crate) struct Head<'a> {
    pub entry: u32,
    pub name: &'a Name,
    pub params: &'a [Name],
}

/// The categories of the rules.
fn rule_heads<'a>(alloc: Global, rules: &'a [DraftRule]) -> Result<Vec<Head<'a>>, AllocError>
    ensures { IfOk result (λ v. map head_of v.items ≡ map rule_head (map rule_form rules.now)) }
{
    let mut out = Vec::new(alloc);
    for rule in rules {
        out.push(Head {
            entry: rule.entry,
            name: &rule.cat,
            params: &[],
        })?;
    }
    Ok(out)
}

/// The names of the templates.
fn template_heads<'a>(alloc: Global, templates: &'a [Template]) -> Result<Vec<Head<'a>>, AllocError>
    ensures { IfOk result (λ v. map head_of v.items ≡ map template_head (map template_form templates.now)) }
{
    let mut out = Vec::new(alloc);
    for template in templates {
        out.push(Head {
            entry: template.entry,
            name: &template.name,
            params: template.params.list(),
        })?;
    }
    Ok(out)
}

/// The word forms of the lexicon.
fn reading_heads<'a>(alloc: Global, entries: &'a [LexEntry]) -> Result<Vec<Head<'a>>, AllocError>
    ensures { IfOk result (λ v. map head_of v.items ≡ map reading_head (map word_form entries.now)) }
{
    let mut out = Vec::new(alloc);
    for entry in entries {
        out.push(Head {
            entry: entry.entry,
            name: &entry.form,
            params: &[],
        })?;
    }
    Ok(out)
}

/// What is known of a name that heads an entry: the number of that entry, and whether the name heads
/// another one too.
#[derive(Clone, Copy, Debug, Drop)]
pub(crate) struct Heading {
    pub entry: u32,
    pub again: bool,
}

/// What is known of a name once it heads this entry too.
fn with_entry(before: Option<Heading>, entry: u32) -> Heading
    ensures { (hs : List written.Head) (h : written.Head) → h.entry ≡ entry → Tells hs h.name before → Tells (hs ++ h ∷ []) h.name (Some result) }
{
    let Some(heading) = before else {
        return Heading {
            entry,
            again: false,
        };
    };
    if heading.entry == entry {
        return heading;
    }
    Heading {
        entry: heading.entry,
        again: true,
    }
}

/// Whether a name of which this is known heads another entry than this one.
fn heads_another(before: Option<Heading>, entry: u32) -> bool
    ensures yes { IsTrue result → (hs : List written.Head) (h : written.Head) → h.entry ≡ entry → Tells hs h.name before → HeadsBefore h hs }
    ensures no { result ≡ false → (hs : List written.Head) (h : written.Head) → h.entry ≡ entry → Tells hs h.name before → ¬ HeadsBefore h hs }
{
    let Some(heading) = before else {
        return false;
    };
    if heading.entry != entry {
        return true;
    }
    heading.again
}

/// Whether a name stands among these twice.
fn is_twice(alloc: Global, names: &[Name]) -> Result<bool, AllocError>
    ensures yes { IfOk result (λ twice. IsTrue twice → Twice names.now) }
    ensures no { IfOk result (λ twice. twice ≡ false → ¬ Twice names.now) }
{
    let mut before = IndexSet::new(alloc);
    for name in names {
        if before.contains(name) {
            return Ok(true);
        }
        before.insert(name.clone()?)?;
    }
    Ok(false)
}

/// The first spot so far, where the head comes behind some of which this is known of its name, and
/// may be repeated.
fn with_head<'a>(
    alloc: Global,
    first: Option<Spot<'a>>,
    head: Head<'a>,
    before: Option<Heading>,
) -> Result<Option<Spot<'a>>, AllocError>
    ensures { IfOk result (λ r. (hs : List Headed) (before_it : List written.Head) → Tells before_it head.entry.name.now before
        → Finds head_entry head_name Repeated hs (option_map spot_of first.entry)
        → Finds head_entry head_name Repeated (hs ++ record { head = head_of head.entry; earlier = before_it } ∷ []) (option_map spot_of r)) }
{
    let spot = Spot {
        entry: head.entry,
        name: head.name,
    };
    if heads_another(before, head.entry) {
        return Ok(earlier(first, Some(spot)));
    }
    if is_twice(alloc, head.params)? {
        return Ok(earlier(first, Some(spot)));
    }
    Ok(first)
}

/// The first head of a section, in written order, that is repeated, or that names a parameter
/// twice.
fn first_repeated<'a>(alloc: Global, heads: &[Head<'a>]) -> Result<Option<Spot<'a>>, AllocError>
    ensures { IfOk result (λ r. Finds head_entry head_name Repeated (headed (map head_of heads.now)) (option_map spot_of r)) }
{
    let mut headings = IndexMap::new(alloc);
    let mut first = None;
    for head in heads {
        let before = headings.get(head.name).copied();
        first = with_head(alloc, first, *head, before)?;
        headings.insert(head.name.clone()?, with_entry(before, head.entry))?;
    }
    Ok(first)
}

/// The first head of the draft, in written order, that heads a second entry of its section, or that
/// names a parameter twice.
pub(crate) fn repeated<'a>(alloc: Global, draft: &'a Draft) -> Result<Option<Spot<'a>>, AllocError>
    ensures { IfOk result (λ first. Finds head_entry head_name Repeated (heads (draft_form draft.now)) (option_map spot_of first)) }
{
    let rules = rule_heads(alloc, draft.rules.list())?;
    let templates = template_heads(alloc, draft.templates.list())?;
    let readings = reading_heads(alloc, draft.entries.list())?;
    let first_rule = first_repeated(alloc, &rules)?;
    let first_template = first_repeated(alloc, &templates)?;
    let first_reading = first_repeated(alloc, &readings)?;
    let first = earlier(first_rule, first_template);
    Ok(earlier(first, first_reading))
}
