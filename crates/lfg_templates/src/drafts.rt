ghost use Rattle.std.specs.Prelude.{◌≡◌, ◌⊎◌, Err, IfOk, IfErr, IsOkUnless, map};
ghost use Rattle.lfg_model.specs.DraftForms.{PlainForm, draft_form, plain_form};
ghost use Rattle.lfg_model.specs.TemplateRules.{IsExpanded};
ghost use Rattle.lfg_templates.specs.declared.fault.TemplateFault.{TemplateFault};
ghost use Rattle.lfg_templates.specs.Faults.{Breaks, Refuses, Fits};

use crate::checks::check;
use crate::fault::TemplateFault;
use crate::plain::plain;
use crate::templates::Templates;
use crate::totals::first_too_much;
use lfg_terms::{Draft, Plain};
use std::alloc::Global;

/// Replaces the calls of a draft that breaks no rule but maybe that on the number of schemata.
fn expand_fitting(
    alloc: Global,
    draft: &Draft,
    templates: &Templates<'_>,
) -> Result<Plain, TemplateFault>
    requires templates { templates.now ≡ draft.now.templates }
    requires fits { Fits (draft_form draft.now) }
    ensures expanded { IfOk result (λ p. IsExpanded (draft_form draft.now) (plain_form p)) }
    ensures refused { IfErr result (λ fault. Refuses (draft_form draft.now) fault) }
{
    let depth = draft.templates.list().len();
    let first = first_too_much(alloc, draft, templates, depth)?;
    if let Some(entry) = first {
        return Err(TemplateFault::TooMuch { entry });
    }
    let plain = plain(alloc, draft, templates, depth)?;
    Ok(plain)
}

/// Replaces the calls of a draft, or names the first of its faults.
fn expand_checked(alloc: Global, draft: &Draft) -> Result<Plain, TemplateFault>
    ensures expanded { IfOk result (λ p. IsExpanded (draft_form draft.now) (plain_form p)) }
    ensures refused { IfErr result (λ fault. Refuses (draft_form draft.now) fault) }
{
    let templates = Templates::new(alloc, draft.templates.list())?;
    check(alloc, draft, &templates)?;
    expand_fitting(alloc, draft, &templates)
}

/// The draft with each call of a template replaced: by the annotation of the template, in which the
/// arguments of the call stand in place of the parameters.
///
/// # Errors
///
/// Each exactly where its rule is the first that is broken, with the first place in written order,
/// which is by `entry` and inside one entry that of the list:
///
/// - `Repeated`: a rule's category, a template's name or a word form heads a second entry of its
///   section, or a template names a parameter twice;
/// - `Undefined`: a call names no template;
/// - `Arity`: a call has another number of arguments than its template has parameters;
/// - `TemplateCycle`: a template calls itself, directly or through others, whether it is called or
///   not;
/// - `TooMuch`: the schemata of the rules and the lexicon up to this entry would be more than
///   400,000, each disjunction and option counted too;
/// - `Memory`: for want of memory, at any time.
pub fn expand(alloc: Global, draft: &Draft) -> Result<Plain, TemplateFault>
    ensures expanded { IfOk result (λ p. IsExpanded (draft_form draft.now) (plain_form p)) }
    ensures refused { IfErr result (λ fault. Refuses (draft_form draft.now) fault) }
    ensures accepted { (p : PlainForm) → IsExpanded (draft_form draft.now) p → IsOkUnless result TemplateFault.Memory }
    ensures broken { (fault : TemplateFault) → Breaks (draft_form draft.now) fault
        → (result ≡ Err fault) ⊎ (result ≡ Err TemplateFault.Memory) }
{
    expand_checked(alloc, draft)
}
