ghost use Rattle.std.specs.Prelude.{◌≡◌, IfErr, OnOk, map};
ghost use Rattle.lfg_model.specs.DraftForms.{draft_form};
ghost use Rattle.lfg_model.specs.TemplateRules.{NoneRepeated, NoneUndefined, NoneOtherArity, NoneCyclic, draft_calls};
ghost use Rattle.lfg_templates.specs.Faults.{Refuses, Fits};
ghost use Rattle.lfg_templates.specs.Views.{called_of};

use crate::calls::{Called, draft_calls, first_other_arity, first_undefined};
use crate::cycles::first_cycle;
use crate::fault::TemplateFault;
use crate::heads::repeated;
use crate::templates::Templates;
use lfg_terms::Draft;
use std::alloc::Global;

/// Refuses a draft in which something is repeated.
fn check_heads(alloc: Global, draft: &Draft) -> Result<(), TemplateFault>
    ensures kept { OnOk result (NoneRepeated (draft_form draft.now)) }
    ensures broken { IfErr result (λ fault. Refuses (draft_form draft.now) fault) }
{
    let first = repeated(alloc, draft)?;
    let Some(spot) = first else {
        return Ok(());
    };
    let name = spot.name.clone()?;
    Err(TemplateFault::Repeated { name })
}

/// Refuses a draft in which a call names no template.
fn check_names(
    draft: &Draft,
    templates: &Templates<'_>,
    calls: &[Called<'_>],
) -> Result<(), TemplateFault>
    requires templates { templates.now ≡ draft.now.templates }
    requires calls { map called_of calls.now ≡ draft_calls (draft_form draft.now) }
    requires once { NoneRepeated (draft_form draft.now) }
    ensures kept { OnOk result (NoneUndefined (draft_form draft.now)) }
    ensures broken { IfErr result (λ fault. Refuses (draft_form draft.now) fault) }
{
    let Some(spot) = first_undefined(templates, calls) else {
        return Ok(());
    };
    let name = spot.name.clone()?;
    Err(TemplateFault::Undefined { name })
}

/// Refuses a draft in which a call has another number of arguments than its template has parameters.
fn check_arities(
    draft: &Draft,
    templates: &Templates<'_>,
    calls: &[Called<'_>],
) -> Result<(), TemplateFault>
    requires templates { templates.now ≡ draft.now.templates }
    requires calls { map called_of calls.now ≡ draft_calls (draft_form draft.now) }
    requires once { NoneRepeated (draft_form draft.now) }
    requires defined { NoneUndefined (draft_form draft.now) }
    ensures kept { OnOk result (NoneOtherArity (draft_form draft.now)) }
    ensures broken { IfErr result (λ fault. Refuses (draft_form draft.now) fault) }
{
    let Some(spot) = first_other_arity(templates, calls) else {
        return Ok(());
    };
    let name = spot.name.clone()?;
    Err(TemplateFault::Arity { name })
}

/// Refuses a draft in which a template calls itself.
fn check_cycles(
    alloc: Global,
    draft: &Draft,
    templates: &Templates<'_>,
) -> Result<(), TemplateFault>
    requires templates { templates.now ≡ draft.now.templates }
    requires once { NoneRepeated (draft_form draft.now) }
    requires defined { NoneUndefined (draft_form draft.now) }
    requires fitting { NoneOtherArity (draft_form draft.now) }
    ensures kept { OnOk result (NoneCyclic (draft_form draft.now)) }
    ensures broken { IfErr result (λ fault. Refuses (draft_form draft.now) fault) }
{
    let first = first_cycle(alloc, templates)?;
    let Some(spot) = first else {
        return Ok(());
    };
    let name = spot.name.clone()?;
    Err(TemplateFault::TemplateCycle { name })
}

/// Refuses a draft that breaks one of the rules, but for that on the number of schemata.
pub(crate) fn check(
    alloc: Global,
    draft: &Draft,
    templates: &Templates<'_>,
) -> Result<(), TemplateFault>
    requires { templates.now ≡ draft.now.templates }
    ensures kept { OnOk result (Fits (draft_form draft.now)) }
    ensures broken { IfErr result (λ fault. Refuses (draft_form draft.now) fault) }
{
    check_heads(alloc, draft)?;
    let calls = draft_calls(alloc, draft)?;
    check_names(draft, templates, &calls)?;
    check_arities(draft, templates, &calls)?;
    check_cycles(alloc, draft, templates)
}
