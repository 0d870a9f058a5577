ghost use Rattle.std.specs.Prelude.{◌≡◌, IfOk, OnOk, List, [], ◌∷◌, ◌++◌, map};
ghost use Rattle.std.specs.List.{flat_map};
ghost use Rattle.std.specs.Option.{option_map};
ghost use Rattle.lfg_model.specs.RightSides.{draft_schema_of, draft_annotation_of, right_side_of, right_sides_of};
ghost use Rattle.lfg_model.specs.DraftForms.{draft_form, rule_form, template_form, word_form};
ghost use Rattle.lfg_model.specs.TemplateRules.{CallAt, call_at, schema_calls, calls, option_calls, side_calls, sides_calls, rule_calls, template_calls, reading_calls, draft_calls, call_entry, IsUndefined, HasOtherArity, call_name};
ghost use Rattle.lfg_templates.specs.Spots.{Finds};
ghost use Rattle.lfg_templates.specs.Views.{called_of, spot_of};

use crate::spots::{Spot, earlier};
use crate::templates::Templates;
use lfg_terms::{Draft, DraftRule, LexEntry, Name, PathExpr, Rhs, Schema, Template};
use std::alloc::{AllocError, Global};

/// A call of a template, with the number of the entry in which it stands.
#[derive(Clone, Copy)]
pub(crate) struct Called<'a> {
    pub entry: u32,
    pub name: &'a Name,
    pub args: &'a [Name],
}

/// Appends the calls in the schemata, in written order.
#[cycle(calls)]
pub(crate) fn push_calls<'a>(
    out: &mut Vec<Called<'a>>,
    entry: u32,
    schemata: &'a [Schema<PathExpr>],
) -> Result<(), AllocError>
    ensures { OnOk result (map called_of out.new.items ≡ map called_of out.old.items ++ map (call_at entry) (calls (draft_annotation_of schemata.now))) }
{
    for schema in schemata {
        push_schema_calls(out, entry, schema)?;
    }
    Ok(())
}

/// Appends the calls in the schema.
#[cycle(calls)]
fn push_schema_calls<'a>(
    out: &mut Vec<Called<'a>>,
    entry: u32,
    schema: &'a Schema<PathExpr>,
) -> Result<(), AllocError>
    ensures { OnOk result (map called_of out.new.items ≡ map called_of out.old.items ++ map (call_at entry) (schema_calls (draft_schema_of schema.now))) }
{
    match schema {
        Schema::Define { .. } => Ok(()),
        Schema::Constrain { .. } => Ok(()),
        Schema::Exists { .. } => Ok(()),
        Schema::Member { .. } => Ok(()),
        Schema::Mark(_) => Ok(()),
        Schema::Maybe(inside) => push_calls(out, entry, inside),
        Schema::Either(branches) => {
            for branch in branches {
                push_calls(out, entry, branch)?;
            }
            Ok(())
        }
        Schema::Call { name, args } => {
            out.push(Called {
                entry,
                name,
                args: args.list(),
            })?;
            Ok(())
        }
    }
}

/// Appends the calls in the annotation of an item, if it has one.
fn push_option_calls<'a>(
    out: &mut Vec<Called<'a>>,
    entry: u32,
    schemata: &'a Option<Vec<Schema<PathExpr>>>,
) -> Result<(), AllocError>
    ensures { OnOk result (map called_of out.new.items ≡ map called_of out.old.items ++ map (call_at entry) (option_calls (option_map (λ v. draft_annotation_of v.items) schemata.now))) }
{
    let Some(schemata) = schemata else {
        return Ok(());
    };
    push_calls(out, entry, schemata)
}

/// Appends the calls in the right side.
#[cycle(side)]
fn push_side_calls<'a>(
    out: &mut Vec<Called<'a>>,
    entry: u32,
    side: &'a Rhs,
) -> Result<(), AllocError>
    ensures { OnOk result (map called_of out.new.items ≡ map called_of out.old.items ++ map (call_at entry) (side_calls (right_side_of side.now))) }
{
    match side {
        Rhs::Item { schemata, .. } => push_option_calls(out, entry, schemata),
        Rhs::Row(parts) => push_sides_calls(out, entry, parts),
        Rhs::OneOf(branches) => push_sides_calls(out, entry, branches),
        Rhs::Maybe(inside) => push_side_calls(out, entry, inside),
        Rhs::Star(inside) => push_side_calls(out, entry, inside),
        Rhs::Plus(inside) => push_side_calls(out, entry, inside),
    }
}

/// Appends the calls in the right sides.
#[cycle(side)]
fn push_sides_calls<'a>(
    out: &mut Vec<Called<'a>>,
    entry: u32,
    sides: &'a [Rhs],
) -> Result<(), AllocError>
    ensures { OnOk result (map called_of out.new.items ≡ map called_of out.old.items ++ map (call_at entry) (sides_calls (right_sides_of sides.now))) }
{
    for side in sides {
        push_side_calls(out, entry, side)?;
    }
    Ok(())
}

/// Appends the calls in the rules.
fn push_rule_calls<'a>(out: &mut Vec<Called<'a>>, rules: &'a [DraftRule]) -> Result<(), AllocError>
    ensures { OnOk result (map called_of out.new.items ≡ map called_of out.old.items ++ flat_map rule_calls (map rule_form rules.now)) }
{
    for rule in rules {
        push_side_calls(out, rule.entry, &rule.rhs)?;
    }
    Ok(())
}

/// Appends the calls in the bodies of the templates.
fn push_template_calls<'a>(
    out: &mut Vec<Called<'a>>,
    templates: &'a [Template],
) -> Result<(), AllocError>
    ensures { OnOk result (map called_of out.new.items ≡ map called_of out.old.items ++ flat_map template_calls (map template_form templates.now)) }
{
    for template in templates {
        push_calls(out, template.entry, template.body.list())?;
    }
    Ok(())
}

/// Appends the calls in the readings of the lexicon.
fn push_reading_calls<'a>(
    out: &mut Vec<Called<'a>>,
    entries: &'a [LexEntry],
) -> Result<(), AllocError>
    ensures { OnOk result (map called_of out.new.items ≡ map called_of out.old.items ++ flat_map reading_calls (map word_form entries.now)) }
{
    for entry in entries {
        push_calls(out, entry.entry, entry.schemata.list())?;
    }
    Ok(())
}

/// All calls of the draft.
pub(crate) fn draft_calls<'a>(
    alloc: Global,
    draft: &'a Draft,
) -> Result<Vec<Called<'a>>, AllocError>
    ensures { IfOk result (λ v. map called_of v.items ≡ draft_calls (draft_form draft.now)) }
{
    let mut out = Vec::new(alloc);
    push_rule_calls(&mut out, draft.rules.list())?;
    push_template_calls(&mut out, draft.templates.list())?;
    push_reading_calls(&mut out, draft.entries.list())?;
    Ok(out)
}

/// The first spot so far, where the call comes behind and may name no template.
fn with_undefined<'a>(
    templates: &Templates<'_>,
    first: Option<Spot<'a>>,
    call: Called<'a>,
) -> Option<Spot<'a>>
    ensures { (cs : List CallAt) → Finds call_entry call_name (IsUndefined (map template_form templates.now)) cs (option_map spot_of first.entry)
        → Finds call_entry call_name (IsUndefined (map template_form templates.now)) (cs ++ called_of call.entry ∷ []) (option_map spot_of result) }
{
    let Some(_) = templates.named(call.name) else {
        let spot = Spot {
            entry: call.entry,
            name: call.name,
        };
        return earlier(first, Some(spot));
    };
    first
}

/// The first call, in written order, that names no template.
pub(crate) fn first_undefined<'a>(
    templates: &Templates<'_>,
    calls: &[Called<'a>],
) -> Option<Spot<'a>>
    ensures { Finds call_entry call_name (IsUndefined (map template_form templates.now)) (map called_of calls.now) (option_map spot_of result) }
{
    let mut first = None;
    for call in calls {
        first = with_undefined(templates, first, *call);
    }
    first
}

/// The first spot so far, where the call comes behind and may have another number of arguments than
/// its template has parameters.
fn with_other_arity<'a>(
    templates: &Templates<'_>,
    first: Option<Spot<'a>>,
    call: Called<'a>,
) -> Option<Spot<'a>>
    ensures { (cs : List CallAt) → Finds call_entry call_name (HasOtherArity (map template_form templates.now)) cs (option_map spot_of first.entry)
        → Finds call_entry call_name (HasOtherArity (map template_form templates.now)) (cs ++ called_of call.entry ∷ []) (option_map spot_of result) }
{
    let Some(template) = templates.named(call.name) else {
        return first;
    };
    if template.params.list().len() == call.args.len() {
        return first;
    }
    let spot = Spot {
        entry: call.entry,
        name: call.name,
    };
    earlier(first, Some(spot))
}

/// The first call, in written order, that has another number of arguments than its template has
/// parameters.
pub(crate) fn first_other_arity<'a>(
    templates: &Templates<'_>,
    calls: &[Called<'a>],
) -> Option<Spot<'a>>
    ensures { Finds call_entry call_name (HasOtherArity (map template_form templates.now)) (map called_of calls.now) (option_map spot_of result) }
{
    let mut first = None;
    for call in calls {
        first = with_other_arity(templates, first, *call);
    }
    first
}
