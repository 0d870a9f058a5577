ghost use Rattle.std.specs.Prelude.{◌≡◌, map};
ghost use Rattle.std.specs.List.{list_any};
ghost use Rattle.lfg_model.specs.DraftForms.{template_form};
ghost use Rattle.lfg_model.specs.EntryNotation.{annotation_of, behind_params, is_no_parameter, template_for, template_of, whole_annotation};
ghost use Rattle.lfg_model.specs.RightSides.{draft_annotation_of};
ghost use Rattle.lfg_notation.specs.Reading.{Gives};
ghost use Rattle.lfg_notation.specs.Views.{branch_of, named, schemata_before};

use crate::fault::Refusal;
use crate::schemata::annotation_at;
use crate::settings::names_at;
use lfg_model::Lexeme;
use lfg_terms::{List, Name, PathExpr, Schema, Template};
use std::alloc::Global;

/// The schemata, behind which nothing is left.
fn whole_annotation(
    schemata: Vec<Schema<PathExpr>>,
    rest: &[Lexeme],
) -> Result<Vec<Schema<PathExpr>>, Refusal>
    ensures { Gives branch_of result (whole_annotation (schemata_before schemata rest.now)) }
{
    if !rest.is_empty() {
        return Err(Refusal::Form);
    }
    Ok(schemata)
}

/// The schemata that stand there, of which there is one at least.
pub(crate) fn annotation_of(
    alloc: Global,
    lexemes: &[Lexeme],
) -> Result<Vec<Schema<PathExpr>>, Refusal>
    ensures { Gives branch_of result (annotation_of lexemes.now) }
{
    let (schemata, rest) = annotation_at(alloc, lexemes)?;
    whole_annotation(schemata, rest)
}

/// Whether the name can be no parameter.
fn is_no_parameter(name: &Name) -> bool
    ensures { result ≡ is_no_parameter name.now }
{
    let name = name.text();
    name == "e" || name == "PRED"
}

/// Whether one of the names can be no parameter.
fn has_no_parameter(names: &[Name]) -> bool
    ensures { result ≡ list_any is_no_parameter names.now }
{
    names.iter().any(|name| is_no_parameter(name))
}

/// The template with the body that stands there.
fn template_for(
    alloc: Global,
    number: u32,
    name: &Name,
    params: Vec<Name>,
    lexemes: &[Lexeme],
) -> Result<Template, Refusal>
    ensures { Gives template_form result (template_for number name.now params.items lexemes.now) }
{
    if has_no_parameter(&params) {
        return Err(Refusal::Form);
    }
    let body = annotation_of(alloc, lexemes)?;
    Ok(Template {
        entry: number,
        name: name.clone()?,
        params: List::new(alloc, params)?,
        body: List::new(alloc, body)?,
    })
}

/// The template with these parameters, behind which the closing bracket and the body stand.
fn behind_params(
    alloc: Global,
    number: u32,
    name: &Name,
    params: Vec<Name>,
    lexemes: &[Lexeme],
) -> Result<Template, Refusal>
    ensures { Gives template_form result (behind_params number name.now (named params.items lexemes.now)) }
{
    let [Lexeme::Close, Lexeme::Equals, rest @ ..] = lexemes else {
        return Err(Refusal::Form);
    };
    template_for(alloc, number, name, params, rest)
}

/// The template that the entry of this number is.
pub(crate) fn template_of(
    alloc: Global,
    number: u32,
    lexemes: &[Lexeme],
) -> Result<Template, Refusal>
    ensures { Gives template_form result (template_of number lexemes.now) }
{
    match lexemes {
        [Lexeme::Word(name), Lexeme::Equals, rest @ ..] => {
            template_for(alloc, number, name, Vec::new(alloc), rest)
        }
        [Lexeme::Word(name), Lexeme::Open, rest @ ..] => {
            let (params, rest) = names_at(alloc, rest)?;
            behind_params(alloc, number, name, params, rest)
        }
        _ => Err(Refusal::Form),
    }
}
