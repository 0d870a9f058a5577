ghost use Rattle.std.specs.Prelude.{◌≡◌, map};
ghost use Rattle.lfg_model.specs.DraftForms.{rule_form};
ghost use Rattle.lfg_model.specs.EntryNotation.{rule_for, rule_of, whole_side};
ghost use Rattle.lfg_model.specs.RightSides.{right_side_of};
ghost use Rattle.lfg_notation.specs.Reading.{Gives};
ghost use Rattle.lfg_notation.specs.Views.{sides_before};

use crate::fault::Refusal;
use crate::right_sides::{row_of, terms_at};
use crate::settings::is_category;
use lfg_model::Lexeme;
use lfg_terms::{DraftRule, Name, Rhs};
use std::alloc::Global;

/// The terms in a row, behind which nothing is left.
fn whole_side(parts: Vec<Rhs>, rest: &[Lexeme]) -> Result<Rhs, Refusal>
    ensures { Gives right_side_of result (whole_side (sides_before parts rest.now)) }
{
    if !rest.is_empty() {
        return Err(Refusal::Form);
    }
    Ok(row_of(parts))
}

/// The rule of the category with the right side that stands there.
fn rule_for(
    alloc: Global,
    number: u32,
    cat: &Name,
    lexemes: &[Lexeme],
) -> Result<DraftRule, Refusal>
    ensures { Gives rule_form result (rule_for number cat.now lexemes.now) }
{
    if !is_category(cat) {
        return Err(Refusal::Form);
    }
    let (parts, rest) = terms_at(alloc, lexemes)?;
    let rhs = whole_side(parts, rest)?;
    Ok(DraftRule {
        entry: number,
        cat: cat.clone()?,
        rhs,
    })
}

/// The rule that the entry of this number is.
pub(crate) fn rule_of(alloc: Global, number: u32, lexemes: &[Lexeme]) -> Result<DraftRule, Refusal>
    ensures { Gives rule_form result (rule_of number lexemes.now) }
{
    let [Lexeme::Word(cat), Lexeme::Arrow, rest @ ..] = lexemes else {
        return Err(Refusal::Form);
    };
    rule_for(alloc, number, cat, rest)
}
