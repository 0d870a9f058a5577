ghost use Rattle.std.specs.Prelude.{◌≡◌, ◌<◌, ◌≤◌, IfOk, MatchOption, None, Some, length, map};
ghost use Rattle.lfg_model.specs.Nests.{readers};
ghost use Rattle.lfg_model.specs.RightSideNotation.{annotated, annotated_term, begins_term, behind_category, category_at, closed_optional, closed_row, closes_term, ended_term, repeat_side, repeated_term, side_row, term_by, terms};
ghost use Rattle.lfg_model.specs.RightSides.{draft_schema_of, item, one_of, optional, right_side_of, right_sides_from};
ghost use Rattle.lfg_notation.specs.Reading.{Gives};

use crate::fault::Refusal;
use crate::reading::{After, after_branch, repetition_at};
use crate::schemata::annotation_at;
use lfg_model::{Lexeme, Repetition};
use lfg_terms::{Name, PathExpr, Rhs, Schema};
use std::alloc::{AllocError, Global};

/// The category without an annotation.
#[tactic(auto, using(lfg_model::proofs::RightSideViews::view_item))]
fn bare_item(cat: &Name) -> Result<Rhs, AllocError>
    ensures { IfOk result (λ x. right_side_of x ≡ item cat.now None) }
{
    Ok(Rhs::Item {
        cat: cat.clone()?,
        schemata: None,
    })
}

/// The category with this annotation.
#[tactic(auto, using(lfg_model::proofs::RightSideViews::view_item))]
fn item(cat: &Name, schemata: Vec<Schema<PathExpr>>) -> Result<Rhs, AllocError>
    ensures { IfOk result (λ x. right_side_of x ≡ annotated cat.now (map draft_schema_of schemata.items)) }
{
    Ok(Rhs::Item {
        cat: cat.clone()?,
        schemata: Some(schemata),
    })
}

/// The parts one after the other.
#[tactic(auto, using(lfg_model::proofs::RightSideViews::view_row))]
pub(crate) fn row_of(parts: Vec<Rhs>) -> Rhs
    ensures { right_side_of result ≡ side_row (map right_side_of parts.items) }
{
    Rhs::Row(parts)
}

/// One of the branches.
#[tactic(auto, using(lfg_model::proofs::RightSideViews::view_one_of))]
fn one_of(branches: Vec<Rhs>) -> Rhs
    ensures { right_side_of result ≡ one_of (right_sides_from (map right_side_of branches.items)) }
{
    Rhs::OneOf(branches)
}

/// The parts, or nothing.
#[tactic(auto, using(lfg_model::proofs::RightSideViews::view_maybe))]
fn optional(alloc: Global, parts: Vec<Rhs>) -> Result<Rhs, AllocError>
    ensures { IfOk result (λ x. right_side_of x ≡ optional (side_row (map right_side_of parts.items))) }
{
    Ok(Rhs::Maybe(Box::new(alloc, row_of(parts))?))
}

/// The right side so often.
#[tactic(auto, using(lfg_model::proofs::RightSideViews::view_star, lfg_model::proofs::RightSideViews::view_plus))]
fn repeat(alloc: Global, side: Rhs, often: Repetition) -> Result<Rhs, AllocError>
    ensures { IfOk result (λ x. right_side_of x ≡ repeat_side often (right_side_of side)) }
{
    match often {
        Repetition::Once => Ok(side),
        Repetition::AnyTimes => Ok(Rhs::Star(Box::new(alloc, side)?)),
        Repetition::OnceOrMore => Ok(Rhs::Plus(Box::new(alloc, side)?)),
    }
}

/// The term, behind which a semicolon may stand.
fn ended(side: Rhs, lexemes: &[Lexeme]) -> (Rhs, &[Lexeme])
    ensures read { (right_side_of result.0, result.1.now) ≡ ended_term (right_side_of side) lexemes.now }
    ensures shorter { length result.1.now ≤ length lexemes.now }
{
    match lexemes {
        [Lexeme::Semicolon, rest @ ..] => (side, rest),
        _ => (side, lexemes),
    }
}

/// The term with the sign of repetition behind it, behind which a semicolon may stand.
fn repeated(alloc: Global, side: Rhs, lexemes: &[Lexeme]) -> Result<(Rhs, &[Lexeme]), Refusal>
    ensures read { Gives (λ x. (right_side_of x.0, x.1.now)) result (Some (repeated_term (right_side_of side) lexemes.now)) }
    ensures shorter { IfOk result (λ x. length x.1.now ≤ length lexemes.now) }
{
    let (often, rest) = repetition_at(lexemes);
    let side = repeat(alloc, side, often)?;
    Ok(ended(side, rest))
}

/// Whether what encloses a term ends here, or the entry does.
fn closes_term(lexemes: &[Lexeme]) -> bool
    ensures { result ≡ closes_term lexemes.now }
{
    matches!(
        lexemes,
        [] | [
            Lexeme::Close | Lexeme::CloseBracket | Lexeme::CloseBrace | Lexeme::Bar,
            ..
        ]
    )
}

/// The term with an annotation, which ends with a semicolon unless what encloses it ends.
fn annotated_term(side: Rhs, lexemes: &[Lexeme]) -> Result<(Rhs, &[Lexeme]), Refusal>
    ensures read { Gives (λ x. (right_side_of x.0, x.1.now)) result (annotated_term (right_side_of side) lexemes.now) }
    ensures shorter { IfOk result (λ x. length x.1.now ≤ length lexemes.now) }
{
    if let [Lexeme::Semicolon, rest @ ..] = lexemes {
        return Ok((side, rest));
    }
    if closes_term(lexemes) {
        Ok((side, lexemes))
    } else {
        Err(Refusal::Form)
    }
}

/// The term that begins with a category so often, with its annotation if one stands behind it.
fn behind_category<'a>(
    alloc: Global,
    cat: &Name,
    often: Repetition,
    lexemes: &'a [Lexeme],
) -> Result<(Rhs, &'a [Lexeme]), Refusal>
    ensures read { Gives (λ x. (right_side_of x.0, x.1.now)) result (behind_category cat.now often lexemes.now) }
    ensures shorter { IfOk result (λ x. length x.1.now ≤ length lexemes.now) }
{
    let [Lexeme::Colon, rest @ ..] = lexemes else {
        let side = repeat(alloc, bare_item(cat)?, often)?;
        return Ok(ended(side, lexemes));
    };
    let (schemata, rest) = annotation_at(alloc, rest)?;
    let side = repeat(alloc, item(cat, schemata)?, often)?;
    annotated_term(side, rest)
}

/// The term that begins with a category, behind its name, and what is behind it.
fn category_at<'a>(
    alloc: Global,
    cat: &Name,
    lexemes: &'a [Lexeme],
) -> Result<(Rhs, &'a [Lexeme]), Refusal>
    ensures read { Gives (λ x. (right_side_of x.0, x.1.now)) result (category_at cat.now lexemes.now) }
    ensures shorter { IfOk result (λ x. length x.1.now ≤ length lexemes.now) }
{
    let (often, rest) = repetition_at(lexemes);
    behind_category(alloc, cat, often, rest)
}

/// The option of these terms, behind which the closing bracket stands.
fn closed_optional(
    alloc: Global,
    parts: Vec<Rhs>,
    lexemes: &[Lexeme],
) -> Result<(Rhs, &[Lexeme]), Refusal>
    ensures read { Gives (λ x. (right_side_of x.0, x.1.now)) result (closed_optional (map right_side_of parts.items) lexemes.now) }
    ensures shorter { IfOk result (λ x. length x.1.now < length lexemes.now) }
{
    let [Lexeme::Close, rest @ ..] = lexemes else {
        return Err(Refusal::Form);
    };
    Ok(ended(optional(alloc, parts)?, rest))
}

/// The terms in square brackets, behind which the closing one stands.
fn closed_row(
    alloc: Global,
    parts: Vec<Rhs>,
    lexemes: &[Lexeme],
) -> Result<(Rhs, &[Lexeme]), Refusal>
    ensures read { Gives (λ x. (right_side_of x.0, x.1.now)) result (closed_row (map right_side_of parts.items) lexemes.now) }
    ensures shorter { IfOk result (λ x. length x.1.now < length lexemes.now) }
{
    let [Lexeme::CloseBracket, rest @ ..] = lexemes else {
        return Err(Refusal::Form);
    };
    repeated(alloc, row_of(parts), rest)
}

/// Whether a term begins here.
fn begins_term(lexemes: &[Lexeme]) -> bool
    ensures { result ≡ begins_term lexemes.now }
{
    matches!(
        lexemes,
        [
            Lexeme::Word(_) | Lexeme::Open | Lexeme::OpenBrace | Lexeme::OpenBracket,
            ..
        ]
    )
}

/// The term in front, and what is behind it.
#[cycle(terms)]
fn term_at(alloc: Global, lexemes: &[Lexeme]) -> Result<(Rhs, &[Lexeme]), Refusal>
    ensures read { Gives (λ x. (right_side_of x.0, x.1.now)) result (term_by (readers terms) lexemes.now) }
    ensures shorter { IfOk result (λ x. length x.1.now < length lexemes.now) }
{
    match lexemes {
        [Lexeme::Word(cat), rest @ ..] => category_at(alloc, cat, rest),
        [Lexeme::Open, rest @ ..] => {
            let (parts, rest) = terms_at(alloc, rest)?;
            closed_optional(alloc, parts, rest)
        }
        [Lexeme::OpenBrace, rest @ ..] => {
            let (branches, rest) = branches_at(alloc, rest)?;
            repeated(alloc, one_of(branches), rest)
        }
        [Lexeme::OpenBracket, rest @ ..] => {
            let (parts, rest) = terms_at(alloc, rest)?;
            closed_row(alloc, parts, rest)
        }
        _ => Err(Refusal::Form),
    }
}

/// The terms in front, of which there is one at least, and what is behind them.
#[cycle(terms)]
pub(crate) fn terms_at(alloc: Global, lexemes: &[Lexeme]) -> Result<(Vec<Rhs>, &[Lexeme]), Refusal>
    ensures read { Gives (λ x. (map right_side_of x.0.items, x.1.now)) result ((readers terms).row lexemes.now) }
    ensures shorter { IfOk result (λ x. length x.1.now < length lexemes.now) }
{
    let mut parts = Vec::new(alloc);
    let mut rest = lexemes;
    loop {
        let (part, behind) = term_at(alloc, rest)?;
        parts.push(part)?;
        if !begins_term(behind) {
            return Ok((parts, behind));
        }
        rest = behind;
    }
}

/// The branches up to the brace that closes them, and what is behind it.
#[cycle(terms)]
fn branches_at(alloc: Global, lexemes: &[Lexeme]) -> Result<(Vec<Rhs>, &[Lexeme]), Refusal>
    ensures read { Gives (λ x. (map right_side_of x.0.items, x.1.now)) result ((readers terms).branches lexemes.now) }
    ensures shorter { IfOk result (λ x. length x.1.now < length lexemes.now) }
{
    let mut branches = Vec::new(alloc);
    let mut rest = lexemes;
    loop {
        let (parts, behind) = terms_at(alloc, rest)?;
        let branch = row_of(parts);
        branches.push(branch)?;
        match after_branch(behind) {
            After::More(behind) => {
                rest = behind;
            }
            After::Last(behind) => {
                return Ok((branches, behind));
            }
            After::Neither => {
                return Err(Refusal::Form);
            }
        }
    }
}
