ghost use Rattle.std.specs.Prelude.{◌≡◌, ◌<◌, ◌≤◌, IfOk, List, MatchOption, None, ◌∷◌, Some, length, map};
ghost use Rattle.lfg_model.specs.declared.lexeme.Lexeme.TheVariants.{CloseBracket};
ghost use Rattle.lfg_model.specs.Nests.{readers};
ghost use Rattle.lfg_model.specs.PathExpressions.{PathExpression, attribute, expression_of, expressions_from, one_of};
ghost use Rattle.lfg_model.specs.PathNotation.{begins_path, closed_path, part_by, path_row, paths, repeat_path, repeated_path};
ghost use Rattle.lfg_notation.specs.Reading.{Gives};

use crate::fault::Refusal;
use crate::reading::{After, after_branch, repetition_at};
use lfg_model::{Lexeme, Repetition};
use lfg_terms::{Name, PathExpr};
use std::alloc::{AllocError, Global};

/// Whether a part of a path begins here.
pub(crate) fn begins_path(lexemes: &[Lexeme]) -> bool
    ensures { result ≡ begins_path lexemes.now }
{
    match lexemes {
        [
            Lexeme::Word(_) | Lexeme::OpenBrace | Lexeme::OpenBracket,
            ..
        ] => true,
        _ => false,
    }
}

/// An attribute.
#[tactic(auto, using(lfg_model::proofs::PathViews::view_attribute))]
fn attribute(name: &Name) -> Result<PathExpr, AllocError>
    ensures { IfOk result (λ p. expression_of p ≡ attribute name.now) }
{
    Ok(PathExpr::Attr(name.clone()?))
}

/// The parts one after the other.
#[tactic(auto, using(lfg_model::proofs::PathViews::view_row))]
pub(crate) fn row_of(parts: Vec<PathExpr>) -> PathExpr
    ensures { expression_of result ≡ path_row (map expression_of parts.items) }
{
    PathExpr::Row(parts)
}

/// One of the branches.
#[tactic(auto, using(lfg_model::proofs::PathViews::view_one_of))]
fn one_of(branches: Vec<PathExpr>) -> PathExpr
    ensures { expression_of result ≡ one_of (expressions_from (map expression_of branches.items)) }
{
    PathExpr::OneOf(branches)
}

/// The path so often.
#[tactic(auto, using(lfg_model::proofs::PathViews::view_star, lfg_model::proofs::PathViews::view_plus))]
fn repeat(alloc: Global, path: PathExpr, often: Repetition) -> Result<PathExpr, AllocError>
    ensures { IfOk result (λ p. expression_of p ≡ repeat_path often (expression_of path)) }
{
    match often {
        Repetition::Once => Ok(path),
        Repetition::AnyTimes => Ok(PathExpr::Star(Box::new(alloc, path)?)),
        Repetition::OnceOrMore => Ok(PathExpr::Plus(Box::new(alloc, path)?)),
    }
}

/// The path with the sign of repetition behind it.
fn repeated(
    alloc: Global,
    path: PathExpr,
    lexemes: &[Lexeme],
) -> Result<(PathExpr, &[Lexeme]), Refusal>
    ensures read { Gives (λ x. (expression_of x.0, x.1.now)) result (Some (repeated_path (expression_of path) lexemes.now)) }
    ensures shorter { IfOk result (λ x. length x.1.now ≤ length lexemes.now) }
{
    let (often, rest) = repetition_at(lexemes);
    Ok((repeat(alloc, path, often)?, rest))
}

/// What is behind the closing bracket in front.
fn behind_bracket(lexemes: &[Lexeme]) -> Option<&[Lexeme]>
    ensures { MatchOption result ((ps : List PathExpression) → closed_path ps lexemes.now ≡ None) (λ rest. lexemes.now ≡ CloseBracket ∷ rest.now) }
{
    match lexemes {
        [Lexeme::CloseBracket, rest @ ..] => Some(rest),
        _ => None,
    }
}

/// The parts in brackets, behind which the closing bracket stands.
fn closed(
    alloc: Global,
    parts: Vec<PathExpr>,
    lexemes: &[Lexeme],
) -> Result<(PathExpr, &[Lexeme]), Refusal>
    ensures read { Gives (λ x. (expression_of x.0, x.1.now)) result (closed_path (map expression_of parts.items) lexemes.now) }
    ensures shorter { IfOk result (λ x. length x.1.now < length lexemes.now) }
{
    let Some(rest) = behind_bracket(lexemes) else {
        return Err(Refusal::Form);
    };
    repeated(alloc, row_of(parts), rest)
}

/// A part of a path: a name, branches in braces or parts in brackets, with the sign of repetition
/// behind it.
#[cycle(path)]
fn part_at(alloc: Global, lexemes: &[Lexeme]) -> Result<(PathExpr, &[Lexeme]), Refusal>
    ensures read { Gives (λ x. (expression_of x.0, x.1.now)) result (part_by (readers paths) lexemes.now) }
    ensures shorter { IfOk result (λ x. length x.1.now < length lexemes.now) }
{
    match lexemes {
        [Lexeme::Word(name), rest @ ..] => repeated(alloc, attribute(name)?, rest),
        [Lexeme::OpenBrace, rest @ ..] => {
            let (branches, rest) = branches_at(alloc, rest)?;
            repeated(alloc, one_of(branches), rest)
        }
        [Lexeme::OpenBracket, rest @ ..] => {
            let (parts, rest) = path_at(alloc, rest)?;
            closed(alloc, parts, rest)
        }
        _ => Err(Refusal::Form),
    }
}

/// The parts of a path, of which there is one at least, and what is behind them.
#[cycle(path)]
pub(crate) fn path_at(
    alloc: Global,
    lexemes: &[Lexeme],
) -> Result<(Vec<PathExpr>, &[Lexeme]), Refusal>
    ensures read { Gives (λ x. (map expression_of x.0.items, x.1.now)) result ((readers paths).row lexemes.now) }
    ensures shorter { IfOk result (λ x. length x.1.now < length lexemes.now) }
{
    let mut parts = Vec::new(alloc);
    let mut rest = lexemes;
    loop {
        let (part, behind) = part_at(alloc, rest)?;
        parts.push(part)?;
        if !begins_path(behind) {
            return Ok((parts, behind));
        }
        rest = behind;
    }
}

/// The branches up to the brace that closes them, and what is behind it.
#[cycle(path)]
fn branches_at(alloc: Global, lexemes: &[Lexeme]) -> Result<(Vec<PathExpr>, &[Lexeme]), Refusal>
    ensures read { Gives (λ x. (map expression_of x.0.items, x.1.now)) result ((readers paths).branches lexemes.now) }
    ensures shorter { IfOk result (λ x. length x.1.now < length lexemes.now) }
{
    let mut branches = Vec::new(alloc);
    let mut rest = lexemes;
    loop {
        let (parts, behind) = path_at(alloc, rest)?;
        let branch = row_of(parts);
        branches.push(branch)?;
        match after_branch(behind) {
            After::More(behind) => {
                rest = behind;
            }
            After::Last(behind) => {
                return Ok((branches, behind));
            }
            After::Neither => {
                return Err(Refusal::Form);
            }
        }
    }
}
