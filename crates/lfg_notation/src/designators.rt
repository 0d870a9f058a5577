ghost use Rattle.std.specs.Prelude.{◌≡◌, ◌<◌, IfOk, false, length, map};
ghost use Rattle.lfg_model.specs.PathExpressions.{expression_of};
ghost use Rattle.lfg_model.specs.PathNotation.{path_row};
ghost use Rattle.lfg_model.specs.RightSides.{draft_des_of, draft_val_of};
ghost use Rattle.lfg_model.specs.SchemaNotation.{bare_des, bare_left, begins_des, begins_long, closed_left, des_at, ends_in_pred, is_pred_part, long_at, long_left, path_behind, right_at, test_at};
ghost use Rattle.lfg_notation.specs.Reading.{Gives};
ghost use Rattle.lfg_notation.specs.Views.{left_of};

use crate::fault::Refusal;
use crate::forms::form_at;
use crate::paths::{begins_path, path_at, row_of};
use crate::values::value_at;
use lfg_model::Lexeme;
use lfg_terms::{Arrow, Des, PathExpr, Val};
use std::alloc::Global;

/// What a schema may begin with: a designator, whether it has a path, and whether that path ends
/// in the name PRED.
#[derive(Drop)]
pub(crate) struct Left {
    pub des: Des<PathExpr>,
    pub is_long: bool,
    pub is_pred: bool,
}

/// The arrow alone.
pub(crate) fn bare(arrow: Arrow) -> Left
    ensures { left_of result ≡ bare_left arrow }
{
    Left {
        des: Des { arrow, path: None },
        is_long: false,
        is_pred: false,
    }
}

/// Whether the part is the attribute PRED, written once.
#[tactic(auto, using(lfg_model::proofs::PathViews::view_attribute, lfg_model::proofs::PathViews::view_row, lfg_model::proofs::PathViews::view_one_of, lfg_model::proofs::PathViews::view_star, lfg_model::proofs::PathViews::view_plus))]
fn is_pred_part(part: &PathExpr) -> bool
    ensures { result ≡ is_pred_part (expression_of part.now) }
{
    match part {
        PathExpr::Attr(name) => name.text() == "PRED",
        PathExpr::Row(_) | PathExpr::OneOf(_) | PathExpr::Star(_) | PathExpr::Plus(_) => false,
    }
}

/// Whether the last of the parts is PRED.
fn ends_in_pred(parts: &[PathExpr]) -> bool
    ensures { result ≡ ends_in_pred false (map expression_of parts.now) }
{
    let mut ends = false;
    for part in parts {
        ends = is_pred_part(part);
    }
    ends
}

/// The arrow with a path of these parts.
fn long(arrow: Arrow, parts: Vec<PathExpr>) -> Left
    ensures { left_of result ≡ long_left arrow (map expression_of parts.items) }
{
    let is_pred = ends_in_pred(&parts);
    Left {
        des: Des {
            arrow,
            path: Some(row_of(parts)),
        },
        is_long: true,
        is_pred,
    }
}

/// The arrow with a path of these parts, behind which the closing bracket stands.
fn closed_left(
    arrow: Arrow,
    parts: Vec<PathExpr>,
    lexemes: &[Lexeme],
) -> Result<(Left, &[Lexeme]), Refusal>
    ensures read { Gives (λ x. (left_of x.0, x.1.now)) result (closed_left arrow (map expression_of parts.items) lexemes.now) }
    ensures shorter { IfOk result (λ x. length x.1.now < length lexemes.now) }
{
    match lexemes {
        [Lexeme::Close, rest @ ..] => Ok((long(arrow, parts), rest)),
        _ => Err(Refusal::Form),
    }
}

/// The arrow with the path in front, and what is behind the closing bracket.
fn path_behind(
    alloc: Global,
    arrow: Arrow,
    lexemes: &[Lexeme],
) -> Result<(Left, &[Lexeme]), Refusal>
    ensures read { Gives (λ x. (left_of x.0, x.1.now)) result (path_behind arrow lexemes.now) }
    ensures shorter { IfOk result (λ x. length x.1.now < length lexemes.now) }
{
    let (parts, rest) = path_at(alloc, lexemes)?;
    closed_left(arrow, parts, rest)
}

/// The designator with a path, behind its opening bracket, and what is behind its closing one.
pub(crate) fn long_at(alloc: Global, lexemes: &[Lexeme]) -> Result<(Left, &[Lexeme]), Refusal>
    ensures read { Gives (λ x. (left_of x.0, x.1.now)) result (long_at lexemes.now) }
    ensures shorter { IfOk result (λ x. length x.1.now < length lexemes.now) }
{
    match lexemes {
        [Lexeme::Up, rest @ ..] => path_behind(alloc, Arrow::Up, rest),
        [Lexeme::Down, rest @ ..] => path_behind(alloc, Arrow::Down, rest),
        _ => Err(Refusal::Form),
    }
}

/// Whether behind an opening bracket an arrow with a path begins.
pub(crate) fn begins_long(lexemes: &[Lexeme]) -> bool
    ensures { result ≡ begins_long lexemes.now }
{
    match lexemes {
        [Lexeme::Up | Lexeme::Down, rest @ ..] => begins_path(rest),
        _ => false,
    }
}

/// Whether a designator begins here.
fn begins_des(lexemes: &[Lexeme]) -> bool
    ensures { result ≡ begins_des lexemes.now }
{
    matches!(lexemes, [Lexeme::Up | Lexeme::Down | Lexeme::Open, ..])
}

/// The designator in front, and what is behind it.
pub(crate) fn des_at(
    alloc: Global,
    lexemes: &[Lexeme],
) -> Result<(Des<PathExpr>, &[Lexeme]), Refusal>
    ensures read { Gives (λ x. (draft_des_of x.0, x.1.now)) result (des_at lexemes.now) }
    ensures shorter { IfOk result (λ x. length x.1.now < length lexemes.now) }
{
    match lexemes {
        [Lexeme::Up, rest @ ..] => Ok((bare(Arrow::Up).des, rest)),
        [Lexeme::Down, rest @ ..] => Ok((bare(Arrow::Down).des, rest)),
        [Lexeme::Open, rest @ ..] => {
            let (left, rest) = long_at(alloc, rest)?;
            Ok((left.des, rest))
        }
        _ => Err(Refusal::Form),
    }
}

/// The right side of a constraint, a designator or a value, and what is behind it.
pub(crate) fn test_at(
    alloc: Global,
    lexemes: &[Lexeme],
) -> Result<(Val<PathExpr>, &[Lexeme]), Refusal>
    ensures read { Gives (λ x. (draft_val_of x.0, x.1.now)) result (test_at lexemes.now) }
    ensures shorter { IfOk result (λ x. length x.1.now < length lexemes.now) }
{
    if begins_des(lexemes) {
        let (des, rest) = des_at(alloc, lexemes)?;
        return Ok((Val::Des(des), rest));
    }
    let (atom, rest) = value_at(alloc, lexemes)?;
    Ok((Val::Atom(atom), rest))
}

/// The right side of a defining equation, which may be a form behind PRED, and what is behind it.
pub(crate) fn right_at(
    alloc: Global,
    is_pred: bool,
    lexemes: &[Lexeme],
) -> Result<(Val<PathExpr>, &[Lexeme]), Refusal>
    ensures read { Gives (λ x. (draft_val_of x.0, x.1.now)) result (right_at is_pred lexemes.now) }
    ensures shorter { IfOk result (λ x. length x.1.now < length lexemes.now) }
{
    let [Lexeme::Quote, rest @ ..] = lexemes else {
        return test_at(alloc, lexemes);
    };
    if !is_pred {
        return Err(Refusal::Form);
    }
    let (form, rest) = form_at(alloc, rest)?;
    Ok((Val::Form(form), rest))
}
