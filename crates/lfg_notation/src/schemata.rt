ghost use Rattle.std.specs.Prelude.{◌≡◌, ◌<◌, ◌≤◌, Bool, List, MatchOption, None, IfOk, ◌∷◌, length, map};
ghost use Rattle.lfg_model.specs.Nests.{readers};
ghost use Rattle.lfg_model.specs.RightSides.{call, constrain, define, draft_annotation_from, draft_branches_from, draft_des_of, draft_schema_of, draft_val_of, either, exists, mark, maybe, member};
ghost use Rattle.lfg_model.specs.SchemaNotation.{begins_schema, behind_left, bracketed_by, call_at, call_in_brackets, closed_call, closed_option, left_alone, mark_at, negated_at, schema_by, schemata};
ghost use Rattle.lfg_notation.specs.Reading.{Gives};
ghost use Rattle.lfg_notation.specs.Views.{branch_of, left_of};

use crate::designators::{Left, bare, begins_long, des_at, long_at, right_at, test_at};
use crate::fault::Refusal;
use crate::reading::{After, after_branch};
use crate::values::values_at;
use lfg_model::Lexeme;
use lfg_terms::{Arrow, Des, List, Name, PathExpr, Schema, Val};
use std::alloc::{AllocError, Global};

/// A defining equation.
#[tactic(auto, using(lfg_model::proofs::RightSideViews::view_define))]
fn define(left: Des<PathExpr>, right: Val<PathExpr>) -> Schema<PathExpr>
    ensures { draft_schema_of result ≡ define (draft_des_of left) (draft_val_of right) }
{
    Schema::Define { left, right }
}

/// A constraining equation, or its negation.
#[tactic(auto, using(lfg_model::proofs::RightSideViews::view_constrain))]
fn constrain(negated: bool, left: Des<PathExpr>, right: Val<PathExpr>) -> Schema<PathExpr>
    ensures { draft_schema_of result ≡ constrain negated (draft_des_of left) (draft_val_of right) }
{
    Schema::Constrain {
        negated,
        left,
        right,
    }
}

/// An existential constraint, or its negation.
#[tactic(auto, using(lfg_model::proofs::RightSideViews::view_exists))]
fn exists(negated: bool, left: Des<PathExpr>) -> Schema<PathExpr>
    ensures { draft_schema_of result ≡ exists negated (draft_des_of left) }
{
    Schema::Exists { negated, left }
}

/// A membership.
#[tactic(auto, using(lfg_model::proofs::RightSideViews::view_member))]
fn member(item: Des<PathExpr>, set: Des<PathExpr>) -> Schema<PathExpr>
    ensures { draft_schema_of result ≡ member (draft_des_of item) (draft_des_of set) }
{
    Schema::Member { item, set }
}

/// A mark.
#[tactic(auto, using(lfg_model::proofs::RightSideViews::view_mark))]
fn mark(name: &Name) -> Result<Schema<PathExpr>, AllocError>
    ensures { IfOk result (λ s. draft_schema_of s ≡ mark name.now) }
{
    Ok(Schema::Mark(name.clone()?))
}

/// A call of a template.
#[tactic(auto, using(lfg_model::proofs::RightSideViews::view_call))]
fn call(alloc: Global, name: &Name, args: Vec<Name>) -> Result<Schema<PathExpr>, AllocError>
    ensures { IfOk result (λ s. draft_schema_of s ≡ call name.now args.items) }
{
    Ok(Schema::Call {
        name: name.clone()?,
        args: List::new(alloc, args)?,
    })
}

/// A disjunction.
#[tactic(auto, using(lfg_model::proofs::RightSideViews::view_either))]
fn either(branches: Vec<Vec<Schema<PathExpr>>>) -> Schema<PathExpr>
    ensures { draft_schema_of result ≡ either (draft_branches_from (map branch_of branches.items)) }
{
    Schema::Either(branches)
}

/// An option.
#[tactic(auto, using(lfg_model::proofs::RightSideViews::view_option))]
fn maybe(schemata: Vec<Schema<PathExpr>>) -> Schema<PathExpr>
    ensures { draft_schema_of result ≡ maybe (draft_annotation_from (map draft_schema_of schemata.items)) }
{
    Schema::Maybe(schemata)
}

/// The designator alone, which is an existential constraint where it has a path.
fn left_alone(left: Left, lexemes: &[Lexeme]) -> Result<(Schema<PathExpr>, &[Lexeme]), Refusal>
    ensures read { Gives (λ x. (draft_schema_of x.0, x.1.now)) result (left_alone (left_of left) lexemes.now) }
    ensures shorter { IfOk result (λ x. length x.1.now ≤ length lexemes.now) }
{
    if left.is_long {
        Ok((exists(false, left.des), lexemes))
    } else {
        Err(Refusal::Form)
    }
}

/// The schema that begins with this designator, and what is behind it.
fn behind_left(
    alloc: Global,
    left: Left,
    lexemes: &[Lexeme],
) -> Result<(Schema<PathExpr>, &[Lexeme]), Refusal>
    ensures read { Gives (λ x. (draft_schema_of x.0, x.1.now)) result (behind_left (left_of left) lexemes.now) }
    ensures shorter { IfOk result (λ x. length x.1.now ≤ length lexemes.now) }
{
    match lexemes {
        [Lexeme::Equals, rest @ ..] => {
            let (right, rest) = right_at(alloc, left.is_pred, rest)?;
            Ok((define(left.des, right), rest))
        }
        [Lexeme::Constrains, rest @ ..] => {
            let (right, rest) = test_at(alloc, rest)?;
            Ok((constrain(false, left.des, right), rest))
        }
        [Lexeme::Differs, rest @ ..] => {
            let (right, rest) = test_at(alloc, rest)?;
            Ok((constrain(true, left.des, right), rest))
        }
        [Lexeme::Dollar, rest @ ..] => {
            let (set, rest) = des_at(alloc, rest)?;
            Ok((member(left.des, set), rest))
        }
        _ => left_alone(left, lexemes),
    }
}

/// The designator that leads nowhere, behind `~`, and what is behind it.
fn negated_at(alloc: Global, lexemes: &[Lexeme]) -> Result<(Schema<PathExpr>, &[Lexeme]), Refusal>
    ensures read { Gives (λ x. (draft_schema_of x.0, x.1.now)) result (negated_at lexemes.now) }
    ensures shorter { IfOk result (λ x. length x.1.now < length lexemes.now) }
{
    let [Lexeme::Open, rest @ ..] = lexemes else {
        return Err(Refusal::Form);
    };
    let (left, rest) = long_at(alloc, rest)?;
    Ok((exists(true, left.des), rest))
}

/// The mark of this name, behind which `$ o::*` stands, and what is behind it.
fn mark_at<'a>(
    name: &Name,
    lexemes: &'a [Lexeme],
) -> Result<(Schema<PathExpr>, &'a [Lexeme]), Refusal>
    ensures read { Gives (λ x. (draft_schema_of x.0, x.1.now)) result (mark_at name.now lexemes.now) }
    ensures shorter { IfOk result (λ x. length x.1.now < length lexemes.now) }
{
    let [
        Lexeme::Dollar,
        Lexeme::Word(word),
        Lexeme::DoubleColon,
        Lexeme::Star,
        rest @ ..,
    ] = lexemes
    else {
        return Err(Refusal::Form);
    };
    if word.text() != "o" {
        return Err(Refusal::Form);
    }
    Ok((mark(name)?, rest))
}

/// The call with these arguments, behind which the closing bracket stands.
fn closed_call<'a>(
    alloc: Global,
    name: &Name,
    args: Vec<Name>,
    lexemes: &'a [Lexeme],
) -> Result<(Schema<PathExpr>, &'a [Lexeme]), Refusal>
    ensures read { Gives (λ x. (draft_schema_of x.0, x.1.now)) result (closed_call name.now args.items lexemes.now) }
    ensures shorter { IfOk result (λ x. length x.1.now < length lexemes.now) }
{
    let [Lexeme::Close, rest @ ..] = lexemes else {
        return Err(Refusal::Form);
    };
    Ok((call(alloc, name, args)?, rest))
}

/// The call behind an opening bracket, and what is behind its closing one.
fn call_in_brackets(
    alloc: Global,
    lexemes: &[Lexeme],
) -> Result<(Schema<PathExpr>, &[Lexeme]), Refusal>
    ensures read { Gives (λ x. (draft_schema_of x.0, x.1.now)) result (call_in_brackets lexemes.now) }
    ensures shorter { IfOk result (λ x. length x.1.now < length lexemes.now) }
{
    let [Lexeme::Word(name), rest @ ..] = lexemes else {
        return Err(Refusal::Form);
    };
    let (args, rest) = values_at(alloc, rest)?;
    closed_call(alloc, name, args, rest)
}

/// The call of a template behind `@`, and what is behind it.
fn call_at(alloc: Global, lexemes: &[Lexeme]) -> Result<(Schema<PathExpr>, &[Lexeme]), Refusal>
    ensures read { Gives (λ x. (draft_schema_of x.0, x.1.now)) result (call_at lexemes.now) }
    ensures shorter { IfOk result (λ x. length x.1.now < length lexemes.now) }
{
    match lexemes {
        [Lexeme::Word(name), rest @ ..] => Ok((call(alloc, name, Vec::new(alloc))?, rest)),
        [Lexeme::Open, rest @ ..] => call_in_brackets(alloc, rest),
        _ => Err(Refusal::Form),
    }
}

/// The option of these schemata, behind which the closing bracket stands.
fn closed_option(
    schemata: Vec<Schema<PathExpr>>,
    lexemes: &[Lexeme],
) -> Result<(Schema<PathExpr>, &[Lexeme]), Refusal>
    ensures read { Gives (λ x. (draft_schema_of x.0, x.1.now)) result (closed_option (map draft_schema_of schemata.items) lexemes.now) }
    ensures shorter { IfOk result (λ x. length x.1.now < length lexemes.now) }
{
    match lexemes {
        [Lexeme::Close, rest @ ..] => Ok((maybe(schemata), rest)),
        _ => Err(Refusal::Form),
    }
}

/// Whether a schema begins here.
pub(crate) fn begins_schema(lexemes: &[Lexeme]) -> bool
    ensures { result ≡ begins_schema lexemes.now }
{
    matches!(
        lexemes,
        [
            Lexeme::Up
                | Lexeme::Down
                | Lexeme::Open
                | Lexeme::Not
                | Lexeme::Word(_)
                | Lexeme::At
                | Lexeme::OpenBrace,
            ..
        ]
    )
}

/// The schema behind an opening bracket: one that begins with a designator with a path, or an
/// option.
#[cycle(schemata)]
fn bracketed(alloc: Global, lexemes: &[Lexeme]) -> Result<(Schema<PathExpr>, &[Lexeme]), Refusal>
    ensures read { Gives (λ x. (draft_schema_of x.0, x.1.now)) result (bracketed_by (readers schemata) lexemes.now) }
    ensures shorter { IfOk result (λ x. length x.1.now < length lexemes.now) }
{
    if begins_long(lexemes) {
        let (left, rest) = long_at(alloc, lexemes)?;
        return behind_left(alloc, left, rest);
    }
    let (inside, rest) = annotation_at(alloc, lexemes)?;
    closed_option(inside, rest)
}

/// The schema in front, and what is behind it.
#[cycle(schemata)]
fn schema_at(alloc: Global, lexemes: &[Lexeme]) -> Result<(Schema<PathExpr>, &[Lexeme]), Refusal>
    ensures read { Gives (λ x. (draft_schema_of x.0, x.1.now)) result (schema_by (readers schemata) lexemes.now) }
    ensures shorter { IfOk result (λ x. length x.1.now < length lexemes.now) }
{
    match lexemes {
        [Lexeme::Up, rest @ ..] => behind_left(alloc, bare(Arrow::Up), rest),
        [Lexeme::Down, rest @ ..] => behind_left(alloc, bare(Arrow::Down), rest),
        [Lexeme::Open, rest @ ..] => bracketed(alloc, rest),
        [Lexeme::Not, rest @ ..] => negated_at(alloc, rest),
        [Lexeme::Word(name), rest @ ..] => mark_at(name, rest),
        [Lexeme::At, rest @ ..] => call_at(alloc, rest),
        [Lexeme::OpenBrace, rest @ ..] => {
            let (branches, rest) = alternatives_at(alloc, rest)?;
            Ok((either(branches), rest))
        }
        _ => Err(Refusal::Form),
    }
}

/// The schemata in front, of which there is one at least, and what is behind them.
#[cycle(schemata)]
pub(crate) fn annotation_at(
    alloc: Global,
    lexemes: &[Lexeme],
) -> Result<(Vec<Schema<PathExpr>>, &[Lexeme]), Refusal>
    ensures read { Gives (λ x. (map draft_schema_of x.0.items, x.1.now)) result ((readers schemata).row lexemes.now) }
    ensures shorter { IfOk result (λ x. length x.1.now < length lexemes.now) }
{
    let mut parts = Vec::new(alloc);
    let mut rest = lexemes;
    loop {
        let (part, behind) = schema_at(alloc, rest)?;
        parts.push(part)?;
        if !begins_schema(behind) {
            return Ok((parts, behind));
        }
        rest = behind;
    }
}

/// The branches of a disjunction up to the brace that closes them, and what is behind it.
#[cycle(schemata)]
fn alternatives_at(
    alloc: Global,
    lexemes: &[Lexeme],
) -> Result<(Vec<Vec<Schema<PathExpr>>>, &[Lexeme]), Refusal>
    ensures read { Gives (λ x. (map branch_of x.0.items, x.1.now)) result ((readers schemata).branches lexemes.now) }
    ensures shorter { IfOk result (λ x. length x.1.now < length lexemes.now) }
{
    let mut branches = Vec::new(alloc);
    let mut rest = lexemes;
    loop {
        let (parts, behind) = annotation_at(alloc, rest)?;
        branches.push(parts)?;
        match after_branch(behind) {
            After::More(behind) => {
                rest = behind;
            }
            After::Last(behind) => {
                return Ok((branches, behind));
            }
            After::Neither => {
                return Err(Refusal::Form);
            }
        }
    }
}
