ghost use Rattle.std.specs.Prelude.{◌≡◌, ◌<◌, ◌≤◌, IfOk, IfSome, MatchOption, None, length};
ghost use Rattle.lfg_model.specs.SchemaNotation.{behind_form_name, behind_inner, form_at, form_of, function_arrow, functions_at, put_function, quoted};
ghost use Rattle.lfg_notation.specs.Reading.{Gives};

use crate::fault::Refusal;
use crate::values::value_at;
use lfg_model::Lexeme;
use lfg_terms::{Form, List, Name};
use std::alloc::{AllocError, Global};

/// The form of this name with these functions.
fn form_of(
    alloc: Global,
    name: Name,
    inner: Vec<Name>,
    outer: Vec<Name>,
) -> Result<Form, AllocError>
    ensures { IfOk result (λ form. form ≡ form_of name inner.items outer.items) }
{
    Ok(Form {
        name,
        inner: List::new(alloc, inner)?,
        outer: List::new(alloc, outer)?,
    })
}

/// The function behind an opening bracket, `^ NAME)`, and what is behind it.
fn function_at(lexemes: &[Lexeme]) -> Option<(&Name, &[Lexeme])>
    ensures read { MatchOption result (function_arrow lexemes.now ≡ None)
        (λ x. function_arrow lexemes.now ≡ put_function x.0.now (functions_at x.1.now)) }
    ensures shorter { IfSome result (λ x. length x.1.now < length lexemes.now) }
{
    match lexemes {
        [Lexeme::Up, Lexeme::Word(name), Lexeme::Close, rest @ ..] => Some((name, rest)),
        _ => None,
    }
}

/// The functions in front, as many as there are, and what is behind them.
fn functions_at(alloc: Global, lexemes: &[Lexeme]) -> Result<(Vec<Name>, &[Lexeme]), Refusal>
    ensures read { Gives (λ x. (x.0.items, x.1.now)) result (functions_at lexemes.now) }
    ensures shorter { IfOk result (λ x. length x.1.now ≤ length lexemes.now) }
{
    let mut functions = Vec::new(alloc);
    let mut rest = lexemes;
    while let [Lexeme::Open, behind @ ..] = rest {
        let Some((name, behind)) = function_at(behind) else {
            return Err(Refusal::Form);
        };
        functions.push(name.clone()?)?;
        rest = behind;
    }
    Ok((functions, rest))
}

/// The form, behind which the closing quote stands.
fn quoted(form: Form, lexemes: &[Lexeme]) -> Result<(Form, &[Lexeme]), Refusal>
    ensures read { Gives (λ x. (x.0, x.1.now)) result (quoted form lexemes.now) }
    ensures shorter { IfOk result (λ x. length x.1.now < length lexemes.now) }
{
    match lexemes {
        [Lexeme::Quote, rest @ ..] => Ok((form, rest)),
        _ => Err(Refusal::Form),
    }
}

/// The form with these functions inside its angle brackets, behind which the closing one stands.
fn behind_inner(
    alloc: Global,
    name: Name,
    inner: Vec<Name>,
    lexemes: &[Lexeme],
) -> Result<(Form, &[Lexeme]), Refusal>
    ensures read { Gives (λ x. (x.0, x.1.now)) result (behind_inner name inner.items lexemes.now) }
    ensures shorter { IfOk result (λ x. length x.1.now < length lexemes.now) }
{
    let [Lexeme::Greater, rest @ ..] = lexemes else {
        return Err(Refusal::Form);
    };
    let (outer, rest) = functions_at(alloc, rest)?;
    quoted(form_of(alloc, name, inner, outer)?, rest)
}

/// The form of this name, with the functions that stand behind it.
fn behind_form_name(
    alloc: Global,
    name: Name,
    lexemes: &[Lexeme],
) -> Result<(Form, &[Lexeme]), Refusal>
    ensures read { Gives (λ x. (x.0, x.1.now)) result (behind_form_name name lexemes.now) }
    ensures shorter { IfOk result (λ x. length x.1.now < length lexemes.now) }
{
    let [Lexeme::Less, rest @ ..] = lexemes else {
        let form = form_of(alloc, name, Vec::new(alloc), Vec::new(alloc))?;
        return quoted(form, lexemes);
    };
    let (inner, rest) = functions_at(alloc, rest)?;
    behind_inner(alloc, name, inner, rest)
}

/// The form in front, behind its opening quote, and what is behind its closing one.
pub(crate) fn form_at(alloc: Global, lexemes: &[Lexeme]) -> Result<(Form, &[Lexeme]), Refusal>
    ensures read { Gives (λ x. (x.0, x.1.now)) result (form_at lexemes.now) }
    ensures shorter { IfOk result (λ x. length x.1.now < length lexemes.now) }
{
    let (name, rest) = value_at(alloc, lexemes)?;
    behind_form_name(alloc, name, rest)
}
