ghost use Rattle.std.specs.Prelude.{◌≡◌, ◌<◌, ◌≤◌, IfOk, length};
ghost use Rattle.lfg_model.specs.SchemaNotation.{value_at, value_of, values_at};
ghost use Rattle.lfg_notation.specs.Reading.{Gives};
ghost use Rattle.lfg_notation.specs.Views.{named};

use crate::fault::Refusal;
use lfg_model::Lexeme;
use lfg_terms::Name;
use std::alloc::{AllocError, Global};

/// The value that the lexeme is, if it is one: a name, `+` or `-`.
fn value_of(alloc: Global, lexeme: &Lexeme) -> Result<Option<Name>, AllocError>
    ensures { IfOk result (λ o. o ≡ value_of lexeme.now) }
{
    match lexeme {
        Lexeme::Word(name) => Ok(Some(name.clone()?)),
        Lexeme::Plus => Ok(Some(Name::new(alloc, "+")?)),
        Lexeme::Minus => Ok(Some(Name::new(alloc, "-")?)),
        _ => Ok(None),
    }
}

/// The value in front, and what is behind it.
pub(crate) fn value_at(alloc: Global, lexemes: &[Lexeme]) -> Result<(Name, &[Lexeme]), Refusal>
    ensures read { Gives (λ x. (x.0, x.1.now)) result (value_at lexemes.now) }
    ensures shorter { IfOk result (λ x. length x.1.now < length lexemes.now) }
{
    match lexemes {
        [Lexeme::Word(name), rest @ ..] => Ok((name.clone()?, rest)),
        [Lexeme::Plus, rest @ ..] => Ok((Name::new(alloc, "+")?, rest)),
        [Lexeme::Minus, rest @ ..] => Ok((Name::new(alloc, "-")?, rest)),
        _ => Err(Refusal::Form),
    }
}

/// The values in front, as many as there are, and what is behind them.
pub(crate) fn values_at(
    alloc: Global,
    lexemes: &[Lexeme],
) -> Result<(Vec<Name>, &[Lexeme]), AllocError>
    ensures read { IfOk result (λ x. named x.0.items x.1.now ≡ values_at lexemes.now) }
    ensures shorter { IfOk result (λ x. length x.1.now ≤ length lexemes.now) }
{
    let mut values = Vec::new(alloc);
    let mut rest = lexemes;
    while let [lexeme, behind @ ..] = rest {
        let Some(value) = value_of(alloc, lexeme)? else {
            return Ok((values, rest));
        };
        values.push(value)?;
        rest = behind;
    }
    Ok((values, rest))
}
