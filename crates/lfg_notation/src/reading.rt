ghost use Rattle.std.specs.Prelude.{◌≡◌, ◌≤◌, length};
ghost use Rattle.lfg_model.specs.PathNotation.{repetition_at};
ghost use Rattle.lfg_notation.specs.Reading.{IsAfter};

use lfg_model::{Lexeme, Repetition};

/// What stands behind a branch.
#[derive(Drop)]
pub(crate) enum After<'a> {
    /// A bar, and these lexemes behind it.
    More(&'a [Lexeme]),
    /// The closing brace, and these lexemes behind it.
    Last(&'a [Lexeme]),
    /// Nothing that can stand there.
    Neither,
}

/// What stands behind a branch.
pub(crate) fn after_branch(lexemes: &[Lexeme]) -> After
    ensures { IsAfter lexemes.now result }
{
    match lexemes {
        [Lexeme::Bar, rest @ ..] => After::More(rest),
        [Lexeme::CloseBrace, rest @ ..] => After::Last(rest),
        _ => After::Neither,
    }
}

/// The sign of repetition in front, and what is behind it.
pub(crate) fn repetition_at(lexemes: &[Lexeme]) -> (Repetition, &[Lexeme])
    ensures read { (result.0, result.1.now) ≡ repetition_at lexemes.now }
    ensures shorter { length result.1.now ≤ length lexemes.now }
{
    match lexemes {
        [Lexeme::Star, rest @ ..] => (Repetition::AnyTimes, rest),
        [Lexeme::Plus, rest @ ..] => (Repetition::OnceOrMore, rest),
        _ => (Repetition::Once, lexemes),
    }
}
