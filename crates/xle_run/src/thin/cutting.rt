ghost use Rattle.std.specs.Prelude.{◌≡◌, ◌<◌, IfSome, length};
ghost use Rattle.lfg_model.specs.ThinText.{is_divider, is_stop, up_to};
ghost use Rattle.xle_run.specs.Reading.{Reads};

use lfg_model::Lexeme;

fn is_stop(lexeme: &Lexeme) -> bool
    ensures { result ≡ is_stop lexeme.now }
{
    matches!(lexeme, Lexeme::Stop)
}

fn is_divider(lexeme: &Lexeme) -> bool
    ensures { result ≡ is_divider lexeme.now }
{
    matches!(lexeme, Lexeme::Divider)
}

/// The lexemes before the first stop, and those behind it.
pub(crate) fn up_to_stop(lexemes: &[Lexeme]) -> Option<(&[Lexeme], &[Lexeme])>
    ensures read { Reads (λ front rest. (front.now, rest.now)) result (up_to is_stop lexemes.now) }
    ensures shorter { IfSome result (λ x. length x.1.now < length lexemes.now) }
{
    for i in 0..lexemes.len() {
        if is_stop(&lexemes[i]) {
            return Some((&lexemes[..i], &lexemes[i + 1..]));
        }
    }
    None
}

/// The lexemes before the first divider, and those behind it.
pub(crate) fn up_to_divider(lexemes: &[Lexeme]) -> Option<(&[Lexeme], &[Lexeme])>
    ensures { Reads (λ front rest. (front.now, rest.now)) result (up_to is_divider lexemes.now) }
{
    for i in 0..lexemes.len() {
        if is_divider(&lexemes[i]) {
            return Some((&lexemes[..i], &lexemes[i + 1..]));
        }
    }
    None
}
