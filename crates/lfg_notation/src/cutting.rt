ghost use Rattle.std.specs.Prelude.{◌≡◌, ◌+◌, ◌<◌, ◌≤◌, ◌∷◌, length};
ghost use Rattle.lfg_model.specs.EntryNotation.{cut, separates};
ghost use Rattle.lfg_notation.specs.Views.{piece_of};

use lfg_model::{Lexeme, Separator};

/// What stands up to the first separator, and what is behind it; or all, which is not ended.
#[derive(Drop)]
pub(crate) struct Cut<'a> {
    pub lexemes: &'a [Lexeme],
    pub is_ended: bool,
    pub rest: &'a [Lexeme],
}

/// Whether the lexeme is the separator.
fn separates(separator: Separator, lexeme: &Lexeme) -> bool
    ensures { result ≡ separates separator lexeme.now }
{
    match separator {
        Separator::Divider => matches!(lexeme, Lexeme::Divider),
        Separator::Stop => matches!(lexeme, Lexeme::Stop),
        Separator::Semicolon => matches!(lexeme, Lexeme::Semicolon),
    }
}

/// The first piece of the lexemes that are cut at the separator, and what is behind it.
pub(crate) fn first_piece(separator: Separator, lexemes: &[Lexeme]) -> Cut
    requires { 0 < length lexemes.now }
    ensures cut { cut separator lexemes.now ≡ piece_of result ∷ cut separator result.rest.now }
    ensures shorter { length result.rest.now < length lexemes.now }
    ensures within { length result.lexemes.now + length result.rest.now ≤ length lexemes.now }
{
    for i in 0..lexemes.len() {
        if separates(separator, &lexemes[i]) {
            return Cut {
                lexemes: &lexemes[..i],
                is_ended: true,
                rest: &lexemes[i + 1..],
            };
        }
    }
    Cut {
        lexemes,
        is_ended: false,
        rest: &[],
    }
}
