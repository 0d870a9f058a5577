ghost use Rattle.std.specs.Prelude.{◌≡◌, IfOk};
ghost use Rattle.std.specs.Option.{option_map};
ghost use Rattle.lfg_model.specs.ThinText.{lexeme_in, lexeme_of, lexemes_of, signs, word_of};

use lfg_model::{Lexeme, Token, TokenKind};
use lfg_terms::Name;
use std::alloc::{AllocError, Global};

/// The word of a name, if it has no hyphen.
fn word_of(name: &Name) -> Result<Option<Lexeme>, AllocError>
    ensures { IfOk result (λ o. o ≡ word_of name.now) }
{
    if name.text().as_bytes().contains(&b'-') {
        Ok(None)
    } else {
        Ok(Some(Lexeme::Word(name.clone()?)))
    }
}

/// The lexeme of a sign, if a thin grammar file may have it.
fn sign_of(text: &str) -> Option<Lexeme>
    ensures { result ≡ lexeme_in signs text.now }
{
    match text {
        "(" => Some(Lexeme::Open),
        ")" => Some(Lexeme::Close),
        "^" => Some(Lexeme::Up),
        "!" => Some(Lexeme::Down),
        "=" => Some(Lexeme::Equals),
        ":" => Some(Lexeme::Colon),
        ";" => Some(Lexeme::Semicolon),
        "." => Some(Lexeme::Stop),
        "*" => Some(Lexeme::Star),
        "-->" => Some(Lexeme::Arrow),
        "----" => Some(Lexeme::Divider),
        _ => None,
    }
}

/// The lexeme of the token, if a thin grammar file may have it.
fn lexeme_of(token: &Token) -> Result<Option<Lexeme>, AllocError>
    ensures { IfOk result (λ o. o ≡ lexeme_of token.now.kind token.now.text) }
{
    match token.kind {
        TokenKind::Name => word_of(&token.text),
        TokenKind::Symbol => Ok(sign_of(token.text.text())),
    }
}

/// The lexemes of the tokens, if a thin grammar file may have them all.
pub(crate) fn lexemes_of(alloc: Global, tokens: &[Token]) -> Result<Option<Vec<Lexeme>>, AllocError>
    ensures { IfOk result (λ o. option_map (λ v. v.items) o ≡ lexemes_of tokens.now) }
{
    let mut lexemes = Vec::new(alloc);
    for token in tokens {
        let Some(lexeme) = lexeme_of(token)? else {
            return Ok(None);
        };
        lexemes.push(lexeme)?;
    }
    Ok(Some(lexemes))
}
