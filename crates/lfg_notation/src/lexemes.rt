ghost use Rattle.std.specs.Prelude.{◌≡◌, IfOk};
ghost use Rattle.lfg_model.specs.Drafts.{lexeme_in, lexeme_of, lexemes_of, signs};

use lfg_model::{Lexeme, Token, TokenKind};
use std::alloc::{AllocError, Global};

/// The lexeme of a symbol, of which the divider is the last.
fn sign_of(text: &str) -> Lexeme
    ensures { result ≡ lexeme_in signs text.now }
{
    match text {
        "(" => Lexeme::Open,
        ")" => Lexeme::Close,
        "[" => Lexeme::OpenBracket,
        "]" => Lexeme::CloseBracket,
        "{" => Lexeme::OpenBrace,
        "}" => Lexeme::CloseBrace,
        "<" => Lexeme::Less,
        ">" => Lexeme::Greater,
        "|" => Lexeme::Bar,
        "'" => Lexeme::Quote,
        "^" => Lexeme::Up,
        "!" => Lexeme::Down,
        "=" => Lexeme::Equals,
        "=c" => Lexeme::Constrains,
        "~=" => Lexeme::Differs,
        "~" => Lexeme::Not,
        "$" => Lexeme::Dollar,
        "@" => Lexeme::At,
        "*" => Lexeme::Star,
        "+" => Lexeme::Plus,
        "-" => Lexeme::Minus,
        "," => Lexeme::Comma,
        ";" => Lexeme::Semicolon,
        ":" => Lexeme::Colon,
        "::" => Lexeme::DoubleColon,
        "." => Lexeme::Stop,
        "%" => Lexeme::Percent,
        "-->" => Lexeme::Arrow,
        "==>" => Lexeme::DoubleArrow,
        "?=>" => Lexeme::OptionalArrow,
        ":=" => Lexeme::Becomes,
        _ => Lexeme::Divider,
    }
}

/// The lexeme of the token.
#[tactic(auto, unfolding(lfg_model::specs::Drafts::lexeme_of))]
fn lexeme_of(token: &Token) -> Result<Lexeme, AllocError>
    ensures { IfOk result (λ l. l ≡ lexeme_of token.now.kind token.now.text) }
{
    match token.kind {
        TokenKind::Name => Ok(Lexeme::Word(token.text.clone()?)),
        TokenKind::Symbol => Ok(sign_of(token.text.text())),
    }
}

/// The lexemes of the tokens.
pub(crate) fn lexemes_of(alloc: Global, tokens: &[Token]) -> Result<Vec<Lexeme>, AllocError>
    ensures { IfOk result (λ v. v.items ≡ lexemes_of tokens.now) }
{
    let mut lexemes = Vec::new(alloc);
    for token in tokens {
        lexemes.push(lexeme_of(token)?)?;
    }
    Ok(lexemes)
}
