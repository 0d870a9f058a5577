ghost use Rattle.std.specs.Prelude.{◌≡◌, IfOk, MatchOption, Some, None};
ghost use Rattle.lfg_model.specs.Pieces.{comment_at, piece_at};
ghost use Rattle.lfg_lexer.specs.Seen.{Reads, piece};

use crate::names::{char_at, name_on};
use crate::symbols::symbol_at;
use lfg_model::TokenKind;
use lfg_terms::Name;
use std::alloc::{AllocError, Global};

/// What stands in front of a row of characters.
#[derive(Drop)]
pub(crate) enum Piece {
    /// White space or a comment.
    Gap,
    /// A token of this kind with its text.
    Token(TokenKind, Name),
}

/// What is behind the next double quote.
fn comment_at(chars: &[char]) -> Option<&[char]>
    ensures { MatchOption result (comment_at chars.now ≡ None)
        (λ rest. comment_at chars.now ≡ Some rest.now) }
{
    let mut rest = chars;
    while let [c, behind @ ..] = rest {
        if *c == '"' {
            return Some(behind);
        }
        rest = behind;
    }
    None
}

/// The piece in front, and what is behind it.
#[tactic(auto, unfolding(lfg_model::specs::Pieces::piece_at))]
pub(crate) fn piece_at(
    alloc: Global,
    chars: &[char],
) -> Result<Option<(Piece, &[char])>, AllocError>
    ensures { IfOk result (λ o. Reads (λ p rest. (piece p, rest.now)) o (piece_at chars.now)) }
{
    let [c, rest @ ..] = chars else {
        return Ok(None);
    };
    if c.is_whitespace() {
        return Ok(Some((Piece::Gap, rest)));
    }
    if *c == '"' {
        let Some(rest) = comment_at(rest) else {
            return Ok(None);
        };
        return Ok(Some((Piece::Gap, rest)));
    }
    if let Some((c, rest)) = char_at(chars) {
        let mut text = String::new(alloc);
        text.push(c)?;
        let rest = name_on(&mut text, rest)?;
        return Ok(Some((
            Piece::Token(TokenKind::Name, Name::new(alloc, text.as_str())?),
            rest,
        )));
    }
    let Some((symbol, rest)) = symbol_at(chars) else {
        return Ok(None);
    };
    Ok(Some((
        Piece::Token(TokenKind::Symbol, Name::new(alloc, symbol)?),
        rest,
    )))
}
