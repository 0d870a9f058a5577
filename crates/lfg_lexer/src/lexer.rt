ghost use Rattle.std.specs.Prelude.{◌≡◌, ◌++◌, ◌≤◌, List, ℕ, IfOk, IfErr, OnOk, IsErr, IsOkUnless, length};
ghost use Rattle.std.specs.Str.{chars};
ghost use Rattle.lfg_model.specs.declared.token.Token.{Token};
ghost use Rattle.lfg_model.specs.Tokens.{Tokens, Stuck, width};
ghost use Rattle.lfg_lexer.specs.Seen.{piece, kept};
ghost use Rattle.lfg_lexer.specs.Faults.{StopsAt};

use crate::characters::{chars_of, width};
use crate::fault::LexFault;
use crate::pieces::{Piece, piece_at};
use lfg_model::Token;
use std::alloc::{AllocError, Global};

/// Appends the token of a piece between these places, if it is one.
fn keep(tokens: &mut Vec<Token>, found: Piece, at: u32, to: u32) -> Result<(), AllocError>
    ensures { OnOk result (tokens.new.items ≡ tokens.old.items ++ kept (piece found) at to) }
{
    match found {
        Piece::Gap => {}
        Piece::Token(kind, text) => tokens.push(Token { kind, text, at, to })?,
    }
    Ok(())
}

/// The tokens of a row of characters.
fn tokens_in(alloc: Global, chars: &[char]) -> Result<Vec<Token>, LexFault>
    requires { width chars.now ≤ 4194304 }
    ensures tokens { IfOk result (λ v. Tokens 0 chars.now v.items) }
    ensures stuck { IfErr result (λ fault. StopsAt chars.now fault) }
{
    let mut tokens = Vec::new(alloc);
    let mut rest = chars;
    let mut at = 0;
    while !rest.is_empty() {
        let Some((found, behind)) = piece_at(alloc, rest)? else {
            return Err(LexFault::NoToken { at });
        };
        let to = at + width(&rest[..rest.len() - behind.len()]);
        keep(&mut tokens, found, at, to)?;
        rest = behind;
        at = to;
    }
    Ok(tokens)
}

/// The tokens of a text in order, with the bytes at which they begin and end, counted from 0.
///
/// # Errors
///
/// `NoToken` exactly where the text is no row of white space, comments and tokens, with the first
/// byte at which none of them begins; `Memory` for want of memory.
pub fn tokens_of(alloc: Global, text: &str) -> Result<Vec<Token>, LexFault>
    requires { length text.now ≤ 4194304 }
    ensures tokens { IfOk result (λ v. Tokens 0 (chars text.now) v.items) }
    ensures stuck { IfErr result (λ fault. StopsAt (chars text.now) fault) }
    ensures accepted { (ts : List Token) → Tokens 0 (chars text.now) ts
        → IsOkUnless result LexFault.Memory }
    ensures refused { (at : ℕ) → Stuck 0 (chars text.now) at → IsErr result }
{
    let chars = chars_of(alloc, text)?;
    tokens_in(alloc, &chars)
}

#[cfg(test)]
mod tests {
    use super::*;
    use lfg_model::TokenKind;
    use std::process::Abort;
    use std::test::Fail;

    /// The tokens of the text, each with its kind, its text and its bytes, or its fault.
    fn shown(rt: &impl Abort, alloc: Global, text: &str) -> Result<String, Fail> {
        assert!(rt; text.len() <= 4_194_304);
        let tokens = match tokens_of(alloc, text) {
            Ok(tokens) => tokens,
            Err(fault) => return Ok(format!(in alloc; "{fault}")?),
        };
        let mut lines = String::new(alloc);
        for token in &tokens {
            let kind = match token.kind {
                TokenKind::Name => 'n',
                TokenKind::Symbol => 's',
            };
            let text = token.text.text();
            let line = format!(in alloc; "{kind}{text} {} {}|", token.at, token.to)?;
            lines.push_str(line.as_str())?;
        }
        Ok(lines)
    }

    #[test]
    fn texts_have_their_tokens(rt: HostRuntime) -> Result<(), Fail> {
        for (text, wanted) in [
            (
                "a-b `-c =cat =c at",
                "na-b 0 3|n-c 4 7|s= 8 9|ncat 9 12|s=c 13 15|nat 16 18|",
            ),
            (
                "schl\u{e4}ft--b a",
                "nschl\u{e4}ft 0 8|s- 8 9|s- 9 10|nb 10 11|na 12 13|",
            ),
            (
                "----->=\"x\"==>?=>:=::",
                "s---- 0 4|s- 4 5|s> 5 6|s= 6 7|s==> 10 13|s?=> 13 16|s:= 16 18|s:: 18 20|",
            ),
            (
                "=c=c`x=c- =c\u{e4}=c",
                "s=c 0 2|s= 2 3|ncx 3 6|s= 6 7|nc 7 8|s- 8 9|s= 10 11|nc\u{e4} 11 14|s=c 14 16|",
            ),
            ("a` b`-c-`-", "na b-c-- 0 10|"),
            ("1_`.2-->~=~", "n1_.2 0 5|s--> 5 8|s~= 8 10|s~ 10 11|"),
            (" \"a ` b\"\u{a0}\n", ""),
        ] {
            let seen = shown(&rt, rt.alloc(), text)?;
            assert_eq!(rt; seen.as_str(), wanted);
        }
        Ok(())
    }

    #[test]
    fn texts_have_a_first_place_without_a_token(rt: HostRuntime) -> Result<(), Fail> {
        for (text, wanted) in [
            ("a \"b", "no token begins at byte 2"),
            ("`\n", "no token begins at byte 0"),
            ("\u{e4} #", "no token begins at byte 3"),
            ("\u{e4}-`", "no token begins at byte 3"),
            ("a-`\nb #", "no token begins at byte 2"),
            ("= ?=", "no token begins at byte 2"),
        ] {
            let seen = shown(&rt, rt.alloc(), text)?;
            assert_eq!(rt; seen.as_str(), wanted);
        }
        Ok(())
    }
}
