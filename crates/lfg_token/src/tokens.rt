ghost use Rattle.std.specs.Prelude.{◌≡◌, ◌<◌, ◌≤◌, Err, IfOk, IfErr, IsOkUnless, length, map};
ghost use Rattle.lfg_token.specs.Words.{tokens, tokens_of};
ghost use Rattle.lfg_token.specs.Faults.{IsFault};

use crate::fault::TokenFault;
use crate::forms::{first_token, token_of};
use crate::pieces::{piece_count, pieces_of};
use lfg_terms::TokenForms;
use std::alloc::{AllocError, Global};

/// The most tokens of a sentence.
const MOST_TOKENS: usize = 64;

/// The tokens with these texts.
fn tokens_of(alloc: Global, texts: &[&str]) -> Result<Vec<TokenForms>, AllocError>
    ensures { IfOk result (λ v. v.items ≡ tokens_of (map (λ x. x.now) texts.now)) }
{
    let [first, rest @ ..] = texts else {
        return Ok(Vec::new(alloc));
    };
    let mut tokens = vec![in alloc; first_token(alloc, first)?]?;
    for text in rest {
        tokens.push(token_of(alloc, text)?)?;
    }
    Ok(tokens)
}

/// The tokens of a line in order, each with its forms.
///
/// # Errors
///
/// `TooLong` exactly where the line has more than 64 tokens, with their number; `Memory` for want
/// of memory.
pub fn sentence(alloc: Global, line: &str) -> Result<Vec<TokenForms>, TokenFault>
    requires { length line.now ≤ 4194304 }
    ensures tokens { IfOk result (λ v. v.items ≡ tokens line.now) }
    ensures within { IfOk result (λ v. length v.items ≤ 64) }
    ensures fault { IfErr result (λ fault. IsFault line.now fault) }
    ensures accepted { length (tokens line.now) ≤ 64 → IsOkUnless result TokenFault.Memory }
    ensures refused { 64 < length (tokens line.now)
        → result ≡ Err (TokenFault.TooLong (length (tokens line.now))) }
{
    let count = piece_count(line);
    if count > MOST_TOKENS {
        return Err(TokenFault::TooLong {
            tokens: count as u32,
        });
    }
    let texts = pieces_of(alloc, line)?;
    Ok(tokens_of(alloc, &texts)?)
}

#[cfg(test)]
mod tests {
    use super::*;
    use std::process::Abort;
    use std::test::Fail;

    /// The tokens of the line, each with its text and its forms, or its fault.
    fn shown(rt: &impl Abort, alloc: Global, line: &str) -> Result<String, Fail> {
        assert!(rt; line.len() <= 4_194_304);
        let tokens = match sentence(alloc, line) {
            Ok(tokens) => tokens,
            Err(fault) => return Ok(format!(in alloc; "{fault}")?),
        };
        let mut shown = String::new(alloc);
        for token in &tokens {
            shown.push_str(token.text.text())?;
            for form in token.forms.list() {
                shown.push(' ')?;
                shown.push_str(form.text())?;
            }
            shown.push('|')?;
        }
        Ok(shown)
    }

    /// The number of tokens of a line with this many words, or its fault.
    fn counted(rt: &impl Abort, alloc: Global, words: usize) -> Result<String, Fail> {
        let mut line = String::new(alloc);
        for _ in 0..words {
            line.push_str("w ")?;
        }
        assert!(rt; line.len() <= 4_194_304);
        match sentence(alloc, line.as_str()) {
            Ok(tokens) => {
                let count = tokens.len();
                Ok(format!(in alloc; "{count}")?)
            }
            Err(fault) => Ok(format!(in alloc; "{fault}")?),
        }
    }

    #[test]
    fn lines_have_their_tokens(rt: HostRuntime) -> Result<(), Fail> {
        for (line, wanted) in [
            ("", ""),
            (" \t\u{a0}\r\n", ""),
            ("The man", "The The the|man man|"),
            ("man The", "man man|The The|"),
            ("  The  THE", "The The the|THE THE|"),
            (
                "USA, 3.5% (it's)",
                "USA USA uSA|, ,|3.5 3.5|% %|( (|it's it's|) )|",
            ),
            (
                "\u{c4}pfel f\u{fc}r \u{c4}",
                "\u{c4}pfel \u{c4}pfel|f\u{fc}r f\u{fc}r|\u{c4} \u{c4}|",
            ),
            ("A\u{308}pfel", "A\u{308}pfel A\u{308}pfel a\u{308}pfel|"),
            ("Z@[", "Z Z z|@ @|[ [|"),
            ("\"A", "\" \"|A A|"),
        ] {
            let seen = shown(&rt, rt.alloc(), line)?;
            assert_eq!(rt; seen.as_str(), wanted);
        }
        Ok(())
    }

    #[test]
    fn a_sentence_has_up_to_64_tokens(rt: HostRuntime) -> Result<(), Fail> {
        for (words, wanted) in [
            (63, "63"),
            (64, "64"),
            (65, "65 tokens, more than 64"),
            (1000, "1000 tokens, more than 64"),
        ] {
            let seen = counted(&rt, rt.alloc(), words)?;
            assert_eq!(rt; seen.as_str(), wanted);
        }
        Ok(())
    }
}
