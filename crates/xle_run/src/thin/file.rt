ghost use Rattle.std.specs.Prelude.{◌≡◌, IfOk, MatchOption};
ghost use Rattle.std.specs.List.{list_all};
ghost use Rattle.lfg_terms.specs.declared.grammar.Grammar.{Grammar};
ghost use Rattle.lfg_model.specs.ThinText.{is_thin_byte, ThinFile};

use crate::thin::consistent::is_consistent;
use crate::thin::draft::Draft;
use crate::thin::grammar::grammar_of;
use crate::thin::lexemes::lexemes_of;
use crate::thin::sections::draft_of;
use lfg_lexer::{LexFault, tokens_of};
use lfg_model::Token;
use lfg_terms::Grammar;
use std::alloc::{AllocError, Global};

/// The length of the longest thin grammar file, in bytes.
const LONGEST: usize = 4_096;

/// A line feed or printable ASCII, and neither a double quote nor a backquote.
fn is_thin_byte(byte: u8) -> bool
    ensures { result ≡ is_thin_byte byte }
{
    byte == b'\n' || (matches!(byte, b' '..=b'~') && byte != b'"' && byte != b'`')
}

/// Whether all bytes are such.
fn has_thin_bytes(bytes: &[u8]) -> bool
    ensures { result ≡ list_all is_thin_byte bytes.now }
{
    bytes.iter().all(|byte| is_thin_byte(*byte))
}

/// The grammar of a thin file, or `None` where the file is not thin.
///
/// # Errors
///
/// Only for want of memory.
pub(crate) fn thin_grammar(alloc: Global, bytes: &[u8]) -> Result<Option<Grammar>, AllocError>
    ensures { IfOk result (λ o. MatchOption o ((g : Grammar) → ¬ ThinFile bytes.now g) (ThinFile bytes.now)) }
{
    if bytes.len() > LONGEST || !has_thin_bytes(bytes) {
        return Ok(None);
    }
    let Ok(text) = str::from_utf8(bytes) else {
        return Ok(None);
    };
    let tokens = match tokens_of(alloc, text) {
        Ok(tokens) => tokens,
        Err(LexFault::NoToken { .. }) => return Ok(None),
        Err(LexFault::Memory) => return Err(AllocError),
    };
    let Some(lexemes) = lexemes_of(alloc, &tokens)? else {
        return Ok(None);
    };
    let Some(draft) = draft_of(alloc, &lexemes)? else {
        return Ok(None);
    };
    if !is_consistent(alloc, &draft)? {
        return Ok(None);
    }
    Ok(Some(grammar_of(alloc, &draft)?))
}
