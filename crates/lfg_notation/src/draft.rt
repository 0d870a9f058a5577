ghost use Rattle.std.specs.Prelude.{◌≡◌, ◌<◌, ◌≤◌, IfOk, IsErr, IsOkUnless, length, map};
ghost use Rattle.lfg_model.specs.DraftForms.{draft_form, DraftForm};
ghost use Rattle.lfg_model.specs.Drafts.{Drafts, empty_draft, FileFault, HasFault, lexemes_of, said, sections_read};
ghost use Rattle.lfg_notation.specs.Faults.{ReadsFile, ReadsLexemes, ReadsParts};
ghost use Rattle.lfg_notation.specs.Views.{parts_form, section_form, sections_size};

use crate::entries::{Parts, section_read};
use crate::fault::DraftFault;
use crate::lexemes::lexemes_of;
use crate::sections::{Section, sections_of};
use lfg_lexer::{LexFault, tokens_of};
use lfg_model::{Lexeme, Token};
use lfg_terms::{Draft, List};
use std::alloc::{AllocError, Global};

/// A draft with nothing in it.
fn no_parts(alloc: Global) -> Parts
    ensures { parts_form result ≡ empty_draft }
{
    Parts {
        settings: Vec::new(alloc),
        rules: Vec::new(alloc),
        templates: Vec::new(alloc),
        words: Vec::new(alloc),
    }
}

/// The draft of these parts.
fn draft_of(alloc: Global, parts: Parts) -> Result<Draft, AllocError>
    ensures { IfOk result (λ d. draft_form d ≡ parts_form parts) }
{
    Ok(Draft {
        settings: List::new(alloc, parts.settings)?,
        rules: List::new(alloc, parts.rules)?,
        templates: List::new(alloc, parts.templates)?,
        entries: List::new(alloc, parts.words)?,
    })
}

/// What the entries of the sections say, numbered from 1 over all of them.
fn sections_read(alloc: Global, sections: &[Section]) -> Result<Parts, DraftFault>
    requires { sections_size sections.now < 4294967295 }
    ensures { ReadsParts result (sections_read 1 empty_draft (map section_form sections.now)) }
{
    let mut parts = no_parts(alloc);
    let mut number = 1;
    for section in sections {
        let (next, more) = section_read(alloc, parts, section.kind, number, section.entries)?;
        number = next;
        parts = more;
    }
    Ok(parts)
}

/// The draft that the lexemes of a file say.
#[tactic(auto, unfolding(lfg_model::specs::Drafts::said))]
fn draft_said(alloc: Global, lexemes: &[Lexeme]) -> Result<Draft, DraftFault>
    requires { length lexemes.now < 4294967295 }
    ensures { ReadsLexemes result (said lexemes.now) }
{
    let sections = match sections_of(alloc, lexemes) {
        Ok(sections) => sections,
        Err(fault) => return Err(fault),
    };
    let parts = match sections_read(alloc, &sections) {
        Ok(parts) => parts,
        Err(fault) => return Err(fault),
    };
    Ok(draft_of(alloc, parts)?)
}

/// The draft that the tokens of a file say.
fn draft_of_tokens(alloc: Global, tokens: &[Token]) -> Result<Draft, DraftFault>
    requires { length tokens.now < 4294967295 }
    ensures { ReadsLexemes result (said (lexemes_of tokens.now)) }
{
    let lexemes = lexemes_of(alloc, tokens)?;
    draft_said(alloc, &lexemes)
}

/// The draft of a grammar file.
fn file_read(alloc: Global, bytes: &[u8]) -> Result<Draft, DraftFault>
    requires { length bytes.now ≤ 4194304 }
    ensures { ReadsFile bytes.now result }
{
    let text = match str::from_utf8(bytes) {
        Ok(text) => text,
        Err(error) => {
            let at = error.valid_up_to() as u32;
            return Err(DraftFault::NotUtf8 { at });
        }
    };
    let tokens = match tokens_of(alloc, text) {
        Ok(tokens) => tokens,
        Err(LexFault::NoToken { at }) => return Err(DraftFault::NoToken { at }),
        Err(LexFault::Memory) => return Err(DraftFault::Memory),
    };
    draft_of_tokens(alloc, &tokens)
}

/// The draft of a grammar file: its settings, rules, templates and words as they are written.
///
/// # Errors
///
/// The first of these: `NotUtf8` where the bytes are not UTF-8, with the first byte that goes on
/// with none; `NoToken` with the first byte at which no token begins; `Section` with the number of
/// the first section that is at fault; `Entry` with the number of the first entry that is none, or
/// is not ended. `Memory` for want of memory.
pub fn read_grammar_text(alloc: Global, bytes: &[u8]) -> Result<Draft, DraftFault>
    requires { length bytes.now ≤ 4194304 }
    ensures read { ReadsFile bytes.now result }
    ensures accepted { (d : DraftForm) → Drafts bytes.now d → IsOkUnless result DraftFault.Memory }
    ensures refused { (f : FileFault) → HasFault bytes.now f → IsErr result }
{
    file_read(alloc, bytes)
}
