ghost use Rattle.std.specs.Prelude.{◌≡◌, ◌+◌, ◌<◌, ◌≤◌, IfOk, length};
ghost use Rattle.std.specs.List.{list_any};
ghost use Rattle.lfg_model.specs.declared.notation.Separator.TheVariants.{Stop};
ghost use Rattle.lfg_model.specs.Drafts.{entries_from, piece_read};
ghost use Rattle.lfg_model.specs.EntryNotation.{cut, entry_read, is_in_set, with_entry};
ghost use Rattle.lfg_notation.specs.Reading.{Gives};
ghost use Rattle.lfg_notation.specs.Views.{parts_form, piece_of};
ghost use Rattle.lfg_notation.specs.Faults.{IsEntryFault, ReadsEntries};

use crate::cutting::{Cut, first_piece};
use crate::fault::{DraftFault, Refusal};
use crate::rules::rule_of;
use crate::settings::setting_of;
use crate::templates::template_of;
use crate::words::word_of;
use lfg_model::{Lexeme, SectionKind, Separator};
use lfg_terms::{DraftRule, LexEntry, Setting, Template};
use std::alloc::Global;

/// The parts of a draft that were read so far.
#[derive(Drop)]
pub(crate) struct Parts {
    pub settings: Vec<Setting>,
    pub rules: Vec<DraftRule>,
    pub templates: Vec<Template>,
    pub words: Vec<LexEntry>,
}

/// Whether the lexeme is the name `in_set`.
fn is_in_set(lexeme: &Lexeme) -> bool
    ensures { result ≡ is_in_set lexeme.now }
{
    match lexeme {
        Lexeme::Word(name) => name.text() == "in_set",
        _ => false,
    }
}

/// Whether the name `in_set` stands there.
fn has_in_set(lexemes: &[Lexeme]) -> bool
    ensures { result ≡ list_any is_in_set lexemes.now }
{
    lexemes.iter().any(|lexeme| is_in_set(lexeme))
}

/// The parts with what the entry of this kind and number says.
fn with_entry(
    alloc: Global,
    parts: Parts,
    kind: SectionKind,
    number: u32,
    lexemes: &[Lexeme],
) -> Result<Parts, Refusal>
    ensures { Gives parts_form result (with_entry kind number lexemes.now (parts_form parts)) }
{
    let mut parts = parts;
    match kind {
        SectionKind::Config => {
            let setting = setting_of(alloc, number, lexemes)?;
            parts.settings.push(setting)?;
        }
        SectionKind::Rules => {
            let rule = rule_of(alloc, number, lexemes)?;
            parts.rules.push(rule)?;
        }
        SectionKind::Templates => {
            let template = template_of(alloc, number, lexemes)?;
            parts.templates.push(template)?;
        }
        SectionKind::Lexicon => {
            let mut words = word_of(alloc, number, lexemes)?;
            parts.words.append(&mut words)?;
        }
    }
    Ok(parts)
}

/// The parts with the entry, in which the name `in_set` does not stand.
fn entry_read(
    alloc: Global,
    parts: Parts,
    kind: SectionKind,
    number: u32,
    lexemes: &[Lexeme],
) -> Result<Parts, Refusal>
    ensures { Gives parts_form result (entry_read kind number lexemes.now (parts_form parts)) }
{
    if has_in_set(lexemes) {
        return Err(Refusal::Form);
    }
    with_entry(alloc, parts, kind, number, lexemes)
}

/// The parts with the entry in the piece, which is ended.
fn piece_read(
    alloc: Global,
    parts: Parts,
    kind: SectionKind,
    number: u32,
    piece: &Cut,
) -> Result<Parts, Refusal>
    ensures { Gives parts_form result (piece_read kind number (piece_of piece.now) (parts_form parts)) }
{
    if !piece.is_ended {
        return Err(Refusal::Form);
    }
    entry_read(alloc, parts, kind, number, piece.lexemes)
}

/// What is to be told of an entry that was not read.
fn entry_fault(refusal: Refusal, number: u32) -> DraftFault
    ensures { IsEntryFault refusal number result }
{
    match refusal {
        Refusal::Form => DraftFault::Entry { number },
        Refusal::Memory => DraftFault::Memory,
    }
}

/// The parts with the entries of a section, numbered from this number on, and the number of the
/// next entry.
pub(crate) fn section_read(
    alloc: Global,
    parts: Parts,
    kind: SectionKind,
    number: u32,
    lexemes: &[Lexeme],
) -> Result<(u32, Parts), DraftFault>
    requires { number + length lexemes.now < 4294967296 }
    ensures read { ReadsEntries result (entries_from kind number (parts_form parts) (cut Stop lexemes.now)) }
    ensures few { IfOk result (λ x. x.0 ≤ number + length lexemes.now) }
{
    let mut parts = parts;
    let mut rest = lexemes;
    let mut number = number;
    while !rest.is_empty() {
        let piece = first_piece(Separator::Stop, rest);
        parts = match piece_read(alloc, parts, kind, number, &piece) {
            Ok(parts) => parts,
            Err(refusal) => return Err(entry_fault(refusal, number)),
        };
        rest = piece.rest;
        number += 1;
    }
    Ok((number, parts))
}
