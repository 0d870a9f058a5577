ghost use Rattle.std.specs.Prelude.{◌≡◌, ◌+◌, ◌<◌, ◌≤◌, IfOk, IfSome, MatchOption, None, Some, length, map};
ghost use Rattle.lfg_model.specs.Drafts.{behind_kind, has_kind, kind_of, new_section, same_kind, section_at, section_of, sections_of};
ghost use Rattle.lfg_notation.specs.Faults.{ReadsSections};
ghost use Rattle.lfg_notation.specs.Views.{piece_of, section_form, sections_size};

use crate::cutting::{Cut, first_piece};
use crate::fault::DraftFault;
use lfg_model::{Lexeme, SectionKind, Separator};
use lfg_terms::Name;
use std::alloc::Global;

/// A section: its kind and what is behind its heading.
#[derive(Drop)]
pub(crate) struct Section<'a> {
    pub kind: SectionKind,
    pub entries: &'a [Lexeme],
}

/// The kind that the word names.
fn kind_of(word: &Name) -> Option<SectionKind>
    ensures { result ≡ kind_of word.now }
{
    match word.text() {
        "CONFIG" => Some(SectionKind::Config),
        "RULES" => Some(SectionKind::Rules),
        "TEMPLATES" => Some(SectionKind::Templates),
        "LEXICON" => Some(SectionKind::Lexicon),
        _ => None,
    }
}

/// The section of this kind, behind the word of which its version stands.
fn behind_kind(kind: SectionKind, lexemes: &[Lexeme]) -> Option<Section>
    ensures read { MatchOption result (behind_kind kind lexemes.now ≡ None) (λ s. behind_kind kind lexemes.now ≡ Some (section_form s)) }
    ensures shorter { IfSome result (λ s. length s.entries.now ≤ length lexemes.now) }
{
    let [
        Lexeme::Open,
        Lexeme::Word(one),
        Lexeme::Stop,
        Lexeme::Word(nought),
        Lexeme::Close,
        entries @ ..,
    ] = lexemes
    else {
        return None;
    };
    if one.text() != "1" {
        return None;
    }
    if nought.text() != "0" {
        return None;
    }
    Some(Section { kind, entries })
}

/// The section with its heading `NAME NAME KIND (1.0)`.
fn section_of(lexemes: &[Lexeme]) -> Option<Section>
    ensures read { MatchOption result (section_of lexemes.now ≡ None) (λ s. section_of lexemes.now ≡ Some (section_form s)) }
    ensures shorter { IfSome result (λ s. length s.entries.now ≤ length lexemes.now) }
{
    let [
        Lexeme::Word(_),
        Lexeme::Word(_),
        Lexeme::Word(word),
        rest @ ..,
    ] = lexemes
    else {
        return None;
    };
    let Some(kind) = kind_of(word) else {
        return None;
    };
    behind_kind(kind, rest)
}

/// Whether both are the same kind.
fn same_kind(one: SectionKind, other: SectionKind) -> bool
    ensures { result ≡ same_kind one other }
{
    match one {
        SectionKind::Config => matches!(other, SectionKind::Config),
        SectionKind::Rules => matches!(other, SectionKind::Rules),
        SectionKind::Templates => matches!(other, SectionKind::Templates),
        SectionKind::Lexicon => matches!(other, SectionKind::Lexicon),
    }
}

/// Whether one of the sections is of this kind.
fn has_kind(kind: SectionKind, sections: &[Section]) -> bool
    ensures { result ≡ has_kind kind (map section_form sections.now) }
{
    for section in sections {
        if same_kind(section.kind, kind) {
            return true;
        }
    }
    false
}

/// The section in the piece, which is ended, of another kind than those before it.
fn section_at<'a>(before: &[Section], piece: &Cut<'a>) -> Option<Section<'a>>
    ensures read { MatchOption result (section_at (map section_form before.now) (piece_of piece.now) ≡ None)
        (λ s. section_at (map section_form before.now) (piece_of piece.now) ≡ Some (section_form s)) }
    ensures shorter { IfSome result (λ s. length s.entries.now ≤ length piece.now.lexemes.now) }
{
    if !piece.is_ended {
        return None;
    }
    let Some(section) = section_of(piece.lexemes) else {
        return None;
    };
    if has_kind(section.kind, before) {
        return None;
    }
    Some(section)
}

/// The sections of a file.
pub(crate) fn sections_of(alloc: Global, lexemes: &[Lexeme]) -> Result<Vec<Section>, DraftFault>
    requires { length lexemes.now < 4294967295 }
    ensures read { ReadsSections result (sections_of lexemes.now) }
    ensures few { IfOk result (λ v. sections_size v.items ≤ length lexemes.now) }
{
    let mut sections = Vec::new(alloc);
    let mut rest = lexemes;
    let mut number = 1;
    while !rest.is_empty() {
        let piece = first_piece(Separator::Divider, rest);
        let Some(section) = section_at(&sections, &piece) else {
            return Err(DraftFault::Section { number });
        };
        sections.push(section)?;
        rest = piece.rest;
        number += 1;
    }
    if !has_kind(SectionKind::Config, &sections) {
        return Err(DraftFault::Section { number });
    }
    Ok(sections)
}
