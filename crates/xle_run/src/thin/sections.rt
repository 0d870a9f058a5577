ghost use Rattle.std.specs.Prelude.{◌≡◌, ◌↔◌, List, ℕ, IfOk, IsTrue, MatchOption, None, Some, codes, map};
ghost use Rattle.lfg_model.specs.declared.lexeme.Lexeme.{Lexeme};
ghost use Rattle.lfg_model.specs.Lists.{In};
ghost use Rattle.lfg_model.specs.ThinText.{behind_heading, in_set, is_nothing, root_at, Row, AreSections, IsConfig, IsEnded, IsEntry, IsFilled, IsPhrase, IsSection, Says};
ghost use Rattle.xle_run.specs.Reading.{Found};
ghost use Rattle.xle_run.specs.Drafts.{draft_view, entry_view, phrase_view};

use crate::thin::cutting::up_to_divider;
use crate::thin::draft::{Draft, Entry, Phrase};
use crate::thin::lexicon::entry_at;
use crate::thin::rules::phrase_at;
use lfg_model::Lexeme;
use lfg_terms::Name;
use std::alloc::{AllocError, Global};

/// What a section of this kind has behind its heading `NAME NAME KIND (1.0)`.
fn behind_heading<'a>(kind: &str, section: &'a [Lexeme]) -> Option<&'a [Lexeme]>
    ensures { MatchOption result (behind_heading kind.now section.now ≡ None)
        (λ rest. behind_heading kind.now section.now ≡ Some rest.now) }
{
    let [
        Lexeme::Word(_),
        Lexeme::Word(_),
        Lexeme::Word(word),
        Lexeme::Open,
        Lexeme::Word(one),
        Lexeme::Stop,
        Lexeme::Word(nought),
        Lexeme::Close,
        rest @ ..,
    ] = section
    else {
        return None;
    };
    if word.text() == kind && one.text() == "1" && nought.text() == "0" {
        Some(rest)
    } else {
        None
    }
}

/// Whether the lexeme is the name `in_set`.
fn is_in_set(lexeme: &Lexeme) -> bool
    ensures { IsTrue result ↔ (lexeme.now ≡ in_set) }
{
    match lexeme {
        Lexeme::Word(name) => name.text() == "in_set",
        _ => false,
    }
}

/// Whether the name `in_set` stands there.
fn has_in_set(lexemes: &[Lexeme]) -> bool
    ensures { IsTrue result ↔ In in_set lexemes.now }
{
    for lexeme in lexemes {
        if is_in_set(lexeme) {
            return true;
        }
    }
    false
}

/// The entries of a section of this kind, in which the name `in_set` does not stand.
fn entries_in<'a>(kind: &str, section: &'a [Lexeme]) -> Option<&'a [Lexeme]>
    ensures { MatchOption result ((entries : List Lexeme) → ¬ IsSection kind.now section.now entries)
        (λ entries. IsSection kind.now section.now entries.now) }
{
    let entries = behind_heading(kind, section)?;
    if has_in_set(entries) {
        None
    } else {
        Some(entries)
    }
}

/// The category that the entry `ROOTCAT NAME.` names.
fn root_at(entries: &[Lexeme]) -> Option<&Name>
    ensures { MatchOption result (root_at entries.now ≡ None)
        (λ root. root_at entries.now ≡ Some root.now) }
{
    let [Lexeme::Word(key), Lexeme::Word(root), Lexeme::Stop] = entries else {
        return None;
    };
    if key.text() == "ROOTCAT" {
        Some(root)
    } else {
        None
    }
}

/// The root category that the CONFIG section names in its one entry.
fn root_of(section: &[Lexeme]) -> Option<&Name>
    ensures { MatchOption result ((root : List ℕ) → ¬ IsConfig section.now root)
        (λ root. IsConfig section.now root.now) }
{
    root_at(entries_in("CONFIG", section)?)
}

/// The rules that stand there, each with its stop.
fn phrases_in(alloc: Global, entries: &[Lexeme]) -> Result<Option<Vec<Phrase>>, AllocError>
    ensures { IfOk result (λ o. Found (λ v. map phrase_view v.items) (Row is_nothing (IsEnded IsPhrase) entries.now) o) }
{
    let mut phrases = Vec::new(alloc);
    let mut rest = entries;
    while !rest.is_empty() {
        let Some((phrase, behind)) = phrase_at(alloc, rest)? else {
            return Ok(None);
        };
        phrases.push(phrase)?;
        rest = behind;
    }
    Ok(Some(phrases))
}

/// The rules of the RULES section, of which there is one at least.
fn phrases_of(alloc: Global, section: &[Lexeme]) -> Result<Option<Vec<Phrase>>, AllocError>
    ensures { IfOk result (λ o. Found (λ v. map phrase_view v.items) (IsFilled (codes "RULES") (IsEnded IsPhrase) section.now) o) }
{
    let Some(entries) = entries_in("RULES", section) else {
        return Ok(None);
    };
    let Some(phrases) = phrases_in(alloc, entries)? else {
        return Ok(None);
    };
    if phrases.is_empty() {
        Ok(None)
    } else {
        Ok(Some(phrases))
    }
}

/// The words that stand there, each with its stop.
fn words_in(alloc: Global, entries: &[Lexeme]) -> Result<Option<Vec<Entry>>, AllocError>
    ensures { IfOk result (λ o. Found (λ v. map entry_view v.items) (Row is_nothing (IsEnded IsEntry) entries.now) o) }
{
    let mut words = Vec::new(alloc);
    let mut rest = entries;
    while !rest.is_empty() {
        let Some((word, behind)) = entry_at(alloc, rest)? else {
            return Ok(None);
        };
        words.push(word)?;
        rest = behind;
    }
    Ok(Some(words))
}

/// The words of the LEXICON section, of which there is one at least.
fn words_of(alloc: Global, section: &[Lexeme]) -> Result<Option<Vec<Entry>>, AllocError>
    ensures { IfOk result (λ o. Found (λ v. map entry_view v.items) (IsFilled (codes "LEXICON") (IsEnded IsEntry) section.now) o) }
{
    let Some(entries) = entries_in("LEXICON", section) else {
        return Ok(None);
    };
    let Some(words) = words_in(alloc, entries)? else {
        return Ok(None);
    };
    if words.is_empty() {
        Ok(None)
    } else {
        Ok(Some(words))
    }
}

/// The sections of a thin grammar file.
#[derive(Drop)]
struct Sections<'a> {
    config: &'a [Lexeme],
    rules: &'a [Lexeme],
    lexicon: &'a [Lexeme],
}

/// The three sections, each ended by a divider.
fn sections_of(lexemes: &[Lexeme]) -> Option<Sections>
    ensures { MatchOption result ((config rules lexicon : List Lexeme) → ¬ AreSections lexemes.now config rules lexicon)
        (λ s. AreSections lexemes.now s.config.now s.rules.now s.lexicon.now) }
{
    let (config, rest) = up_to_divider(lexemes)?;
    let (rules, rest) = up_to_divider(rest)?;
    let (lexicon, rest) = up_to_divider(rest)?;
    if rest.is_empty() {
        Some(Sections {
            config,
            rules,
            lexicon,
        })
    } else {
        None
    }
}

/// What the lexemes of a thin grammar file say, if they are those of one.
pub(crate) fn draft_of(alloc: Global, lexemes: &[Lexeme]) -> Result<Option<Draft>, AllocError>
    ensures { IfOk result (λ o. Found draft_view (Says lexemes.now) o) }
{
    let Some(sections) = sections_of(lexemes) else {
        return Ok(None);
    };
    let Some(root) = root_of(sections.config) else {
        return Ok(None);
    };
    let Some(phrases) = phrases_of(alloc, sections.rules)? else {
        return Ok(None);
    };
    let Some(entries) = words_of(alloc, sections.lexicon)? else {
        return Ok(None);
    };
    let root = root.clone()?;
    Ok(Some(Draft {
        root,
        phrases,
        entries,
    }))
}
