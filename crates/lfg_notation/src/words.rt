ghost use Rattle.std.specs.Prelude.{◌≡◌};
ghost use Rattle.std.specs.Char.{is_whitespace};
ghost use Rattle.std.specs.List.{list_any};
ghost use Rattle.std.specs.Str.{chars};
ghost use Rattle.lfg_model.specs.declared.notation.Separator.TheVariants.{Semicolon};
ghost use Rattle.lfg_model.specs.DraftForms.{word_form};
ghost use Rattle.lfg_model.specs.EntryNotation.{cut, maybe_annotation, reading_for, reading_of, readings_of, some_readings, word_for, word_of};
ghost use Rattle.lfg_notation.specs.Reading.{Gives};
ghost use Rattle.lfg_notation.specs.Views.{branch_of, words_form};

use crate::cutting::first_piece;
use crate::fault::Refusal;
use crate::settings::is_category;
use crate::templates::annotation_of;
use lfg_model::{Lexeme, Separator};
use lfg_terms::{LexEntry, List, Name, PathExpr, Schema};
use std::alloc::Global;

/// The annotation of a reading, which may be absent.
fn maybe_annotation(alloc: Global, lexemes: &[Lexeme]) -> Result<Vec<Schema<PathExpr>>, Refusal>
    ensures { Gives branch_of result (maybe_annotation lexemes.now) }
{
    if lexemes.is_empty() {
        return Ok(Vec::new(alloc));
    }
    annotation_of(alloc, lexemes)
}

/// The reading of the word with this category and the annotation that stands there.
fn reading_for(
    alloc: Global,
    number: u32,
    form: &Name,
    cat: &Name,
    lexemes: &[Lexeme],
) -> Result<LexEntry, Refusal>
    ensures { Gives word_form result (reading_for number form.now cat.now lexemes.now) }
{
    if !is_category(cat) {
        return Err(Refusal::Form);
    }
    let schemata = maybe_annotation(alloc, lexemes)?;
    Ok(LexEntry {
        entry: number,
        form: form.clone()?,
        cat: cat.clone()?,
        schemata: List::new(alloc, schemata)?,
    })
}

/// The reading of the word that stands there.
fn reading_of(
    alloc: Global,
    number: u32,
    form: &Name,
    lexemes: &[Lexeme],
) -> Result<LexEntry, Refusal>
    ensures { Gives word_form result (reading_of number form.now lexemes.now) }
{
    let [Lexeme::Word(cat), Lexeme::Star, rest @ ..] = lexemes else {
        return Err(Refusal::Form);
    };
    reading_for(alloc, number, form, cat, rest)
}

/// The readings of the word that stand there, cut at semicolons.
fn readings_of(
    alloc: Global,
    number: u32,
    form: &Name,
    lexemes: &[Lexeme],
) -> Result<Vec<LexEntry>, Refusal>
    ensures { Gives words_form result (readings_of number form.now (cut Semicolon lexemes.now)) }
{
    let mut words = Vec::new(alloc);
    let mut rest = lexemes;
    while !rest.is_empty() {
        let piece = first_piece(Separator::Semicolon, rest);
        let word = reading_of(alloc, number, form, piece.lexemes)?;
        words.push(word)?;
        rest = piece.rest;
    }
    Ok(words)
}

/// The readings of the word that stand there, of which there is one at least.
fn some_readings(
    alloc: Global,
    number: u32,
    form: &Name,
    lexemes: &[Lexeme],
) -> Result<Vec<LexEntry>, Refusal>
    ensures { Gives words_form result (some_readings number form.now (cut Semicolon lexemes.now)) }
{
    if lexemes.is_empty() {
        return Err(Refusal::Form);
    }
    readings_of(alloc, number, form, lexemes)
}

/// Whether white space stands in the name.
fn has_white_space(name: &Name) -> bool
    ensures { result ≡ list_any is_whitespace (chars name.now) }
{
    name.text().chars().any(|c| c.is_whitespace())
}

/// The word with the readings that stand there.
fn word_for(
    alloc: Global,
    number: u32,
    form: &Name,
    lexemes: &[Lexeme],
) -> Result<Vec<LexEntry>, Refusal>
    ensures { Gives words_form result (word_for number form.now lexemes.now) }
{
    if has_white_space(form) {
        return Err(Refusal::Form);
    }
    some_readings(alloc, number, form, lexemes)
}

/// The word with its readings that the entry of this number is.
pub(crate) fn word_of(
    alloc: Global,
    number: u32,
    lexemes: &[Lexeme],
) -> Result<Vec<LexEntry>, Refusal>
    ensures { Gives words_form result (word_of number lexemes.now) }
{
    let [Lexeme::Word(form), rest @ ..] = lexemes else {
        return Err(Refusal::Form);
    };
    word_for(alloc, number, form, rest)
}
