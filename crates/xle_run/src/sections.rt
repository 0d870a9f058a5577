ghost use Rattle.std.specs.Prelude.{◌≡◌, ◌≢◌, ◌==◌, ◌≤◌, ℕ, List, Some, not, IfOk, IfErr, filter, length, map};
ghost use Rattle.std.specs.Str.Lines.{lines};
ghost use Rattle.lfg_model.specs.Output.{AreReadings, AreSections, joined, sentences_of};
ghost use Rattle.lfg_model.specs.Thin.{IsThinGrammar};
ghost use Rattle.lfg_model.specs.ThinText.{ThinSentences};
ghost use Rattle.xle_run.specs.Causes.{IsUnwritten};
ghost use Rattle.xle_run.specs.Writes.{AreSentences, IsSentence, PutsSection, PutsSections, PutsWithin};

use crate::section::section;
use lfg_io::Sink;
use lfg_model::Status;
use lfg_terms::Grammar;
use std::alloc::{AllocError, Global};

/// Puts a section for each sentence of a text, numbered from 1.
///
/// # Errors
///
/// The status of a sink that took no more, or of want of memory.
pub(crate) fn write_text<O: Sink>(
    alloc: Global,
    out: &mut O,
    grammar: &Grammar,
    text: &str,
) -> Result<(), Status>
    requires thin { IsThinGrammar grammar.now }
    requires text { ThinSentences text.now }
    ensures unwritten { IfErr result (IsUnwritten (O.faults out.old) (O.faults out.new)) }
    ensures written { (before : List ℕ) → O.written out.old ≡ Some before → PutsSections grammar.now (sentences_of text.now) before (O.written out.new) result }
    ensures room { (all : List (List ℕ)) → AreSections (AreReadings grammar.now) 1 (sentences_of text.now) all
        → length (joined all) ≤ O.room out.old → IfErr result (λ status. status ≢ Status.WriteFault) }
{
    let Ok(sentences) = sentences_of(alloc, text) else {
        return Err(Status::Memory);
    };
    write_sections(alloc, out, grammar, &sentences)
}

/// The sentences of a text: its lines but the empty ones.
fn sentences_of(alloc: Global, text: &str) -> Result<Vec<&str>, AllocError>
    ensures { IfOk result (λ sentences. map (λ s. s.now) sentences.items ≡ sentences_of text.now) }
{
    let lines = lines_of(alloc, text)?;
    with_words(alloc, &lines)
}

/// The lines of a text.
fn lines_of(alloc: Global, text: &str) -> Result<Vec<&str>, AllocError>
    ensures { IfOk result (λ v. map (λ s. s.now) v.items ≡ lines text.now) }
{
    text.lines().collect(alloc)
}

/// The lines that are not empty.
fn with_words<'a>(alloc: Global, lines: &[&'a str]) -> Result<Vec<&'a str>, AllocError>
    ensures { IfOk result (λ v. map (λ s. s.now) v.items ≡ filter (λ line. not (length line == 0)) (map (λ s. s.now) lines.now)) }
{
    let mut kept = Vec::new(alloc);
    for line in lines {
        if !line.is_empty() {
            kept.push(*line)?;
        }
    }
    Ok(kept)
}

/// Puts a section for each sentence, numbered from 1.
fn write_sections<O: Sink>(
    alloc: Global,
    out: &mut O,
    grammar: &Grammar,
    sentences: &[&str],
) -> Result<(), Status>
    requires thin { IsThinGrammar grammar.now }
    requires sentences { AreSentences (map (λ s. s.now) sentences.now) }
    ensures unwritten { IfErr result (IsUnwritten (O.faults out.old) (O.faults out.new)) }
    ensures written { (before : List ℕ) → O.written out.old ≡ Some before → PutsSections grammar.now (map (λ s. s.now) sentences.now) before (O.written out.new) result }
    ensures room { (all : List (List ℕ)) → AreSections (AreReadings grammar.now) 1 (map (λ s. s.now) sentences.now) all
        → length (joined all) ≤ O.room out.old → IfErr result (λ status. status ≢ Status.WriteFault) }
{
    for i in 0..sentences.len() {
        if let Err(status) = write_section(alloc, out, grammar, i as u64 + 1, sentences[i]) {
            return Err(status);
        }
    }
    Ok(())
}

/// Puts the section of one sentence.
fn write_section<O: Sink>(
    alloc: Global,
    out: &mut O,
    grammar: &Grammar,
    number: u64,
    line: &str,
) -> Result<(), Status>
    requires thin { IsThinGrammar grammar.now }
    requires sentence { IsSentence line.now }
    ensures unwritten { IfErr result (IsUnwritten (O.faults out.old) (O.faults out.new)) }
    ensures later { O.faults out.old ≤ O.faults out.new }
    ensures written { (before : List ℕ) → O.written out.old ≡ Some before → PutsSection grammar.now number line.now before (O.written out.new) result }
    ensures room { PutsWithin grammar.now number line.now (O.room out.old) (O.room out.new) result }
{
    let Ok(section) = section(alloc, grammar, number, line) else {
        return Err(Status::Memory);
    };
    match out.put(&section) {
        Ok(()) => Ok(()),
        Err(_) => Err(Status::WriteFault),
    }
}
