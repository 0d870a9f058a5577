ghost use Rattle.std.specs.Prelude.{◌≡◌, ◌++◌, ◌^◌, ◌<◌, IfOk, IfSome, OnOk, length};
ghost use Rattle.std.specs.Option.{option_to_list};
ghost use Rattle.lfg_model.specs.Output.{heading};
ghost use Rattle.lfg_model.specs.Readings.{IsReadings};
ghost use Rattle.lfg_model.specs.Thin.{IsThinGrammar};
ghost use Rattle.lfg_model.specs.ThinTrees.{HaveOwnForms};
ghost use Rattle.lfg_solve.specs.Printable.{ArePrintable};
ghost use Rattle.xle_run.specs.Writes.{AppendsReadings, IsSectionOf, IsSentence};

use crate::pair_text::push_pair;
use crate::search::find_derivation;
use crate::thin::words_of;
use lfg_model::Pair;
use lfg_solve::assigned_pair;
use lfg_terms::{Grammar, TokenForms, push_number};
use std::alloc::{AllocError, Global};

/// The section of a sentence: a heading with its number, counted from 1, and its text, its pairs
/// of tree and f-structure, and an empty line.
///
/// # Errors
///
/// Only for want of memory.
pub(crate) fn section(
    alloc: Global,
    grammar: &Grammar,
    number: u64,
    line: &str,
) -> Result<Vec<u8>, AllocError>
    requires thin { IsThinGrammar grammar.now }
    requires sentence { IsSentence line.now }
    ensures { IfOk result (λ text. IsSectionOf grammar.now number line.now text.items) }
{
    let mut text = Vec::new(alloc);
    push_heading(alloc, &mut text, number, line)?;
    push_readings(alloc, &mut text, grammar, line)?;
    text.push(b'\n')?;
    Ok(text)
}

/// Appends the heading of a section.
fn push_heading(
    alloc: Global,
    text: &mut Vec<u8>,
    number: u64,
    line: &str,
) -> Result<(), AllocError>
    ensures { OnOk result (text.new.items ≡ text.old.items ++ heading number line.now) }
{
    text.extend_from_slice(b"# ")?;
    push_number(alloc, text, number)?;
    text.push(b' ')?;
    text.extend_from_slice(line.as_bytes())?;
    text.push(b'\n')?;
    Ok(())
}

/// Appends the text of the pair that the grammar assigns to the line, if there is one.
fn push_readings(
    alloc: Global,
    text: &mut Vec<u8>,
    grammar: &Grammar,
    line: &str,
) -> Result<(), AllocError>
    requires thin { IsThinGrammar grammar.now }
    requires sentence { IsSentence line.now }
    ensures { OnOk result (AppendsReadings grammar.now line.now text.old.items text.new.items) }
{
    let tokens = words_of(alloc, line)?;
    let Some(pair) = only_reading(alloc, grammar, &tokens)? else {
        return Ok(());
    };
    push_pair(alloc, text, &pair)
}

/// The pair of tree and f-structure of the one derivation of the sentence, if there is one and the
/// grammar assigns it.
fn only_reading(
    alloc: Global,
    grammar: &Grammar,
    tokens: &[TokenForms],
) -> Result<Option<Pair>, AllocError>
    requires thin { IsThinGrammar grammar.now }
    requires own_forms { HaveOwnForms tokens.now }
    requires few { length tokens.now < 2 ^ 32 }
    ensures readings { IfOk result (λ found. IsReadings grammar.now tokens.now (option_to_list found)) }
    ensures printable { IfOk result (λ found. IfSome found (λ pair. ArePrintable pair.facts)) }
{
    let Some(derivation) = find_derivation(alloc, grammar, tokens)? else {
        return Ok(None);
    };
    assigned_pair(alloc, grammar, tokens, &derivation)
}
