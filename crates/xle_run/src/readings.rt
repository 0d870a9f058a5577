ghost use Rattle.std.specs.Prelude.{◌≡◌, ◌≢◌, ◌≤◌, ◌∷◌, [], ℕ, List, Some, IfErr, length};
ghost use Rattle.lfg_io.specs.Shelf.{Files, file_in};
ghost use Rattle.lfg_model.specs.Output.{readings, joined, AreAccepted, ComesTo, IfReadFault, IsOutput};
ghost use Rattle.lfg_model.specs.Thin.{IsThinGrammar};
ghost use Rattle.xle_run.specs.Causes.{IsFailure};
ghost use Rattle.xle_run.specs.Loads.{GivesGrammar};
ghost use Rattle.xle_run.specs.Writes.{IfRefused, IfTaken, IfUnaccepted, Puts};

use crate::loads::{bad_file, load_file, load_grammar};
use crate::sections::write_text;
use crate::thin::thin_text;
use lfg_io::{Shelf, Sink};
use lfg_model::{GrammarFault, Status};
use lfg_terms::Grammar;
use std::alloc::Global;

/// Writes the readings of the sentences of the one file by the grammar of the other.
///
/// # Errors
///
/// The status of a file that was not taken, of a sink that took no more, or of want of memory.
pub(crate) fn readings<F: Shelf, O: Sink>(
    alloc: Global,
    grammar: &str,
    sentences: &str,
    shelf: &mut F,
    out: &mut O,
) -> Result<(), Status>
    ensures failed { IfErr result (IsFailure (grammar.now ∷ sentences.now ∷ []) (F.sure shelf.old) (F.faults shelf.old) (F.faults shelf.new) (F.last_failed shelf.new) (O.faults out.old) (O.faults out.new)) }
    ensures files_kept { F.files shelf.new ≡ F.files shelf.old }
    ensures untouched { IfErr result (λ status. IfRefused status (out.new ≡ out.old)) }
    ensures refused { (files : Files) → F.files shelf.old ≡ Some files → IfErr result (λ status. IfUnaccepted status (IsOutput (file_in files) (Some (readings grammar.now sentences.now)) [] status)) }
    ensures reached { (files : Files) → F.files shelf.old ≡ Some files → IfErr result (λ status. IfReadFault status (ComesTo (file_in files) (Some (readings grammar.now sentences.now)))) }
    ensures accepted { (files : Files) → F.files shelf.old ≡ Some files → IfTaken result (AreAccepted (file_in files) (Some (readings grammar.now sentences.now))) }
    ensures written { (files : Files) (before : List ℕ) → F.files shelf.old ≡ Some files → O.written out.old ≡ Some before
        → Puts files (Some (readings grammar.now sentences.now)) before (O.written out.new) result }
    ensures room { (files : Files) (sections : List (List ℕ)) → F.files shelf.old ≡ Some files → IsOutput (file_in files) (Some (readings grammar.now sentences.now)) sections Status.Done
        → length (joined sections) ≤ O.room out.old → IfErr result (λ status. status ≢ Status.WriteFault) }
{
    match load_grammar(alloc, shelf, grammar) {
        Ok(grammar) => readings_by(alloc, &grammar, sentences, shelf, out),
        Err(status) => Err(status),
    }
}

/// Writes the readings of the sentences of the file by the grammar.
fn readings_by<F: Shelf, O: Sink>(
    alloc: Global,
    grammar: &Grammar,
    sentences: &str,
    shelf: &mut F,
    out: &mut O,
) -> Result<(), Status>
    requires { IsThinGrammar grammar.now }
    ensures failed { IfErr result (IsFailure (sentences.now ∷ []) (F.sure shelf.old) (F.faults shelf.old) (F.faults shelf.new) (F.last_failed shelf.new) (O.faults out.old) (O.faults out.new)) }
    ensures files_kept { F.files shelf.new ≡ F.files shelf.old }
    ensures untouched { IfErr result (λ status. IfRefused status (out.new ≡ out.old)) }
    ensures refused { (files : Files) (name : List ℕ) → F.files shelf.old ≡ Some files → GivesGrammar files name grammar.now → IfErr result (λ status. IfUnaccepted status (IsOutput (file_in files) (Some (readings name sentences.now)) [] status)) }
    ensures reached { (files : Files) (name : List ℕ) → F.files shelf.old ≡ Some files → GivesGrammar files name grammar.now → IfErr result (λ status. IfReadFault status (ComesTo (file_in files) (Some (readings name sentences.now)))) }
    ensures accepted { (files : Files) (name : List ℕ) → F.files shelf.old ≡ Some files → GivesGrammar files name grammar.now
        → IfTaken result (AreAccepted (file_in files) (Some (readings name sentences.now))) }
    ensures written { (files : Files) (name before : List ℕ) → F.files shelf.old ≡ Some files → O.written out.old ≡ Some before → GivesGrammar files name grammar.now
        → Puts files (Some (readings name sentences.now)) before (O.written out.new) result }
    ensures room { (files : Files) (name : List ℕ) (sections : List (List ℕ)) → F.files shelf.old ≡ Some files → GivesGrammar files name grammar.now
        → IsOutput (file_in files) (Some (readings name sentences.now)) sections Status.Done → length (joined sections) ≤ O.room out.old → IfErr result (λ status. status ≢ Status.WriteFault) }
{
    let bytes = match load_file(alloc, shelf, sentences) {
        Ok(bytes) => bytes,
        Err(status) => return Err(status),
    };
    match thin_text(&bytes) {
        Some(text) => write_text(alloc, out, grammar, text),
        None => Err(bad_file(alloc, sentences, GrammarFault::Entry { number: 0 })),
    }
}
