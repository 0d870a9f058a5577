ghost use Rattle.std.specs.Prelude.{◌≡◌, ◌≢◌, ◌↔◌, ◌⊎◌, ◌≤◌, ◌++◌, ℕ, List, [], Some, None, length, map, string_bytes, IfErr};
ghost use Rattle.std.specs.List.{Contains};
ghost use Rattle.lfg_io.specs.Counts.{Rose};
ghost use Rattle.lfg_io.specs.Sink.{Appends, AppendsPrefix};
ghost use Rattle.lfg_model.specs.Output.{command_of, joined, AreAccepted, ComesTo, IfReadFault, IfTooLong, IfBadGrammar, IsFileOf, IsOutput, IsPart, IsCutPart, exit_status, fault_line};
ghost use Rattle.lfg_io.specs.Shelf.{Files, file_in};
ghost use Rattle.xle_run.specs.Writes.{IfRefused, IfTaken, IfUnaccepted, Puts};
ghost use Rattle.xle_run.specs.Causes.{IsRunFailure};

use crate::command::command_of;
use crate::readings::readings;
use crate::report::put_fault_line;
use lfg_io::{Shelf, Sink};
use lfg_model::Status;
use std::alloc::Global;

/// Runs the command that the words of the command line say: loads its files from the shelf, puts a
/// section for each sentence to `out`, and for each status but `Done` a line to `err`.
///
/// `readings G S` writes for each sentence of the file S its pairs of tree and f-structure by the
/// grammar of the file G. Both files have to be thin for now.
pub fn run<F: Shelf, O: Sink, E: Sink>(
    alloc: Global,
    words: &[String],
    shelf: &mut F,
    out: &mut O,
    err: &mut E,
) -> Status
    ensures usage { (result ≡ Status.Usage) ↔ (command_of (map string_bytes words.now) ≡ None) }

    // A file could not be read: the shelf counted it in this call, and it is one of the command's.
    // Files before it are accepted.
    ensures read_fault { IfReadFault result (λ name. Rose (F.faults shelf.old) (F.faults shelf.new)) }
    ensures last_failed { IfReadFault result (λ name. F.last_failed shelf.new ≡ name) }
    ensures read_file { IfReadFault result (IsFileOf (map string_bytes words.now)) }
    ensures never_sure { IfReadFault result (λ name. ¬ Contains (F.sure shelf.old) name) }
    ensures reached { (files : Files) → F.files shelf.old ≡ Some files
        → IfReadFault result (ComesTo (file_in files) (command_of (map string_bytes words.now))) }
    ensures files_kept { F.files shelf.new ≡ F.files shelf.old }

    // A file is too long, or not accepted: it is one of the command's, and that is the output.
    ensures long_file { IfTooLong result (IsFileOf (map string_bytes words.now)) }
    ensures too_long { (files : Files) → F.files shelf.old ≡ Some files
        → IfTooLong result (λ name. IsOutput (file_in files) (command_of (map string_bytes words.now)) [] result) }
    ensures bad_file { IfBadGrammar result (λ name fault. IsFileOf (map string_bytes words.now) name) }
    ensures not_accepted { (files : Files) → F.files shelf.old ≡ Some files
        → IfBadGrammar result (λ name fault. IsOutput (file_in files) (command_of (map string_bytes words.now)) [] result) }
    ensures accepted { (files : Files) → F.files shelf.old ≡ Some files → (result ≡ Status.Done) ⊎ (result ≡ Status.WriteFault)
        → AreAccepted (file_in files) (command_of (map string_bytes words.now)) }

    // What stands on `out` behind what it had: all sections, none, whole ones from the first on, or
    // whole ones and the beginning of the next.
    ensures done { (files : Files) (before : List ℕ) → F.files shelf.old ≡ Some files → O.written out.old ≡ Some before → result ≡ Status.Done
        → (sections : List (List ℕ)) × IsOutput (file_in files) (command_of (map string_bytes words.now)) sections Status.Done
        × (O.written out.new ≡ Some (before ++ joined sections)) }
    ensures refused { result ≢ Status.Done → result ≢ Status.WriteFault → result ≢ Status.Memory → out.new ≡ out.old }
    ensures memory { (files : Files) (before : List ℕ) → F.files shelf.old ≡ Some files → O.written out.old ≡ Some before → result ≡ Status.Memory
        → (bytes : List ℕ) × IsPart (file_in files) (command_of (map string_bytes words.now)) bytes × (O.written out.new ≡ Some (before ++ bytes)) }
    ensures cut { (files : Files) (before : List ℕ) → F.files shelf.old ≡ Some files → O.written out.old ≡ Some before → result ≡ Status.WriteFault
        → (bytes : List ℕ) × IsCutPart (file_in files) (command_of (map string_bytes words.now)) bytes × (O.written out.new ≡ Some (before ++ bytes)) }
    ensures write_fault { result ≡ Status.WriteFault → Rose (O.faults out.old) (O.faults out.new) }
    ensures room { (files : Files) (sections : List (List ℕ)) → F.files shelf.old ≡ Some files
        → IsOutput (file_in files) (command_of (map string_bytes words.now)) sections Status.Done
        → length (joined sections) ≤ O.room out.old → result ≢ Status.WriteFault }

    // Where the files are accepted and no fault was counted, all is written, or memory is wanted.
    ensures complete { (files : Files) → F.files shelf.old ≡ Some files → AreAccepted (file_in files) (command_of (map string_bytes words.now))
        → ¬ Rose (F.faults shelf.old) (F.faults shelf.new) → ¬ Rose (O.faults out.old) (O.faults out.new)
        → (result ≡ Status.Done) ⊎ (result ≡ Status.Memory) }

    // What stands on `err`: nothing, or the line for the status, or a prefix of it after a fault.
    ensures quiet { result ≡ Status.Done → err.new ≡ err.old }
    ensures told { result ≢ Status.Done →
        Appends (E.written err.old) (E.written err.new) (fault_line (map string_bytes words.now) result)
        ⊎ (Rose (E.faults err.old) (E.faults err.new) × AppendsPrefix (E.written err.old) (E.written err.new) (fault_line (map string_bytes words.now) result)) }
{
    match carry_out(alloc, words, shelf, out) {
        Ok(()) => Status::Done,
        Err(status) => {
            let _ = put_fault_line(err, &status);
            status
        }
    }
}

/// Carries out the command that the words say.
fn carry_out<F: Shelf, O: Sink>(
    alloc: Global,
    words: &[String],
    shelf: &mut F,
    out: &mut O,
) -> Result<(), Status>
    ensures untouched { IfErr result (λ status. IfRefused status (out.new ≡ out.old)) }
    ensures refused { (files : Files) → F.files shelf.old ≡ Some files → IfErr result (λ status. IfUnaccepted status (IsOutput (file_in files) (command_of (map string_bytes words.now)) [] status)) }
    ensures reached { (files : Files) → F.files shelf.old ≡ Some files → IfErr result (λ status. IfReadFault status (ComesTo (file_in files) (command_of (map string_bytes words.now)))) }
    ensures accepted { (files : Files) → F.files shelf.old ≡ Some files → IfTaken result (AreAccepted (file_in files) (command_of (map string_bytes words.now))) }
    ensures written { (files : Files) (before : List ℕ) → F.files shelf.old ≡ Some files → O.written out.old ≡ Some before
        → Puts files (command_of (map string_bytes words.now)) before (O.written out.new) result }
    ensures room { (files : Files) (sections : List (List ℕ)) → F.files shelf.old ≡ Some files → IsOutput (file_in files) (command_of (map string_bytes words.now)) sections Status.Done
        → length (joined sections) ≤ O.room out.old → IfErr result (λ status. status ≢ Status.WriteFault) }
    ensures failed { IfErr result (IsRunFailure (map string_bytes words.now) (F.sure shelf.old) (F.faults shelf.old) (F.faults shelf.new) (F.last_failed shelf.new) (O.faults out.old) (O.faults out.new)) }
    ensures usage { command_of (map string_bytes words.now) ≡ None → result ≡ Err Status.Usage }
    ensures files_kept { F.files shelf.new ≡ F.files shelf.old }
{
    match command_of(words) {
        None => Err(Status::Usage),
        Some(command) => readings(alloc, command.grammar, command.sentences, shelf, out),
    }
}

/// The number with which the program ends after this status.
pub fn exit_status(status: &Status) -> u8
    ensures { result ≡ exit_status status.now }
{
    match status {
        Status::Done => 0,
        Status::Usage => 2,
        Status::ReadFault { .. } => 3,
        Status::FileTooLong { .. } => 4,
        Status::BadGrammar { .. } => 5,
        Status::WriteFault => 11,
        Status::Memory => 12,
    }
}
