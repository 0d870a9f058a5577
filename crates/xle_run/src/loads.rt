ghost use Rattle.std.specs.Prelude.{◌≡◌, ◌<◌, ◌≤◌, ℕ, List, Some, OnOk, IfOk, IfErr, length};
ghost use Rattle.std.specs.List.{Contains};
ghost use Rattle.lfg_io.specs.Counts.{Rose};
ghost use Rattle.lfg_io.specs.Shelf.{Files, file_in};
ghost use Rattle.lfg_model.specs.Output.{IfBadGrammar, IfTooLong, IsFaultOf};
ghost use Rattle.lfg_model.specs.Thin.{IsThinGrammar};
ghost use Rattle.xle_run.specs.Causes.{IsRefused};
ghost use Rattle.xle_run.specs.Loads.{GivesGrammar, IsFile, IsLongFile, RefusesGrammar};

use crate::thin::thin_grammar;
use lfg_io::{Shelf, ShelfFault};
use lfg_model::{GrammarFault, Status};
use lfg_terms::{Grammar, Name};
use std::alloc::{AllocError, Global};

/// The most bytes of a file.
const LIMIT: usize = 4_194_304;

/// The bytes of a file, if it may have so many.
fn within_limit(bytes: Vec<u8>, name: Name) -> Result<Vec<u8>, Status>
    ensures same { IfOk result (λ v. v.items ≡ bytes.items) }
    ensures short { OnOk result (length bytes.items ≤ 4194304) }
    ensures status { IfErr result (λ status. status ≡ Status.FileTooLong name) }
    ensures long { IfErr result (λ status. 4194304 < length bytes.items) }
{
    if bytes.len() > LIMIT {
        return Err(Status::FileTooLong { name });
    }
    Ok(bytes)
}

/// The bytes of the file.
///
/// # Errors
///
/// The status of a file that could not be read or is too long, or of want of memory.
pub(crate) fn load_file<F: Shelf>(
    alloc: Global,
    shelf: &mut F,
    name: &str,
) -> Result<Vec<u8>, Status>
    ensures loaded { (files : Files) → F.files shelf.old ≡ Some files → IfOk result (λ v. IsFile files name.now v.items) }
    ensures long { (files : Files) → F.files shelf.old ≡ Some files → IfErr result (λ status. IfTooLong status (λ other. IsLongFile files name.now)) }
    ensures short { IfOk result (λ v. length v.items ≤ 4194304) }
    ensures refused { IfErr result (IsRefused name.now (F.sure shelf.old) (F.faults shelf.old) (F.faults shelf.new) (F.last_failed shelf.new)) }
    ensures not_bad { IfErr result (λ status. IfBadGrammar status (λ name fault. ⊥)) }
    ensures faults_kept { OnOk result (F.faults shelf.new ≡ F.faults shelf.old) }
    ensures files_kept { F.files shelf.new ≡ F.files shelf.old }
    ensures sure_kept { F.sure shelf.new ≡ F.sure shelf.old }
{
    let Ok(refused) = Name::new(alloc, name) else {
        return Err(Status::Memory);
    };
    let mut bytes = Vec::new(alloc);
    match shelf.load(alloc, name, LIMIT + 1, &mut bytes) {
        Ok(()) => within_limit(bytes, refused),
        Err(ShelfFault::Memory) => Err(Status::Memory),
        Err(ShelfFault::Failed) => Err(Status::ReadFault { name: refused }),
    }
}

/// The status of a file with this fault.
pub(crate) fn bad_file(alloc: Global, name: &str, fault: GrammarFault) -> Status
    ensures fault { IfBadGrammar result (λ other why. why ≡ fault) }
    ensures not_long { IfTooLong result (λ other. ⊥) }
    ensures refused { (sure : List (List ℕ)) (before now : ℕ) (last : List ℕ) → IsRefused name.now sure before now last result }
{
    match Name::new(alloc, name) {
        Ok(name) => Status::BadGrammar { name, fault },
        Err(_) => Status::Memory,
    }
}

/// Why a file that is not thin is not accepted: the fault for which it is not loaded, or that it is
/// not thin.
fn grammar_fault(alloc: Global, bytes: &[u8]) -> Result<GrammarFault, AllocError>
    requires { length bytes.now ≤ 4194304 }
    ensures { IfOk result (IsFaultOf bytes.now) }
{
    match lfg_grammar::load_grammar(alloc, bytes) {
        Ok(_) => Ok(GrammarFault::Entry { number: 0 }),
        Err(GrammarFault::Memory) => Err(AllocError),
        Err(fault) => Ok(fault),
    }
}

/// The status of a grammar file that is not thin.
fn not_thin(alloc: Global, name: &str, bytes: &[u8]) -> Status
    requires { length bytes.now ≤ 4194304 }
    ensures fault { IfBadGrammar result (λ other fault. IsFaultOf bytes.now fault) }
    ensures not_long { IfTooLong result (λ other. ⊥) }
    ensures refused { (sure : List (List ℕ)) (before now : ℕ) (last : List ℕ) → IsRefused name.now sure before now last result }
{
    match grammar_fault(alloc, bytes) {
        Ok(fault) => bad_file(alloc, name, fault),
        Err(_) => Status::Memory,
    }
}

/// The grammar of the file.
///
/// # Errors
///
/// The status of a file that could not be read, is too long or is not accepted, or of want of
/// memory.
pub(crate) fn load_grammar<F: Shelf>(
    alloc: Global,
    shelf: &mut F,
    name: &str,
) -> Result<Grammar, Status>
    ensures loaded { (files : Files) → F.files shelf.old ≡ Some files → IfOk result (GivesGrammar files name.now) }
    ensures thin { IfOk result IsThinGrammar }
    ensures refuses { (files : Files) → F.files shelf.old ≡ Some files → IfErr result (RefusesGrammar files name.now) }
    ensures refused { IfErr result (IsRefused name.now (F.sure shelf.old) (F.faults shelf.old) (F.faults shelf.new) (F.last_failed shelf.new)) }
    ensures faults_kept { OnOk result (F.faults shelf.new ≡ F.faults shelf.old) }
    ensures files_kept { F.files shelf.new ≡ F.files shelf.old }
    ensures sure_kept { F.sure shelf.new ≡ F.sure shelf.old }
{
    let bytes = match load_file(alloc, shelf, name) {
        Ok(bytes) => bytes,
        Err(status) => return Err(status),
    };
    match thin_grammar(alloc, &bytes) {
        Ok(Some(grammar)) => Ok(grammar),
        Ok(None) => Err(not_thin(alloc, name, &bytes)),
        Err(_) => Err(Status::Memory),
    }
}
