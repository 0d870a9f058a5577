ghost use Rattle.std.specs.Prelude.{◌≡◌, ◌≢◌, ℕ, ◌≤◌, List, Option, OnOk, OnErr, Err};
ghost use Rattle.std.specs.List.{Contains};
ghost use Rattle.lfg_io.specs.Counts.{Rose};
ghost use Rattle.lfg_io.specs.Shelf.{Files, HasFile, IsLoaded};

use std::alloc::Global;
use thiserror::Error;

/// Why a file was not loaded.
#[derive(Clone, Copy, Debug, Drop, PartialEq, Eq, Error)]
pub enum ShelfFault {
    /// The shelf counted a fault: the file is not there, or could not be read.
    #[error("cannot read")]
    Failed,
    /// Memory was refused. The shelf counts no fault for it.
    #[error("out of memory")]
    Memory,
}

/// What has files by name.
pub trait Shelf {
    /// The files by their names, where they are told.
    ghost files: { Self → Option Files };
    /// The names that it never refuses.
    ghost sure: { Self → List (List ℕ) };
    /// How many calls have failed. The count never falls, and stands still at 2^64 - 1.
    ghost faults: { Self → ℕ };
    /// The name of the last load that failed, and the empty name before the first.
    ghost last_failed: { Self → List ℕ };

    /// Appends the first `limit` bytes of the file, or all of a shorter one.
    ///
    /// # Errors
    ///
    /// - `Failed`, only where the count of faults rose in this call, as it does for a name that is not there.
    /// - `Memory`, for want of memory.
    fn load(
        &mut self,
        alloc: Global,
        name: &str,
        limit: usize,
        into: &mut Vec<u8>,
    ) -> Result<(), ShelfFault>
        ensures there { OnOk result (HasFile (files self.old) name.now) }
        ensures loaded { OnOk result (IsLoaded (files self.old) name.now limit into.old.items into.new.items) }
        ensures refused { OnErr result (into.new.items ≡ into.old.items) }
        ensures sure { Contains (sure self.old) name.now → result ≢ Err ShelfFault.Failed }

        ensures later { faults self.old ≤ faults self.new }
        ensures rose { result ≡ Err ShelfFault.Failed → Rose (faults self.old) (faults self.new) }
        ensures faults_kept { result ≢ Err ShelfFault.Failed → faults self.new ≡ faults self.old }

        ensures named { result ≡ Err ShelfFault.Failed → last_failed self.new ≡ name.now }
        ensures last_failed_kept { result ≢ Err ShelfFault.Failed → last_failed self.new ≡ last_failed self.old }

        ensures files_kept { files self.new ≡ files self.old }
        ensures sure_kept { sure self.new ≡ sure self.old };
}
