use std::alloc::{AllocError, AllocFailed};
use thiserror::Error;

/// Why a text is no grammar file.
#[derive(Clone, Copy, Debug, PartialEq, Eq, Drop, Error)]
pub enum DraftFault {
    /// The bytes are UTF-8 up to byte `at`, counted from 0, and not from there on.
    #[error("not UTF-8 at byte {at}")]
    NotUtf8 { at: u32 },
    /// Neither a token nor a comment nor white space begins at byte `at`, counted from 0.
    #[error("no token begins at byte {at}")]
    NoToken { at: u32 },
    /// The section with this number, counted from 1, has no divider, no heading, or the kind of one
    /// before it; or there is no section CONFIG, and this is the number behind the last.
    #[error("section {number} is none")]
    Section { number: u32 },
    /// The entry with this number, counted from 1 over the whole file, is none of the notation, or
    /// is not ended.
    #[error("entry {number} is none")]
    Entry { number: u32 },
    /// There was not enough memory.
    #[error("out of memory")]
    Memory,
}

impl From<AllocError> for DraftFault {
    ghost use Rattle.std.specs.Prelude.{◌≡◌};
    ghost use Rattle.lfg_notation.specs.declared.fault.DraftFault.TheVariants.{Memory};

    ghost from_gives = { λ _ fault. fault ≡ Memory };

    fn from(_: AllocError) -> DraftFault {
        DraftFault::Memory
    }
}

impl<T: Drop> From<AllocFailed<T>> for DraftFault {
    ghost use Rattle.std.specs.Prelude.{◌≡◌};
    ghost use Rattle.lfg_notation.specs.declared.fault.DraftFault.TheVariants.{Memory};

    ghost from_gives = { λ _ fault. fault ≡ Memory };

    fn from(_: AllocFailed<T>) -> DraftFault {
        DraftFault::Memory
    }
}

/// Why nothing was read.
#[derive(Clone, Copy, Debug, PartialEq, Eq, Drop)]
pub(crate) enum Refusal {
    /// What stands there is of no such form.
    Form,
    /// There was not enough memory.
    Memory,
}

impl From<AllocError> for Refusal {
    ghost use Rattle.std.specs.Prelude.{◌≡◌};
    ghost use Rattle.lfg_notation.specs.declared.fault.Refusal.TheVariants.{Memory};

    ghost from_gives = { λ _ refusal. refusal ≡ Memory };

    fn from(_: AllocError) -> Refusal {
        Refusal::Memory
    }
}

impl<T: Drop> From<AllocFailed<T>> for Refusal {
    ghost use Rattle.std.specs.Prelude.{◌≡◌};
    ghost use Rattle.lfg_notation.specs.declared.fault.Refusal.TheVariants.{Memory};

    ghost from_gives = { λ _ refusal. refusal ≡ Memory };

    fn from(_: AllocFailed<T>) -> Refusal {
        Refusal::Memory
    }
}
