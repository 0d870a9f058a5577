use std::alloc::{AllocError, AllocFailed};
use thiserror::Error;

/// Why a path expression has no list of strings.
#[derive(Clone, Copy, Debug, PartialEq, Eq, Drop, Error)]
pub enum PathFault {
    /// There are more than 256 strings.
    #[error("more than 256 paths")]
    TooManyPaths,
    /// There is no string.
    #[error("no path")]
    NoPath,
    /// There was not enough memory.
    #[error("out of memory")]
    Memory,
}

impl From<AllocError> for PathFault {
    ghost use Rattle.std.specs.Prelude.{◌≡◌};
    ghost use Rattle.lfg_regpath.specs.declared.fault.PathFault.TheVariants.{Memory};

    ghost from_gives = { λ _ fault. fault ≡ Memory };

    fn from(_: AllocError) -> PathFault {
        PathFault::Memory
    }
}

impl<T: Drop> From<AllocFailed<T>> for PathFault {
    ghost use Rattle.std.specs.Prelude.{◌≡◌};
    ghost use Rattle.lfg_regpath.specs.declared.fault.PathFault.TheVariants.{Memory};

    ghost from_gives = { λ _ fault. fault ≡ Memory };

    fn from(_: AllocFailed<T>) -> PathFault {
        PathFault::Memory
    }
}
