use std::alloc::AllocError;
use thiserror::Error;

/// Why the literals of a sentence were not made.
#[derive(Clone, Copy, Debug, PartialEq, Eq, Drop, Error)]
pub enum InstantFault {
    /// There are more literals, choices or facts of trees than were asked for at most: `count` is one
    /// more than that.
    #[error("{count} literals, choices or facts of trees, or more")]
    TooLarge { count: u32 },
    /// There was not enough memory.
    #[error("out of memory")]
    Memory,
}

impl From<AllocError> for InstantFault {
    ghost use Rattle.std.specs.Prelude.{◌≡◌};
    ghost use Rattle.lfg_instant.specs.declared.fault.InstantFault.TheVariants.{Memory};

    ghost from_gives = { λ _ fault. fault ≡ Memory };

    fn from(_: AllocError) -> InstantFault {
        InstantFault::Memory
    }
}
