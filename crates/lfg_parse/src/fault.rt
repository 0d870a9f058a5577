use lfg_instant::InstantFault;
use std::alloc::AllocError;
use thiserror::Error;

/// Why a sentence has no packed parse.
#[derive(Clone, Copy, Debug, PartialEq, Eq, Drop, Error)]
pub enum ParseFault {
    /// There are more literals, choices, facts of trees or facts of f-structures than the grammar's
    /// limit on facts: `count` is one more than that.
    #[error("{count} literals, choices or facts, or more")]
    TooLarge { count: u32 },
    /// There was not enough memory.
    #[error("out of memory")]
    Memory,
}

impl From<AllocError> for ParseFault {
    ghost use Rattle.std.specs.Prelude.{◌≡◌};
    ghost use Rattle.lfg_parse.specs.declared.fault.ParseFault.TheVariants.{Memory};

    ghost from_gives = { λ _ fault. fault ≡ Memory };

    fn from(_: AllocError) -> ParseFault {
        ParseFault::Memory
    }
}

impl From<InstantFault> for ParseFault {
    ghost use Rattle.std.specs.Prelude.{◌≡◌};
    ghost use Rattle.lfg_parse.specs.Faults.{as_parse_fault};

    ghost from_gives = { λ fault it. it ≡ as_parse_fault fault };

    fn from(fault: InstantFault) -> ParseFault {
        match fault {
            InstantFault::TooLarge { count } => ParseFault::TooLarge { count },
            InstantFault::Memory => ParseFault::Memory,
        }
    }
}
