use std::alloc::AllocError;
use thiserror::Error;

/// Why a line was not taken as a sentence.
#[derive(Clone, Copy, Debug, PartialEq, Eq, Drop, Error)]
pub enum TokenFault {
    /// There are more than 64 tokens: this many.
    #[error("{tokens} tokens, more than 64")]
    TooLong { tokens: u32 },
    /// There was not enough memory.
    #[error("out of memory")]
    Memory,
}

impl From<AllocError> for TokenFault {
    ghost use Rattle.std.specs.Prelude.{◌≡◌};
    ghost use Rattle.lfg_token.specs.declared.fault.TokenFault.TheVariants.{Memory};

    ghost from_gives = { λ _ fault. fault ≡ Memory };

    fn from(_: AllocError) -> TokenFault {
        TokenFault::Memory
    }
}
