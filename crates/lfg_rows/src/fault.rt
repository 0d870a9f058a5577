use lfg_model::GrammarFault;
use lfg_token::TokenFault;
use std::alloc::AllocError;
use thiserror::Error;

/// Why there is no chart of a line by a grammar file.
#[derive(Debug, Drop, Error)]
pub enum ChartFault {
    /// The file is not loaded.
    #[error("{fault}")]
    Grammar { fault: GrammarFault },
    /// The line is no sentence.
    #[error("{fault}")]
    Sentence { fault: TokenFault },
    /// There was not enough memory for the chart.
    #[error("out of memory")]
    Memory,
}

impl From<AllocError> for ChartFault {
    ghost use Rattle.std.specs.Prelude.{◌≡◌};
    ghost use Rattle.lfg_rows.specs.declared.fault.ChartFault.TheVariants.{Memory};

    ghost from_gives = { λ _ fault. fault ≡ Memory };

    fn from(_: AllocError) -> ChartFault {
        ChartFault::Memory
    }
}
