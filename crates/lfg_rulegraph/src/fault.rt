use std::alloc::AllocError;
use thiserror::Error;

/// Why a right side has no graph.
#[derive(Clone, Copy, Debug, PartialEq, Eq, Drop, Error)]
pub enum GraphFault {
    /// What is repeated can be without a category.
    #[error("what is repeated can be without a category")]
    EmptyStar,
    /// The whole right side can be without a category.
    #[error("the right side can be without a category")]
    EmptyRule,
    /// There was not enough memory.
    #[error("out of memory")]
    Memory,
}

impl From<AllocError> for GraphFault {
    ghost use Rattle.std.specs.Prelude.{◌≡◌};
    ghost use Rattle.lfg_rulegraph.specs.declared.fault.GraphFault.TheVariants.{Memory};

    ghost from_gives = { λ _ fault. fault ≡ Memory };

    fn from(_: AllocError) -> GraphFault {
        GraphFault::Memory
    }
}
