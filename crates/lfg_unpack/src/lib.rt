//! The readings that a packed value stands for.
#![tactic(auto)]

mod gathering;
mod leaves;
mod pieces;
mod texts;
mod unpacking;
mod written;

pub use lfg_model::Pair;
pub use texts::pair_text;
pub use unpacking::unpack;
