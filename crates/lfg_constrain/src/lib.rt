//! The constraints of literals that hold in contexts, asked of the closure of these literals.
#![tactic(auto)]

mod checks;
mod spots;
mod walks;

pub use checks::failing;
