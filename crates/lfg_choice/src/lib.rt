//! The choices of a packed value: a list that grows at its end.
#![tactic(auto)]

mod space;
#[cfg(test)]
mod tests;

pub use lfg_terms::{Choice, ChoiceKind};
pub use space::ChoiceSpace;
