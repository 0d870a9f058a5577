//! Contexts: sets of assignments of alternatives to choices.
//!
//! A set is a node of a reduced ordered diagram (Bryant 1986), whose nodes are kept once in
//! `Contexts`. A choice may have any number of alternatives.
#![tactic(auto)]

mod contexts;
mod ctx;
mod diagram;
mod laws;
mod members;
mod nodes;
mod op;
mod operations;
mod picks;
#[cfg(test)]
mod tests;

pub use contexts::Contexts;
pub use ctx::Ctx;
pub use laws::membership_is_by_alternatives;
