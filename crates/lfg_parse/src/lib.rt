//! The packed parse of a sentence.
#![tactic(auto)]

mod charted;
mod fault;
mod good;
mod judging;
pub mod laws;
mod parsing;
mod stores;

pub use fault::ParseFault;
pub use parsing::parse;
