//! What the program writes: how a run ends, and the definition of the output of its commands.
#![tactic(auto)]

pub mod laws;
mod status;

pub use status::{StageName, Status};
