//! The one public call that the program makes: `run`.
#![tactic(auto)]

mod command;
mod loads;
mod pair_text;
mod readings;
mod report;
mod run_command;
mod search;
mod section;
mod sections;
#[cfg(test)]
mod tests;
mod thin;

pub use run_command::{exit_status, run};
