//! The f-structure of one derivation: its equations solved, tested and written as facts, by plain
//! means. One derivation at a time; many derivations at once are the matter of other crates.
#![tactic(auto)]

mod assigned;
mod checks;
mod classes;
mod conditions;
mod cycles;
mod derivation;
mod facts;
mod nodes;
mod resolve;
mod same;
mod solution;

pub use assigned::assigned_pair;
pub use derivation::{literals, tree_facts, width};
pub use solution::Solution;
