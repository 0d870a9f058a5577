//! The right sides of rules as graphs: which items may begin, follow each other and end.
//!
//! The items of a right side are numbered from 1 in written order. Its graph walks exactly the rows
//! of items that it spells (positions of a regular expression, after Glushkov 1961). That no part
//! which is repeated, and no whole right side, may be without a category is this project's own
//! condition.
#![tactic(auto)]

mod empty;
mod fault;
mod follow;
mod graphs;
mod part;
mod spell;
#[cfg(test)]
mod tests;

pub use fault::GraphFault;
pub use follow::{ends, follows};
pub use graphs::graph;
