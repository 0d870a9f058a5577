//! The chart of a sentence: the edges, points and ways to go on of its whole derivations, without a
//! list of them.
//!
//! Words and edges are found from the bottom by the graphs of the rules (Kaplan and Bresnan 1982,
//! with rules whose right sides are graphs of items); then only what stands in a whole derivation is
//! kept.
#![tactic(auto)]

mod building;
#[cfg(test)]
mod checked;
mod fill;
mod kept;
mod layout;
mod links;
mod nexts;
mod places;
mod points;
mod rules;
mod table;
#[cfg(test)]
mod tests;
mod words;

pub use building::chart;
pub use layout::Chart;
pub use lfg_model::{Next, Point};
