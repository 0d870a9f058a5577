//! Calls that cross crates: from a grammar file and a line to the chart of its words.
#![tactic(auto)]

mod charted;
#[cfg(test)]
mod charts;
mod fault;
#[cfg(test)]
mod files;
#[cfg(test)]
mod instances;
#[cfg(test)]
mod words;

pub use charted::{Charted, chart_of};
pub use fault::ChartFault;
