//! Every literal of a sentence in its context, and the choices of the sentence.
#![tactic(auto)]

mod annotation;
mod counts;
mod designators;
mod entries;
mod facts;
mod fault;
mod flow;
mod instances;
mod junctions;
pub mod laws;
mod layout;
mod literals;
mod passages;
mod picks;
mod places;
mod reached;
mod schemata;
mod sets;
mod sites;
mod sizes;
mod steps;
mod taken;
#[cfg(test)]
mod tests;
mod ways;
mod words;

pub use fault::InstantFault;
pub use instances::{Instances, instantiate};
