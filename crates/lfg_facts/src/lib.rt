//! The facts of the f-structures of a closure, at all assignments at once.
#![tactic(auto)]

mod arcs;
mod facts;
mod forms;
mod merge;
mod names;
mod pairs;

pub use facts::facts_of;
