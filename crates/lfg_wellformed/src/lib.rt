//! Completeness, coherence and cycles of the f-structures of all derivations at once.
#![tactic(auto)]

mod arcs;
mod coherence;
mod completeness;
mod cycles;

pub use coherence::incoherent;
pub use completeness::incomplete;
pub use cycles::cyclic;
