//! Facts in contexts: finite maps from facts to the sets of assignments at which they stand, and
//! packed values.
#![tactic(auto)]

mod edit;
mod entries;
mod packed;
mod store;

pub use packed::Packed;
pub use store::FactStore;
