//! All readings of a sentence together, as definitions: the choices at which its derivations part,
//! the derivation that an assignment of alternatives picks, and how large a sentence is.
#![tactic(auto)]

mod key;
pub mod laws;

pub use key::ChoiceKey;
