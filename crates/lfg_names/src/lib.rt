//! Numbers for the texts of names: the n-th text that came, counted from 0, has the number n.
#![tactic(auto)]

mod table;

pub use table::Names;
