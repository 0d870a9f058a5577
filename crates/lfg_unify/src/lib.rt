//! The closure of literals that hold in contexts: the f-structures of all derivations at once.
#![tactic(auto)]

mod clash;
mod classes;
mod closing;
mod closure;
mod collect;
mod nodes;
mod rounds;
mod same;
mod settle;
mod system;
mod table;

pub use closing::close;
pub use closure::Closure;
