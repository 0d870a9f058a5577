//! The strings of attributes of a path expression (functional uncertainty), in order.
//!
//! A path expression of attributes and rows alone has its one string, whatever its length. Any
//! other one stands for its strings of at most a given number of attributes. How the strings are
//! bounded is this project's own.
#![tactic(auto)]

mod fault;
mod least;
mod paths;
mod plain_row;
mod repeat;
mod set;
mod strings;
#[cfg(test)]
mod tests;

pub use fault::PathFault;
pub use paths::paths_to;
