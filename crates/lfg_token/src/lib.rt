//! The tokens of a sentence: the words of a line, each with the forms that it offers to the lexicon.
//!
//! A line is cut at its word bounds, as UAX #29 has them, and what is white space alone is dropped.
//! A token offers its text as its form. The first one offers a second form where it begins with an
//! ASCII capital: the same text with that letter in lower case.
#![tactic(auto)]

mod fault;
mod forms;
mod pieces;
mod tokens;

pub use fault::TokenFault;
pub use tokens::sentence;
