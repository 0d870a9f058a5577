//! Reads a text of the notation as a row of tokens, each with its place.
//!
//! White space and comments, which go from a double quote to the next, separate tokens. A name is
//! made of pieces joined by single hyphens, and a piece of name characters: ASCII letters and
//! digits, `_`, characters past ASCII that are no white space, and any character but a line feed
//! behind a backquote. Each token is the longest that begins at its place. The notation is this
//! project's own, after that of XLE.
#![tactic(auto)]

mod characters;
mod fault;
mod lexer;
mod names;
mod pieces;
mod symbols;

pub use fault::LexFault;
pub use lexer::tokens_of;
pub use lfg_model::{Token, TokenKind};
