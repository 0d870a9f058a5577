//! What the commands are to do: the definitions of derivations, readings and output, with the
//! plain types that they name.
#![tactic(auto)]

pub mod chart_laws;
mod constant;
pub mod laws;
mod lexeme;
mod notation;
mod pair;
mod point;
mod status;
mod token;

pub use constant::Constant;
pub use lexeme::Lexeme;
pub use notation::{Repetition, SectionKind, Separator, notation_by_cases, one_draft};
pub use pair::Pair;
pub use point::{Next, Point};
pub use status::{GrammarFault, Status};
pub use token::{Token, TokenKind, longest_tokens, one_reading};
