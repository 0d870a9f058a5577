//! The terms of LFG: names, edges, nodes, facts, literals, grammars, with their orders and texts.
#![tactic(auto)]

mod choice;
mod copies;
mod depth;
mod draft;
mod fact_texts;
mod grammar;
mod list;
mod literal;
mod name;
mod node;
mod order;
mod path;
mod path_expr;
mod shared;
mod steps;
#[cfg(test)]
mod tests;
mod texts;
mod tree;

pub use choice::{Choice, ChoiceKind};
pub use draft::{Draft, DraftRule, LexEntry, Plain, Rhs, Setting, Template};
pub use fact_texts::{fact_text, is_listed, push_arg, push_args, push_fact};
pub use grammar::{Arrow, Des, Form, Grammar, Graph, Item, Lex, Paths, Rule, Schema, Val};
pub use list::List;
pub use literal::{Check, Literal, Site, Target, Walk};
pub use name::Name;
pub use node::{Arg, Binding, Edge, Fact, Node};
pub use path::Path;
pub use path_expr::PathExpr;
pub use shared::Shared;
pub use steps::Steps;
pub use texts::{edge_text, name_text, push_edge, push_name, push_number};
pub use tree::{Derivation, Part, TokenForms};
