//! Loads grammar files: reads one, expands its templates, and makes the grammar of it, or names the
//! first check that fails.
#![tactic(auto)]

mod annotations;
mod bad_paths;
mod both;
mod categories;
mod checks;
mod cycles;
mod faults;
mod items;
mod links;
mod load;
mod parts;
mod reach;
mod rules;
mod settings;
mod unary;
mod words;

pub use lfg_model::GrammarFault;
pub use load::load_grammar;

#[cfg(test)]
mod tests;
