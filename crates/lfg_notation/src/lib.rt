//! Reads grammar files: settings, rules, templates and words of a grammar, as they are written.
#![tactic(auto)]

mod cutting;
mod designators;
mod draft;
mod entries;
mod fault;
mod forms;
mod lexemes;
mod paths;
mod reading;
mod right_sides;
mod rules;
mod schemata;
mod sections;
mod settings;
mod templates;
#[cfg(test)]
mod tests;
mod values;
mod words;

pub use draft::read_grammar_text;
pub use fault::DraftFault;
