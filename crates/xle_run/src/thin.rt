mod consistent;
mod cutting;
mod draft;
mod file;
mod grammar;
mod lexemes;
mod lexicon;
mod rules;
mod sections;
mod sentences;

pub(crate) use file::thin_grammar;
pub(crate) use sentences::{thin_text, words_of};
