//! Replaces the calls of templates in a grammar draft: each becomes the template's annotation, with
//! the arguments of the call in place of the parameters.
#![tactic(auto)]

mod bound;
mod calls;
mod checks;
mod count;
mod cycles;
mod drafts;
mod expansion;
mod fault;
mod graph;
mod heads;
mod plain;
mod ranks;
mod search;
mod sides;
mod spots;
mod templates;
#[cfg(test)]
mod tests;
mod totals;

pub use drafts::expand;
pub use fault::TemplateFault;
