ghost use Rattle.std.specs.Prelude.{IfOk, IfErr, OnOk};
ghost use Rattle.lfg_model.specs.Charts.{IsChart};
ghost use Rattle.lfg_model.specs.Loaded.{Loaded};
ghost use Rattle.lfg_instant.specs.Instants.{IsWithin, IsInstantFault};
ghost use Rattle.lfg_instant.specs.Junctions.{AreJunctions};
ghost use Rattle.lfg_instant.specs.Outlines.{IsOutline};

use crate::counts::{instance_total, literal_total};
use crate::entries::entry_lists;
use crate::facts::tree_facts_of;
use crate::fault::InstantFault;
use crate::junctions::{Junction, junctions_of};
use crate::sites::site_keys;
use crate::steps::{Step, Word, steps_of, words_of};
use lfg_chart::Chart;
use lfg_packed::ChoiceKey;
use lfg_terms::{Fact, Grammar, List, TokenForms};
use std::alloc::{AllocError, Global};

/// What is written down of a sentence before its literals are made.
#[derive(Drop)]
pub(crate) struct Layout {
    /// The entries of each edge, in the order of the chart's edges.
    pub(crate) lists: Vec<List<u32>>,
    pub(crate) steps: Vec<Step>,
    pub(crate) words: Vec<Word>,
    /// The keys of all items and entries, in order.
    pub(crate) keys: Vec<ChoiceKey>,
    /// The facts of the trees of all derivations, in order.
    pub(crate) facts: Vec<Fact>,
    /// The choices, in order.
    pub(crate) junctions: Vec<Junction>,
}

/// What is to be written down of a sentence with this chart.
///
/// # Errors
///
/// For want of memory; and where a number is past 32 bits.
pub(crate) fn layout_of(
    alloc: Global,
    grammar: &Grammar,
    tokens: &[TokenForms],
    chart: &Chart,
) -> Result<Layout, AllocError>
    requires loaded { Loaded grammar.now }
    requires chart { IsChart grammar.now tokens.now chart.now.edges chart.now.forks }
    ensures outline { IfOk result (λ it. IsOutline grammar.now tokens.now chart.now it.lists.items it.steps.items it.words.items it.keys.items it.facts.items) }
    ensures junctions { IfOk result (λ it. AreJunctions grammar.now tokens.now it.junctions.items) }
{
    let edges = chart.edges();
    let lists = entry_lists(alloc, grammar, tokens, edges)?;
    let steps = steps_of(alloc, chart)?;
    let words = words_of(alloc, edges, &lists)?;
    let keys = site_keys(alloc, grammar, tokens, chart, &lists, &steps, &words)?;
    let facts = tree_facts_of(alloc, grammar, tokens, chart, &lists, &steps, &words)?;
    let junctions = junctions_of(alloc, grammar, tokens, chart, &lists, &keys)?;
    Ok(Layout {
        lists,
        steps,
        words,
        keys,
        facts,
        junctions,
    })
}

/// Refuses a sentence with more literals, choices or facts of trees than `max`.
///
/// # Errors
///
/// `TooLarge`, where there are more; `Memory` in its place, where one more than `max` is past 32 bits.
pub(crate) fn check_size(
    grammar: &Grammar,
    tokens: &[TokenForms],
    chart: &Chart,
    layout: &Layout,
    max: u32,
) -> Result<(), InstantFault>
    requires outline { IsOutline grammar.now tokens.now chart.now layout.now.lists.items layout.now.steps.items layout.now.words.items layout.now.keys.items layout.now.facts.items }
    requires junctions { AreJunctions grammar.now tokens.now layout.now.junctions.items }
    ensures within { OnOk result (IsWithin grammar.now tokens.now max) }
    ensures fault { IfErr result (IsInstantFault grammar.now tokens.now max) }
{
    let _ = tokens;
    let _ = chart;
    let literals = literal_total(grammar, &layout.keys);
    let total = instance_total(literals, layout.junctions.len(), layout.facts.len());
    if total <= max as u64 {
        return Ok(());
    }
    match max.checked_add(1) {
        Some(count) => Err(InstantFault::TooLarge { count }),
        None => Err(InstantFault::Memory),
    }
}
