ghost use Rattle.std.specs.Prelude.{◌≡◌, ℕ, IfOk, IfErr, List, map};
ghost use Rattle.lfg_terms.specs.declared.draft.DraftRule.{DraftRule};
ghost use Rattle.lfg_model.specs.DraftForms.{RuleForm, rule_form};
ghost use Rattle.lfg_model.specs.Lists.{In};
ghost use Rattle.lfg_model.specs.Loads.{LoadsRule, items_of};
ghost use Rattle.lfg_model.specs.RightSides.{right_side_of};
ghost use Rattle.lfg_model.specs.Templates.{Each};
ghost use Rattle.lfg_grammar.specs.Answers.{AreWithoutCalls, IsRange};
ghost use Rattle.lfg_grammar.specs.Halves.{HalfAs, HalvesAs, IsFaultOfSide, IsHalf, IsSideFault, side_fault};

use crate::items::load_items;
use lfg_model::GrammarFault;
use lfg_regpath::PathFault;
use lfg_rulegraph::{GraphFault, graph};
use lfg_terms::{DraftRule, Graph, Item, List, Name, Rule};
use std::alloc::Global;

/// A rule with its items, and with its graph or why it has none.
#[derive(Drop)]
pub(crate) struct Half {
    pub(crate) cat: Name,
    pub(crate) items: Vec<Item>,
    pub(crate) graph: Result<Graph, GraphFault>,
}

/// The rule with its items.
fn load_half(alloc: Global, rule: &DraftRule, depth: u8) -> Result<Half, PathFault>
    requires range { IsRange depth }
    requires no_calls { AreWithoutCalls (items_of (right_side_of rule.now.rhs)) }
    ensures { HalfAs depth (rule_form rule.now) result }
{
    let items = load_items(alloc, &rule.rhs, depth)?;
    Ok(Half {
        cat: rule.cat.clone()?,
        items,
        graph: graph(alloc, &rule.rhs),
    })
}

/// The rules with their items, in written order.
pub(crate) fn load_halves(
    alloc: Global,
    rules: &[DraftRule],
    depth: u8,
) -> Result<Vec<Half>, PathFault>
    requires range { IsRange depth }
    requires no_calls { (r : DraftRule) → In r rules.now → AreWithoutCalls (items_of (right_side_of r.rhs)) }
    ensures { HalvesAs depth (map rule_form rules.now) result }
{
    let mut halves = Vec::new(alloc);
    for rule in rules {
        halves.push(load_half(alloc, rule, depth)?)?;
    }
    Ok(halves)
}

/// The fault of a right side that has no graph.
fn graph_fault(fault: GraphFault, category: Name) -> GrammarFault
    ensures { result ≡ side_fault fault category }
{
    match fault {
        GraphFault::EmptyStar => GrammarFault::EmptyStar { category },
        GraphFault::EmptyRule => GrammarFault::EmptyRule { category },
        GraphFault::Memory => GrammarFault::Memory,
    }
}

/// The rule with its graph.
fn with_graph(alloc: Global, half: Half) -> Result<Rule, GrammarFault>
    ensures rule { (depth : ℕ) (r : RuleForm) → IsHalf depth r half → IfOk result (LoadsRule depth r) }
    ensures fault { (depth : ℕ) (r : RuleForm) → IsHalf depth r half → IfErr result (IsFaultOfSide r) }
{
    let Half { cat, items, graph } = half;
    match graph {
        Ok(graph) => Ok(Rule {
            cat,
            items: List::new(alloc, items)?,
            graph,
        }),
        Err(fault) => Err(graph_fault(fault, cat)),
    }
}

/// The rules with their graphs.
///
/// # Errors
///
/// The fault of the first rule that has no graph, or want of memory.
pub(crate) fn with_graphs(alloc: Global, halves: Vec<Half>) -> Result<Vec<Rule>, GrammarFault>
    ensures rules { (depth : ℕ) (rs : List RuleForm) → Each (IsHalf depth) rs halves.items → IfOk result (λ v. Each (LoadsRule depth) rs v.items) }
    ensures fault { (depth : ℕ) (rs : List RuleForm) → Each (IsHalf depth) rs halves.items → IfErr result (IsSideFault rs) }
{
    let mut rules = Vec::new(alloc);
    for half in halves {
        rules.push(with_graph(alloc, half)?)?;
    }
    Ok(rules)
}
