ghost use Rattle.std.specs.Prelude.{◌≡◌, [], ◌∷◌, None, Some, IfOk, OnOk, MatchOption, slice_get};
ghost use Rattle.lfg_instant.specs.Collects.{Collects};
ghost use Rattle.lfg_instant.specs.Facts.{as_list, IsUnderOf, IsWordFactOf};
ghost use Rattle.lfg_instant.specs.Sites.{AreEntryLists};
ghost use Rattle.lfg_instant.specs.Steps.{AreSteps, AreWordsOf};
ghost use Rattle.lfg_model.specs.Charts.{IsChart};
ghost use Rattle.lfg_model.specs.Derive.{rule_of, item_at};
ghost use Rattle.lfg_model.specs.Lists.{In, Lists};
ghost use Rattle.lfg_model.specs.Loaded.{Loaded};
ghost use Rattle.lfg_model.specs.Trees.{items_of, edge_arg, under, word, word_facts};
ghost use Rattle.lfg_packed.specs.Counts.{IsTreeFact};
ghost use Rattle.lfg_packed.specs.SpotFacts.{category_at, under_facts};
ghost use Rattle.lfg_terms.specs.Order.{fact_cmp};
ghost use Rattle.lfg_terms.specs.declared.node.Fact.{Fact};

use crate::steps::{Step, Word};
use lfg_chart::Chart;
use lfg_terms::{Arg, Edge, Fact, Grammar, Item, List, Name, Node, Path, TokenForms};
use std::alloc::{AllocError, Global};

/// The items of the category's rule, or none.
pub(crate) fn items_of<'a>(grammar: &'a Grammar, cat: &Name) -> &'a [Item]
    ensures { result.now ≡ items_of (rule_of grammar.now cat.now) }
{
    for rule in grammar.rules.list() {
        if rule.cat == *cat {
            return rule.items.list();
        }
    }
    &[]
}

/// The item with this number, counted from 1, if it is there.
pub(crate) fn item_at(items: &[Item], occ: u32) -> Option<&Item>
    ensures { MatchOption result (item_at items.now occ ≡ None) (λ item. item_at items.now occ ≡ Some item.now) }
{
    if occ == 0 {
        return None;
    }
    items.get(occ as usize - 1)
}

/// The edge as an argument of a fact: its own node.
fn edge_arg(alloc: Global, edge: &Edge) -> Result<Arg, AllocError>
    ensures { IfOk result (λ it. it ≡ edge_arg edge.now) }
{
    Ok(Arg::Node(Node::At {
        edge: edge.clone()?,
        path: Path::new(alloc, Vec::new(alloc))?,
    }))
}

/// The fact that the relation holds between two arguments.
fn fact(alloc: Global, relation: &str, first: Arg, second: Arg) -> Result<Fact, AllocError>
    ensures rel { IfOk result (λ it. it.rel ≡ relation.now) }
    ensures args { IfOk result (λ it. it.args ≡ first ∷ second ∷ []) }
{
    Ok(Fact {
        rel: Name::new(alloc, relation)?,
        args: List::new(alloc, vec![in alloc; first, second]?)?,
    })
}

/// The fact that the daughter's edge lies directly under the mother's.
fn under(alloc: Global, daughter: &Edge, mother: &Edge) -> Result<Fact, AllocError>
    ensures { IfOk result (λ it. it ≡ under daughter.now mother.now) }
{
    let first = edge_arg(alloc, daughter)?;
    fact(alloc, "under", first, edge_arg(alloc, mother)?)
}

/// The fact that the edge is that of a token with this text.
fn word(alloc: Global, own: &Edge, text: &Name) -> Result<Fact, AllocError>
    ensures { IfOk result (λ it. it ≡ word own.now text.now) }
{
    let first = edge_arg(alloc, own)?;
    fact(alloc, "word", first, Arg::Atom(text.clone()?))
}

/// The fact of the daughter over which the step goes; none for `e`.
pub(crate) fn under_fact(
    alloc: Global,
    grammar: &Grammar,
    step: &Step,
) -> Result<Option<Fact>, AllocError>
    ensures { IfOk result (λ found. as_list found ≡ under_facts step.now.point.edge step.now.point.at step.now.to (category_at grammar.now step.now.point.edge step.now.occ)) }
{
    let items = items_of(grammar, &step.point.edge.cat);
    let Some(item) = item_at(items, step.occ) else {
        return Ok(None);
    };
    let Some(cat) = &item.cat else {
        return Ok(None);
    };
    let daughter = Edge {
        cat: cat.clone()?,
        from: step.point.at,
        to: step.to,
    };
    let found = under(alloc, &daughter, &step.point.edge)?;
    Ok(Some(found))
}

/// The fact of the edge's token, if it is there.
pub(crate) fn word_fact(
    alloc: Global,
    tokens: &[TokenForms],
    edge: &Edge,
) -> Result<Option<Fact>, AllocError>
    ensures { IfOk result (λ found. as_list found ≡ word_facts (slice_get tokens.now edge.now.from) edge.now) }
{
    let Some(token) = tokens.get(edge.from as usize) else {
        return Ok(None);
    };
    let found = word(alloc, edge, &token.text)?;
    Ok(Some(found))
}

/// Adds a fact, if there is one.
fn add(found: Option<Fact>, facts: &mut Vec<Fact>) -> Result<(), AllocError>
    ensures { OnOk result (Collects facts.old.items facts.new.items (λ f. In f (as_list found))) }
{
    if let Some(fact) = found {
        facts.push(fact)?;
    }
    Ok(())
}

/// Adds the facts of daughters.
fn add_under_facts(
    alloc: Global,
    grammar: &Grammar,
    steps: &[Step],
    facts: &mut Vec<Fact>,
) -> Result<(), AllocError>
    ensures { OnOk result (Collects facts.old.items facts.new.items (IsUnderOf grammar.now steps.now)) }
{
    for step in steps {
        let found = under_fact(alloc, grammar, step)?;
        add(found, facts)?;
    }
    Ok(())
}

/// Adds the facts of words.
fn add_word_facts(
    alloc: Global,
    tokens: &[TokenForms],
    words: &[Word],
    facts: &mut Vec<Fact>,
) -> Result<(), AllocError>
    ensures { OnOk result (Collects facts.old.items facts.new.items (IsWordFactOf tokens.now words.now)) }
{
    for word in words {
        let found = word_fact(alloc, tokens, &word.edge)?;
        add(found, facts)?;
    }
    Ok(())
}

/// Facts in order, each once.
fn sorted_facts(mut facts: Vec<Fact>) -> Result<Vec<Fact>, AllocError>
    ensures { IfOk result (λ set. Lists fact_cmp (λ f. In f facts.items) set.items) }
{
    facts.sort()?;
    facts.dedup();
    Ok(facts)
}

/// The facts of the trees of whole derivations, in order, each once.
pub(crate) fn tree_facts_of(
    alloc: Global,
    grammar: &Grammar,
    tokens: &[TokenForms],
    chart: &Chart,
    lists: &[List<u32>],
    steps: &[Step],
    words: &[Word],
) -> Result<Vec<Fact>, AllocError>
    requires chart { IsChart grammar.now tokens.now chart.now.edges chart.now.forks }
    requires lists { AreEntryLists grammar.now tokens.now chart.now.edges lists.now }
    requires steps { AreSteps chart.now.forks steps.now }
    requires words { AreWordsOf chart.now.edges lists.now words.now }
    requires loaded { Loaded grammar.now }
    ensures { IfOk result (λ facts. Lists fact_cmp (IsTreeFact grammar.now tokens.now) facts.items) }
{
    let _ = chart;
    let _ = lists;
    let mut facts = Vec::new(alloc);
    add_under_facts(alloc, grammar, steps, &mut facts)?;
    add_word_facts(alloc, tokens, words, &mut facts)?;
    let sorted = sorted_facts(facts)?;
    Ok(sorted)
}
