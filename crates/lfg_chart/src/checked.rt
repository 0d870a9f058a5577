//! Tests of a grammar, for the fixtures: what the chart needs of a grammar, where no annotation says
//! anything.

ghost use Rattle.std.specs.Prelude.{◌≡◌, IsTrue};
ghost use Rattle.std.specs.List.Sorted.{IsStrictlySortedBy};
ghost use Rattle.lfg_chart.specs.Checked.{IsPlainItem, IsPlainRule};
ghost use Rattle.lfg_chart.specs.Numbers.{IsNumbered};
ghost use Rattle.lfg_model.specs.Graphs.{AreItems, IsGraph};
ghost use Rattle.lfg_model.specs.Kept.{IsFillable};
ghost use Rattle.lfg_model.specs.Lists.{In};
ghost use Rattle.lfg_terms.specs.Order.{name_cmp};

use lfg_terms::{Grammar, Graph, Item, Name, Rule};

/// Whether the names ascend.
fn ascend(names: &[Name]) -> bool
    ensures { IsTrue result → IsStrictlySortedBy name_cmp names.now }
{
    for i in 1..names.len() {
        if !names[i - 1].cmp(&names[i]).is_lt() {
            return false;
        }
    }
    true
}

/// Whether the name is among these.
fn is_known(names: &[Name], name: &Name) -> bool
    ensures { IsTrue result → In name.now names.now }
{
    for known in names {
        if known == name {
            return true;
        }
    }
    false
}

/// Whether these are numbers of items.
fn are_items(items: &[u32], size: u32) -> bool
    ensures { IsTrue result → AreItems size items.now }
{
    for i in 0..items.len() {
        if items[i] == 0 || items[i] > size || (i > 0 && items[i - 1] >= items[i]) {
            return false;
        }
    }
    true
}

/// Whether this is a graph.
fn is_graph(graph: &Graph) -> bool
    ensures { IsTrue result → IsGraph graph.now }
{
    let next = graph.next.list();
    if next.len() != graph.size as usize
        || graph.last.list().len() != graph.size as usize
        || !are_items(graph.first.list(), graph.size)
    {
        return false;
    }
    for items in next {
        if !are_items(items.list(), graph.size) {
            return false;
        }
    }
    true
}

/// Whether the item's category is known, and its annotation says nothing.
fn is_plain(cats: &[Name], item: &Item) -> bool
    ensures { IsTrue result → IsPlainItem cats.now item.now }
{
    let known = match &item.cat {
        Some(cat) => is_known(cats, cat),
        None => true,
    };
    known && item.schemata.list().is_empty()
}

/// Whether the rule has a graph of its items, which are plain.
fn is_plain_rule(cats: &[Name], rule: &Rule) -> bool
    requires { IsStrictlySortedBy name_cmp cats.now }
    ensures { IsTrue result → IsPlainRule cats.now rule.now }
{
    let items = rule.items.list();
    if !is_graph(&rule.graph)
        || rule.graph.size as usize != items.len()
        || !is_known(cats, &rule.cat)
    {
        return false;
    }
    for item in items {
        if !is_plain(cats, item) {
            return false;
        }
    }
    true
}

/// Whether a chart can be made by the grammar.
pub(crate) fn is_checked(grammar: &Grammar) -> bool
    ensures numbered { IsTrue result → IsNumbered grammar.now }
    ensures fillable { IsTrue result → IsFillable grammar.now }
{
    let cats = grammar.cats.list();
    if !ascend(cats) || !is_known(cats, &grammar.root) {
        return false;
    }
    for rule in grammar.rules.list() {
        if !is_plain_rule(cats, rule) {
            return false;
        }
    }
    for lex in grammar.lexicon.list() {
        if !is_known(cats, &lex.cat) || !lex.schemata.list().is_empty() {
            return false;
        }
    }
    true
}
