ghost use Rattle.std.specs.Prelude.{◌≡◌, ◌+◌, ◌-◌, ◌^◌, ◌<◌, [], ◌∷◌, ◌++◌, IfOk, OnOk, min, slice_get};
ghost use Rattle.lfg_terms.specs.Order.{fact_cmp};
ghost use Rattle.lfg_model.specs.Lists.{In, Lists};
ghost use Rattle.lfg_model.specs.Terms.{annotation_of, tree_of};
ghost use Rattle.lfg_model.specs.Derive.{edge, rule_of, item_at};
ghost use Rattle.lfg_model.specs.Trees.{width, parts_width, cat_of, edge_of, items_of, item_annotation, entry_annotation, literals, parts_literals, edge_arg, under, word, word_facts, tree_facts, parts_facts};
ghost use Rattle.lfg_solve.specs.Annotations.{item_literals, word_literals};
ghost use Rattle.lfg_solve.specs.Fits.{ItemsFit, FormsFit, Fits};
ghost use Rattle.lfg_solve.specs.Views.{parts_from};

use crate::resolve::Instance;
use lfg_terms::{
    Arg, Derivation, Edge, Fact, Grammar, Item, List, Literal, Name, Node, Part, Path, Paths,
    Schema, Site, TokenForms,
};
use std::alloc::{AllocError, Global};

/// The mother of some parts: its edge, and the items of its rule.
#[derive(Clone, Copy)]
struct Mother<'a> {
    edge: &'a Edge,
    items: &'a [Item],
}

/// How many tokens the derivation covers; the count stops at the greatest one.
#[cycle(widths)]
pub fn width(derivation: &Derivation) -> u32
    ensures { result ≡ min (width (tree_of derivation.now)) (2 ^ 32 - 1) }
{
    match derivation {
        Derivation::Leaf { .. } => 1,
        Derivation::Inner { parts, .. } => parts_width(parts),
    }
}

/// How many tokens the parts cover; the count stops at the greatest one.
#[cycle(widths)]
fn parts_width(parts: &[Part]) -> u32
    ensures { result ≡ min (parts_width (parts_from parts.now)) (2 ^ 32 - 1) }
{
    let mut sum = 0u32;
    for part in parts {
        sum = sum.saturating_add(part_width(part));
    }
    sum
}

/// How many tokens the part covers; the count stops at the greatest one.
#[cycle(widths)]
fn part_width(part: &Part) -> u32
    ensures { result ≡ min (parts_width (parts_from (part.now ∷ []))) (2 ^ 32 - 1) }
{
    match &part.below {
        None => 0,
        Some(below) => width(below),
    }
}

/// The category at the top of the derivation.
fn category(derivation: &Derivation) -> &Name
    ensures { result.now ≡ cat_of (tree_of derivation.now) }
{
    match derivation {
        Derivation::Leaf { cat, .. } => cat,
        Derivation::Inner { cat, .. } => cat,
    }
}

/// The edge with this category over the tokens from one place to another.
fn edge(cat: &Name, from: u32, to: u32) -> Result<Edge, AllocError>
    ensures { IfOk result (λ it. it ≡ edge cat.now from to) }
{
    Ok(Edge {
        cat: cat.clone()?,
        from,
        to,
    })
}

/// The edge of the derivation that begins at this place.
fn edge_of(derivation: &Derivation, from: u32) -> Result<Edge, AllocError>
    ensures { IfOk result (λ it. from + width (tree_of derivation.now) < 2 ^ 32 →
        it ≡ edge_of (tree_of derivation.now) from) }
{
    edge(
        category(derivation),
        from,
        from.saturating_add(width(derivation)),
    )
}

/// The items of the category's rule, or none.
fn items_of<'a>(grammar: &'a Grammar, cat: &Name) -> &'a [Item]
    ensures { result.now ≡ items_of (rule_of grammar.now cat.now) }
{
    for rule in grammar.rules.list() {
        if rule.cat == *cat {
            return rule.items.list();
        }
    }
    &[]
}

/// The schemata of the item with this number, counted from 1, or none.
fn item_schemata(items: &[Item], occ: u32) -> &[Schema<Paths>]
    ensures { annotation_of result.now ≡ item_annotation (item_at items.now occ) }
{
    if occ == 0 {
        return &[];
    }
    match items.get(occ as usize - 1) {
        Some(item) => item.schemata.list(),
        None => &[],
    }
}

/// The schemata of the lexicon entry at this place, counted from 0, or none.
fn entry_schemata(grammar: &Grammar, entry: u32) -> &[Schema<Paths>]
    ensures { annotation_of result.now
        ≡ entry_annotation (slice_get grammar.now.lexicon entry) }
{
    match grammar.lexicon.list().get(entry as usize) {
        Some(lex) => lex.schemata.list(),
        None => &[],
    }
}

/// The literals of the derivation, from the first token on: those of each part's annotation and
/// of each word's. At a daughter `^` is the mother's edge and `!` the daughter's own (Kaplan and
/// Bresnan 1982); at an empty item both are the mother's, at a word both are its own.
///
/// # Errors
///
/// Only for want of memory.
pub fn literals(
    alloc: Global,
    grammar: &Grammar,
    derivation: &Derivation,
) -> Result<Vec<Literal>, AllocError>
    ensures { IfOk result (λ it. Fits grammar.now (tree_of derivation.now) →
        it.items ≡ literals grammar.now (tree_of derivation.now) 0) }
{
    let mut literals = Vec::new(alloc);
    push_literals(alloc, &mut literals, grammar, derivation, 0)?;
    Ok(literals)
}

/// Appends the literals of the derivation that begins at this place.
#[cycle(literals)]
fn push_literals(
    alloc: Global,
    list: &mut Vec<Literal>,
    grammar: &Grammar,
    derivation: &Derivation,
    from: u32,
) -> Result<(), AllocError>
    ensures { OnOk result (FormsFit grammar.now →
        from + width (tree_of derivation.now) < 2 ^ 32 →
        list.new.items ≡ list.old.items
        ++ literals grammar.now (tree_of derivation.now) from) }
{
    match derivation {
        Derivation::Leaf { cat, entry, picks } => {
            let own = edge(cat, from, from.saturating_add(1))?;
            push_word_literals(alloc, list, grammar, &own, *entry, picks)
        }
        Derivation::Inner { cat, parts } => {
            let edge = edge(cat, from, from.saturating_add(parts_width(parts)))?;
            let mother = Mother {
                edge: &edge,
                items: items_of(grammar, cat),
            };
            push_parts_literals(alloc, list, grammar, &mother, parts)
        }
    }
}

/// Appends the literals of a word with this edge.
fn push_word_literals(
    alloc: Global,
    list: &mut Vec<Literal>,
    grammar: &Grammar,
    own: &Edge,
    entry: u32,
    picks: &[u32],
) -> Result<(), AllocError>
    ensures { OnOk result (FormsFit grammar.now →
        list.new.items ≡ list.old.items
        ++ word_literals grammar.now own.now entry picks.now) }
{
    let site = Site::Entry {
        edge: own.clone()?,
        entry,
    };
    let instance = Instance {
        up: own,
        down: own,
        site: &site,
    };
    instance.push_resolved(alloc, list, entry_schemata(grammar, entry), picks, 0)
}

/// Appends the literals of the parts of the mother, and of what is below them.
#[cycle(literals)]
fn push_parts_literals(
    alloc: Global,
    list: &mut Vec<Literal>,
    grammar: &Grammar,
    mother: &Mother<'_>,
    parts: &[Part],
) -> Result<(), AllocError>
    ensures { OnOk result (FormsFit grammar.now → ItemsFit mother.now.items.now →
        mother.now.edge.now.from + parts_width (parts_from parts.now) < 2 ^ 32 →
        list.new.items ≡ list.old.items
        ++ parts_literals grammar.now mother.now.items.now mother.now.edge.now
        (parts_from parts.now) mother.now.edge.now.from) }
{
    let mut at = mother.edge.from;
    for part in parts {
        at = push_part_literals(alloc, list, grammar, mother, part, at)?;
    }
    Ok(())
}

/// Appends the literals of the part of the mother that begins at this place, and of what is below
/// it, and gives the place behind it.
#[cycle(literals)]
fn push_part_literals(
    alloc: Global,
    list: &mut Vec<Literal>,
    grammar: &Grammar,
    mother: &Mother<'_>,
    part: &Part,
    at: u32,
) -> Result<u32, AllocError>
    ensures { IfOk result (λ next. FormsFit grammar.now → ItemsFit mother.now.items.now →
        at + parts_width (parts_from (part.now ∷ [])) < 2 ^ 32 →
        (next ≡ at + parts_width (parts_from (part.now ∷ [])))
        × (list.new.items ≡ list.old.items
        ++ parts_literals grammar.now mother.now.items.now mother.now.edge.now
        (parts_from (part.now ∷ [])) at)) }
{
    match &part.below {
        None => {
            mother.push_item_literals(alloc, list, part, mother.edge, at, at)?;
            Ok(at)
        }
        Some(below) => {
            let own = edge_of(below, at)?;
            mother.push_item_literals(alloc, list, part, &own, at, own.to)?;
            push_literals(alloc, list, grammar, below, at)?;
            Ok(own.to)
        }
    }
}

impl Mother<'_> {
    /// Appends the literals of the annotation of the part's item, over the tokens from `at` to
    /// `to`. `down` is the edge of `!`.
    fn push_item_literals(
        &self,
        alloc: Global,
        list: &mut Vec<Literal>,
        part: &Part,
        down: &Edge,
        at: u32,
        to: u32,
    ) -> Result<(), AllocError>
        ensures { OnOk result (ItemsFit self.now.items.now →
            list.new.items ≡ list.old.items
            ++ item_literals self.now.items.now self.now.edge.now down.now
            part.now.occ part.now.picks.items at to) }
    {
        let site = Site::Item {
            edge: self.edge.clone()?,
            occ: part.occ,
            at,
            to,
        };
        let instance = Instance {
            up: self.edge,
            down,
            site: &site,
        };
        let schemata = item_schemata(self.items, part.occ);
        instance.push_resolved(alloc, list, schemata, &part.picks, 0)
    }
}

/// The facts of the tree, in order, each once: `under(daughter,mother)` for each edge but the
/// root, and `word(edge,token)` for each word.
///
/// # Errors
///
/// Only for want of memory.
pub fn tree_facts(
    alloc: Global,
    tokens: &[TokenForms],
    derivation: &Derivation,
) -> Result<Vec<Fact>, AllocError>
    ensures { IfOk result (λ it. width (tree_of derivation.now) < 2 ^ 32 →
        Lists fact_cmp (λ f. In f (tree_facts tokens.now (tree_of derivation.now) 0)) it.items) }
{
    let mut facts = Vec::new(alloc);
    push_tree_facts(alloc, &mut facts, tokens, derivation, 0)?;
    facts.sort()?;
    facts.dedup();
    Ok(facts)
}

/// Appends the facts of the tree that begins at this place.
#[cycle(facts)]
fn push_tree_facts(
    alloc: Global,
    facts: &mut Vec<Fact>,
    tokens: &[TokenForms],
    derivation: &Derivation,
    from: u32,
) -> Result<(), AllocError>
    ensures { OnOk result (from + width (tree_of derivation.now) < 2 ^ 32 →
        facts.new.items ≡ facts.old.items
        ++ tree_facts tokens.now (tree_of derivation.now) from) }
{
    match derivation {
        Derivation::Leaf { cat, .. } => {
            let own = edge(cat, from, from.saturating_add(1))?;
            push_word_fact(alloc, facts, tokens, &own)
        }
        Derivation::Inner { cat, parts } => {
            let mother = edge(cat, from, from.saturating_add(parts_width(parts)))?;
            push_parts_facts(alloc, facts, tokens, &mother, parts)
        }
    }
}

/// Appends the fact of a word with this edge, if its token is there.
fn push_word_fact(
    alloc: Global,
    facts: &mut Vec<Fact>,
    tokens: &[TokenForms],
    own: &Edge,
) -> Result<(), AllocError>
    ensures { OnOk result (facts.new.items
        ≡ facts.old.items ++ word_facts (slice_get tokens.now own.now.from) own.now) }
{
    match tokens.get(own.from as usize) {
        Some(token) => {
            facts.push(word(alloc, own, &token.text)?)?;
            Ok(())
        }
        None => Ok(()),
    }
}

/// Appends the facts of the parts of the mother, and of what is below them.
#[cycle(facts)]
fn push_parts_facts(
    alloc: Global,
    facts: &mut Vec<Fact>,
    tokens: &[TokenForms],
    mother: &Edge,
    parts: &[Part],
) -> Result<(), AllocError>
    ensures { OnOk result (mother.now.from + parts_width (parts_from parts.now) < 2 ^ 32 →
        facts.new.items ≡ facts.old.items
        ++ parts_facts tokens.now mother.now (parts_from parts.now) mother.now.from) }
{
    let mut at = mother.from;
    for part in parts {
        at = push_part_facts(alloc, facts, tokens, mother, part, at)?;
    }
    Ok(())
}

/// Appends the facts of the part of the mother that begins at this place, and of what is below
/// it, and gives the place behind it.
#[cycle(facts)]
fn push_part_facts(
    alloc: Global,
    facts: &mut Vec<Fact>,
    tokens: &[TokenForms],
    mother: &Edge,
    part: &Part,
    at: u32,
) -> Result<u32, AllocError>
    ensures { IfOk result (λ next. at + parts_width (parts_from (part.now ∷ [])) < 2 ^ 32 →
        (next ≡ at + parts_width (parts_from (part.now ∷ [])))
        × (facts.new.items ≡ facts.old.items
        ++ parts_facts tokens.now mother.now (parts_from (part.now ∷ [])) at)) }
{
    match &part.below {
        None => Ok(at),
        Some(below) => {
            let own = edge_of(below, at)?;
            facts.push(under(alloc, &own, mother)?)?;
            push_tree_facts(alloc, facts, tokens, below, at)?;
            Ok(own.to)
        }
    }
}

/// The fact that the daughter's edge lies directly under the mother's.
fn under(alloc: Global, daughter: &Edge, mother: &Edge) -> Result<Fact, AllocError>
    ensures { IfOk result (λ it. it ≡ under daughter.now mother.now) }
{
    let first = edge_arg(alloc, daughter)?;
    fact(alloc, "under", first, edge_arg(alloc, mother)?)
}

/// The fact that the edge is that of a token with this text.
fn word(alloc: Global, own: &Edge, text: &Name) -> Result<Fact, AllocError>
    ensures { IfOk result (λ it. it ≡ word own.now text.now) }
{
    let first = edge_arg(alloc, own)?;
    fact(alloc, "word", first, Arg::Atom(text.clone()?))
}

/// The edge as an argument of a fact: its own node.
fn edge_arg(alloc: Global, edge: &Edge) -> Result<Arg, AllocError>
    ensures { IfOk result (λ it. it ≡ edge_arg edge.now) }
{
    Ok(Arg::Node(Node::At {
        edge: edge.clone()?,
        path: Path::new(alloc, Vec::new(alloc))?,
    }))
}

/// The fact that the relation holds between two arguments.
fn fact(alloc: Global, relation: &str, first: Arg, second: Arg) -> Result<Fact, AllocError>
    ensures rel { IfOk result (λ it. it.rel ≡ relation.now) }
    ensures args { IfOk result (λ it. it.args ≡ first ∷ second ∷ []) }
{
    Ok(Fact {
        rel: Name::new(alloc, relation)?,
        args: List::new(alloc, vec![in alloc; first, second]?)?,
    })
}
