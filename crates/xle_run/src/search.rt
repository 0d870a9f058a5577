ghost use Rattle.std.specs.Prelude.{◌≡◌, ℕ, Some, ◌<◌, ◌+◌, [], IfOk, IfSome, IfNone, OnOk, length, drop, position, slice_get};
ghost use Rattle.std.specs.Bool.{OnTrue, OnFalse};
ghost use Rattle.lfg_model.specs.Terms.{Tree, no_part, daughter, same_name, tree_of};
ghost use Rattle.lfg_model.specs.Derive.{Whole, rule_of};
ghost use Rattle.lfg_model.specs.Thin.{IsThinGrammar};
ghost use Rattle.lfg_model.specs.ThinTrees.{HaveOwnForms};
ghost use Rattle.xle_run.specs.Search.{AreRest, Finds, IsEntry, IsEntryAt, Know, KnowDaughters, Lacks, LacksWord, joined, list_parts};

use lfg_terms::{Derivation, Grammar, Lex, Name, Part, Rule, TokenForms};
use std::alloc::{AllocError, Global};

/// A derivation, and the place behind its last token.
type Found = (Derivation, usize);

/// The derivation of the whole sentence, of which a thin grammar has one at most. The empty
/// sentence has none.
///
/// # Errors
///
/// Only for want of memory, and for an entry or an item with a number past 32 bits, which is taken
/// for more than the memory holds.
pub(crate) fn find_derivation(
    alloc: Global,
    grammar: &Grammar,
    tokens: &[TokenForms],
) -> Result<Option<Derivation>, AllocError>
    requires thin { IsThinGrammar grammar.now }
    requires own_forms { HaveOwnForms tokens.now }
    ensures found { IfOk result (λ o. IfSome o (λ d. Whole grammar.now tokens.now (tree_of d))) }
    ensures none { IfOk result (λ o. IfNone o ((d : Tree) → ¬ Whole grammar.now tokens.now d)) }
{
    if tokens.is_empty() {
        return Ok(None);
    }
    let rules = grammar.rules.list();
    let Some((derivation, end)) = derive(alloc, grammar, rules, tokens, &grammar.root, 0)? else {
        return Ok(None);
    };
    if end == tokens.len() {
        Ok(Some(derivation))
    } else {
        Ok(None)
    }
}

/// Whether the entry has a form of the token, and the category.
fn is_entry(entry: &Lex, token: &TokenForms, cat: &Name) -> bool
    ensures yes { OnTrue result (IsEntry token.now cat.now entry.now) }
    ensures no { OnFalse result (¬ IsEntry token.now cat.now entry.now) }
{
    token.forms.list().contains(&entry.form) && entry.cat == *cat
}

/// The first place in the lexicon of an entry that has a form of the token, and the category.
fn entry_place(lexicon: &[Lex], token: &TokenForms, cat: &Name) -> Option<usize>
    ensures found { IfSome result (IsEntryAt lexicon.now token.now cat.now) }
    ensures none { IfNone result ((place : ℕ) → ¬ IsEntryAt lexicon.now token.now cat.now place) }
{
    for (place, entry) in lexicon.iter().enumerate() {
        if is_entry(entry, token, cat) {
            return Some(place);
        }
    }
    None
}

/// The place of the first rule of the category.
fn rule_place(rules: &[Rule], cat: &Name) -> Option<usize>
    ensures { result ≡ position (λ r. same_name r.cat cat.now) rules.now }
{
    rules.iter().position(|rule| rule.cat == *cat)
}

/// The rules behind a place.
fn rules_after(rules: &[Rule], place: usize) -> &[Rule]
    requires { place < length rules.now }
    ensures { result.now ≡ drop (place + 1) rules.now }
{
    &rules[place + 1..]
}

/// The word of the category at a place, if the token there has an entry of it.
fn word_at(
    alloc: Global,
    grammar: &Grammar,
    tokens: &[TokenForms],
    cat: &Name,
    at: usize,
) -> Result<Option<Found>, AllocError>
    requires thin { IsThinGrammar grammar.now }
    ensures found { IfOk result (λ o. IfSome o (λ f. Finds grammar.now tokens.now cat.now at (tree_of f.0) f.1)) }
    ensures none { IfOk result (λ o. IfNone o (LacksWord grammar.now tokens.now cat.now at)) }
{
    let Some(token) = tokens.get(at) else {
        return Ok(None);
    };
    let Some(place) = entry_place(grammar.lexicon.list(), token, cat) else {
        return Ok(None);
    };
    let Ok(entry) = u32::try_from(place) else {
        return Err(AllocError);
    };
    let word = Derivation::Leaf {
        cat: cat.clone()?,
        entry,
        picks: Vec::new(alloc),
    };
    Ok(Some((word, at + 1)))
}

/// The derivation of the category that begins at a place. The rules are those behind the one that
/// has the category as a daughter.
#[cycle(search)]
fn derive(
    alloc: Global,
    grammar: &Grammar,
    rules: &[Rule],
    tokens: &[TokenForms],
    cat: &Name,
    at: usize,
) -> Result<Option<Found>, AllocError>
    requires thin { IsThinGrammar grammar.now }
    requires own_forms { HaveOwnForms tokens.now }
    requires rest { AreRest grammar.now rules.now }
    requires known { Know grammar.now rules.now cat.now }
    ensures found { IfOk result (λ o. IfSome o (λ f. Finds grammar.now tokens.now cat.now at (tree_of f.0) f.1)) }
    ensures none { IfOk result (λ o. IfNone o (Lacks grammar.now tokens.now cat.now at)) }
{
    if let Some(word) = word_at(alloc, grammar, tokens, cat, at)? {
        return Ok(Some(word));
    }
    let Some(place) = rule_place(rules, cat) else {
        return Ok(None);
    };
    let behind = rules_after(rules, place);
    cover(alloc, grammar, behind, tokens, &rules[place], at)
}

/// The derivation of a rule's category by its items, in their order, from a place on.
#[cycle(search)]
fn cover(
    alloc: Global,
    grammar: &Grammar,
    rules: &[Rule],
    tokens: &[TokenForms],
    rule: &Rule,
    at: usize,
) -> Result<Option<Found>, AllocError>
    requires thin { IsThinGrammar grammar.now }
    requires own_forms { HaveOwnForms tokens.now }
    requires rest { AreRest grammar.now rules.now }
    requires known { KnowDaughters grammar.now rules.now rule.now }
    requires is { rule_of grammar.now rule.now.cat ≡ Some rule.now }
    ensures found { IfOk result (λ o. IfSome o (λ f. Finds grammar.now tokens.now rule.now.cat at (tree_of f.0) f.1)) }
    ensures none { IfOk result (λ o. IfNone o (Lacks grammar.now tokens.now rule.now.cat at)) }
{
    let mut parts = Vec::new(alloc);
    let mut end = at;
    for item in rule.items.list() {
        let Some(daughter) = &item.cat else {
            return Ok(None);
        };
        let Some((below, behind)) = derive(alloc, grammar, rules, tokens, daughter, end)? else {
            return Ok(None);
        };
        push_part(alloc, &mut parts, below)?;
        end = behind;
    }
    let cat = rule.cat.clone()?;
    Ok(Some((Derivation::Inner { cat, parts }, end)))
}

/// Appends a daughter as the next part, by the number of the next item.
fn push_part(alloc: Global, parts: &mut Vec<Part>, below: Derivation) -> Result<(), AllocError>
    ensures counted { OnOk result (length parts.new.items ≡ length parts.old.items + 1) }
    ensures pushed { OnOk result (list_parts parts.new.items ≡ joined (list_parts parts.old.items) (daughter (length parts.old.items + 1) [] (tree_of below) no_part)) }
{
    let Ok(before) = u32::try_from(parts.len()) else {
        return Err(AllocError);
    };
    let Some(occ) = before.checked_add(1) else {
        return Err(AllocError);
    };
    parts.push(Part {
        occ,
        picks: Vec::new(alloc),
        below: Some(Box::new(alloc, below)?),
    })?;
    Ok(())
}
