ghost use Rattle.std.specs.Prelude.{◌≡◌, IfOk, OnOk, List};
ghost use Rattle.lfg_model.specs.Charts.{IsChart};
ghost use Rattle.lfg_model.specs.Lists.{In, Lists};
ghost use Rattle.lfg_model.specs.Loaded.{Loaded};
ghost use Rattle.lfg_packed.specs.ChoicePoints.{key_cmp};
ghost use Rattle.lfg_packed.specs.Words.{word_place};
ghost use Rattle.lfg_instant.specs.Collects.{Collects};
ghost use Rattle.lfg_instant.specs.Sites.{AreEntryLists, AreSiteKeys, IsKeyOf, IsWordKeyOf, entry_of, item_of, site_key};
ghost use Rattle.lfg_instant.specs.Steps.{AreSteps, AreWordsOf};
ghost use Rattle.lfg_terms.specs.declared.grammar.Grammar.{Grammar};
ghost use Rattle.lfg_terms.specs.declared.tree.TokenForms.{TokenForms};

use crate::steps::{Step, Word};
use crate::words::place_of;
use lfg_chart::Chart;
use lfg_packed::ChoiceKey;
use lfg_terms::{Edge, Grammar, List, Name, TokenForms};
use std::alloc::{AllocError, Global};

/// The place of an entry's form among the forms of the edge's first token, counted from 0.
fn word_place(
    tokens: &[TokenForms],
    grammar: &Grammar,
    edge: &Edge,
    entry: u32,
) -> Result<u32, AllocError>
    ensures { IfOk result (λ place. place ≡ word_place grammar.now tokens.now edge.now entry) }
{
    let Some(token) = tokens.get(edge.from as usize) else {
        return Ok(0);
    };
    let forms = token.forms.list();
    let place = match grammar.lexicon.list().get(entry as usize) {
        Some(lex) => place_of(forms, &lex.form),
        None => place_of(forms, &Name::default()),
    };
    match u32::try_from(place) {
        Ok(place) => Ok(place),
        Err(_) => Err(AllocError),
    }
}

/// The key of a step's item.
pub(crate) fn item_key(step: &Step) -> Result<ChoiceKey, AllocError>
    ensures { IfOk result (λ key. (g : Grammar) (s : List TokenForms) → key ≡ site_key g s (item_of step.now)) }
{
    Ok(ChoiceKey {
        edge: step.point.edge.clone()?,
        rank: 2,
        from: step.point.at,
        to: step.to,
        item: step.occ,
        place: 0,
    })
}

/// The key of a word's entry.
///
/// # Errors
///
/// For want of memory, and where the place of the entry's form needs more than 32 bits.
pub(crate) fn entry_key(
    grammar: &Grammar,
    tokens: &[TokenForms],
    word: &Word,
) -> Result<ChoiceKey, AllocError>
    ensures { IfOk result (λ key. key ≡ site_key grammar.now tokens.now (entry_of word.now)) }
{
    Ok(ChoiceKey {
        edge: word.edge.clone()?,
        rank: 3,
        from: word_place(tokens, grammar, &word.edge, word.entry)?,
        to: 0,
        item: word.entry,
        place: 0,
    })
}

/// Adds the keys of the items of steps.
fn add_item_keys(steps: &[Step], keys: &mut Vec<ChoiceKey>) -> Result<(), AllocError>
    ensures { OnOk result ((g : Grammar) (s : List TokenForms) → Collects keys.old.items keys.new.items (IsKeyOf g s steps.now)) }
{
    for step in steps {
        keys.push(item_key(step)?)?;
    }
    Ok(())
}

/// Adds the keys of the entries of words.
fn add_entry_keys(
    grammar: &Grammar,
    tokens: &[TokenForms],
    words: &[Word],
    keys: &mut Vec<ChoiceKey>,
) -> Result<(), AllocError>
    ensures { OnOk result (Collects keys.old.items keys.new.items (IsWordKeyOf grammar.now tokens.now words.now)) }
{
    for word in words {
        keys.push(entry_key(grammar, tokens, word)?)?;
    }
    Ok(())
}

/// Keys in order, each once.
fn sorted_keys(mut keys: Vec<ChoiceKey>) -> Result<Vec<ChoiceKey>, AllocError>
    ensures { IfOk result (λ set. Lists key_cmp (λ key. In key keys.items) set.items) }
{
    keys.sort()?;
    keys.dedup();
    Ok(keys)
}

/// The keys of all items and entries of whole derivations, in order, each once.
///
/// # Errors
///
/// For want of memory, and where the place of an entry's form needs more than 32 bits.
pub(crate) fn site_keys(
    alloc: Global,
    grammar: &Grammar,
    tokens: &[TokenForms],
    chart: &Chart,
    lists: &[List<u32>],
    steps: &[Step],
    words: &[Word],
) -> Result<Vec<ChoiceKey>, AllocError>
    requires loaded { Loaded grammar.now }
    requires chart { IsChart grammar.now tokens.now chart.now.edges chart.now.forks }
    requires entries { AreEntryLists grammar.now tokens.now chart.now.edges lists.now }
    requires steps { AreSteps chart.now.forks steps.now }
    requires words { AreWordsOf chart.now.edges lists.now words.now }
    ensures { IfOk result (λ keys. AreSiteKeys grammar.now tokens.now keys.items) }
{
    let mut keys = Vec::new(alloc);
    add_item_keys(steps, &mut keys)?;
    add_entry_keys(grammar, tokens, words, &mut keys)?;
    let keys = sorted_keys(keys)?;
    Ok(keys)
}
