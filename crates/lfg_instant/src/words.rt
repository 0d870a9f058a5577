ghost use Rattle.std.specs.Prelude.{◌≡◌, ◌↔◌, ◌≤◌, IfOk, OnOk, length, map, refl};
ghost use Rattle.std.specs.Cmp.{partial_order_from_total, partial_equiv_from_equiv};
ghost use Rattle.std.specs.Ordering.{as_partial_cmp, eq_by_cmp};
ghost use Rattle.std.proofs.lemmas.Cmp.{eq_by_cmp_equiv};
ghost use Rattle.lfg_model.specs.Lists.{In, Lists};
ghost use Rattle.lfg_packed.specs.Words.{form_place};
ghost use Rattle.lfg_instant.specs.Collects.{Collects};
ghost use Rattle.lfg_instant.specs.Words.{key_cmp, key_cmp_total, IsKeyBy, IsKeyAt, AreEntriesOf};
ghost use Rattle.lfg_instant.specs.declared.words.EntryKey.{EntryKey};

use lfg_terms::{Edge, Grammar, Lex, Name, TokenForms};
use std::alloc::{AllocError, Global};
use std::cmp::Ordering;

/// A lexicon entry with the place of its form among those of a token; both are counted from 0. Keys
/// are ordered by the place, then by the entry.
#[derive(Clone, Copy, Debug)]
struct EntryKey {
    place: usize,
    entry: u32,
}

impl PartialEq for EntryKey {
    ghost eq = { eq_by_cmp key_cmp };

    ghost laws = { partial_equiv_from_equiv (eq_by_cmp_equiv key_cmp_total) };

    fn eq(&self, other: &EntryKey) -> bool {
        self.cmp(other).is_eq()
    }
}

impl Eq for EntryKey {
    ghost laws = { eq_by_cmp_equiv key_cmp_total };
}

impl PartialOrd for EntryKey {
    ghost partial_cmp = { as_partial_cmp key_cmp };

    ghost laws = { partial_order_from_total key_cmp_total };

    fn partial_cmp(&self, other: &EntryKey) -> Option<Ordering> {
        Some(self.cmp(other))
    }
}

impl Ord for EntryKey {
    ghost cmp = { key_cmp };

    ghost total = { key_cmp_total };

    ghost matches_partial_cmp = { λ x y. refl };

    ghost matches_eq = { λ x y. refl };

    fn cmp(&self, other: &EntryKey) -> Ordering {
        self.place
            .cmp(&other.place)
            .then(self.entry.cmp(&other.entry))
    }
}

/// The first place of a form among some forms; their number if it is not there.
pub(crate) fn place_of(forms: &[Name], form: &Name) -> usize
    ensures { result ≡ form_place forms.now form.now }
{
    for (place, other) in forms.iter().enumerate() {
        if other == form {
            return place;
        }
    }
    forms.len()
}

/// Collects an entry that has the category and a form of the token.
fn add_key(
    lex: &Lex,
    entry: u32,
    token: &TokenForms,
    cat: &Name,
    keys: &mut Vec<EntryKey>,
) -> Result<(), AllocError>
    ensures { OnOk result (Collects keys.old.items keys.new.items (IsKeyBy lex.now entry token.now cat.now)) }
{
    if lex.cat == *cat {
        let forms = token.forms.list();
        let place = place_of(forms, &lex.form);
        if place < forms.len() {
            keys.push(EntryKey { place, entry })?;
        }
    }
    Ok(())
}

/// The entries that have the category and a form of the token, in the order of the lexicon.
fn keys_of(
    alloc: Global,
    lexicon: &[Lex],
    token: &TokenForms,
    cat: &Name,
) -> Result<Vec<EntryKey>, AllocError>
    requires few { length lexicon.now ≤ 4294967296 }
    ensures { IfOk result (λ keys. (key : EntryKey) → In key keys.items ↔ IsKeyAt lexicon.now token.now cat.now key) }
{
    let mut keys = Vec::new(alloc);
    for (entry, lex) in lexicon.iter().enumerate() {
        add_key(lex, entry as u32, token, cat, &mut keys)?;
    }
    Ok(keys)
}

/// Keys in order, each once.
fn sorted_keys(mut keys: Vec<EntryKey>) -> Result<Vec<EntryKey>, AllocError>
    ensures { IfOk result (λ set. Lists key_cmp (λ key. In key keys.items) set.items) }
{
    keys.sort()?;
    keys.dedup();
    Ok(keys)
}

/// The entries of some keys.
fn entries(alloc: Global, keys: &[EntryKey]) -> Result<Vec<u32>, AllocError>
    ensures { IfOk result (λ found. found.items ≡ map (λ key. key.entry) keys.now) }
{
    let mut found = Vec::new(alloc);
    for key in keys {
        found.push(key.entry)?;
    }
    Ok(found)
}

/// The lexicon entries of an edge, counted from 0: those of its category whose form its token has.
/// They come in the order of their forms among the token's, and those of one form in the order of
/// the lexicon.
///
/// An edge over no token or over more than one has none.
///
/// # Errors
///
/// Only for want of memory.
pub(crate) fn entries_of(
    alloc: Global,
    grammar: &Grammar,
    tokens: &[TokenForms],
    edge: &Edge,
) -> Result<Vec<u32>, AllocError>
    requires few { length grammar.now.lexicon ≤ 4294967296 }
    ensures { IfOk result (λ found. AreEntriesOf grammar.now tokens.now edge.now found.items) }
{
    let at = edge.from as usize;
    if at >= tokens.len() {
        return Ok(Vec::new(alloc));
    }
    if edge.to as usize != at + 1 {
        return Ok(Vec::new(alloc));
    }
    let keys = keys_of(alloc, grammar.lexicon.list(), &tokens[at], &edge.cat)?;
    let keys = sorted_keys(keys)?;
    let found = entries(alloc, &keys)?;
    Ok(found)
}
