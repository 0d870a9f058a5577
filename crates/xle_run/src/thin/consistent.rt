ghost use Rattle.std.specs.Prelude.{◌≡◌, ◌↔◌, ◌&&◌, List, ℕ, IfOk, IfNone, IfSome, IsTrue, is_some, map, not};
ghost use Rattle.std.specs.List.{list_all};
ghost use Rattle.std.specs.BTreeMap.{get};
ghost use Rattle.lfg_terms.specs.Order.{name_cmp};
ghost use Rattle.lfg_model.specs.Lists.{Once};
ghost use Rattle.lfg_model.specs.Thin.{IsConsistent, empty_item};
ghost use Rattle.lfg_model.specs.ThinText.{same};
ghost use Rattle.xle_run.specs.Drafts.{draft_view};
ghost use Rattle.xle_run.specs.Heads.{HaveOwnRules, place_of, is_later, are_later};

use crate::thin::draft::{Daughter, Draft, Entry, Phrase};
use lfg_terms::Name;
use std::alloc::{AllocError, Global};
use std::collections::{BTreeMap, BTreeSet};

/// Whether the name is that of the empty item.
fn is_empty_item(cat: &Name) -> bool
    ensures { result ≡ same cat.now empty_item }
{
    cat.text() == "e"
}

/// The place of each category's rule, or `None` where a category heads two, or `e` heads one.
fn heads_of(alloc: Global, phrases: &[Phrase]) -> Result<Option<BTreeMap<Name, usize>>, AllocError>
    ensures refused { IfOk result (λ o. IfNone o (¬ HaveOwnRules (map (λ p. p.cat) phrases.now))) }
    ensures accepted { IfOk result (λ o. IfSome o (λ heads. HaveOwnRules (map (λ p. p.cat) phrases.now))) }
    ensures places { IfOk result (λ o. IfSome o (λ heads. (cat : List ℕ) → get name_cmp heads cat ≡ place_of cat (map (λ p. p.cat) phrases.now))) }
{
    let mut heads = BTreeMap::new(alloc);
    for i in 0..phrases.len() {
        let cat = &phrases[i].cat;
        if is_empty_item(cat) {
            return Ok(None);
        }
        let head = cat.clone()?;
        let other = heads.insert(head, i)?;
        if other.is_some() {
            return Ok(None);
        }
    }
    Ok(Some(heads))
}

/// Whether the daughter is not `e`, and heads a rule behind this place if it heads one.
fn is_later(heads: &BTreeMap<Name, usize>, place: usize, daughter: &Daughter) -> bool
    ensures { result ≡ is_later (get name_cmp heads.now) place daughter.now.cat }
{
    if is_empty_item(&daughter.cat) {
        return false;
    }
    match heads.get(&daughter.cat) {
        Some(other) => place < *other,
        None => true,
    }
}

/// Whether all these daughters of the rule at this place are so.
fn daughters_are_later(heads: &BTreeMap<Name, usize>, place: usize, daughters: &[Daughter]) -> bool
    ensures { result ≡ list_all (λ x. is_later (get name_cmp heads.now) place x.cat) daughters.now }
{
    daughters
        .iter()
        .all(|daughter| is_later(heads, place, daughter))
}

/// Whether each daughter that heads a rule heads a later one than its mother's, and none is `e`.
fn are_later(heads: &BTreeMap<Name, usize>, phrases: &[Phrase]) -> bool
    ensures { result ≡ are_later (get name_cmp heads.now) 0 phrases.now }
{
    for i in 0..phrases.len() {
        if !daughters_are_later(heads, i, &phrases[i].daughters) {
            return false;
        }
    }
    true
}

/// Whether no entry has a category with a rule, or `e`.
fn are_apart(heads: &BTreeMap<Name, usize>, entries: &[Entry]) -> bool
    ensures { result ≡ list_all (λ x. not (same x.cat empty_item) && not (is_some (get name_cmp heads.now x.cat))) entries.now }
{
    entries.iter().all(|entry| !is_empty_item(&entry.cat) && !heads.contains_key(&entry.cat))
}

/// Whether no form heads two entries.
fn have_own_forms(alloc: Global, entries: &[Entry]) -> Result<bool, AllocError>
    ensures { IfOk result (λ yes. IsTrue yes ↔ Once (map (λ x. x.form) entries.now)) }
{
    let mut forms = BTreeSet::new(alloc);
    for entry in entries {
        let form = entry.form.clone()?;
        let added = forms.insert(form)?;
        if !added {
            return Ok(false);
        }
    }
    Ok(true)
}

/// Whether no category heads two rules, no form two entries, no category has a rule and an entry,
/// each daughter that heads a rule heads a later one, and no category is called `e`.
pub(crate) fn is_consistent(alloc: Global, draft: &Draft) -> Result<bool, AllocError>
    ensures { IfOk result (λ yes. IsTrue yes ↔ IsConsistent (draft_view draft.now)) }
{
    let Some(heads) = heads_of(alloc, &draft.phrases)? else {
        return Ok(false);
    };
    if is_empty_item(&draft.root) {
        return Ok(false);
    }
    if !are_later(&heads, &draft.phrases) {
        return Ok(false);
    }
    if !are_apart(&heads, &draft.entries) {
        return Ok(false);
    }
    have_own_forms(alloc, &draft.entries)
}
