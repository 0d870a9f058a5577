ghost use Rattle.std.specs.Prelude.{◌∷◌, [], MatchOption, ◌≡◌, ℕ, ◌-◌, ◌^◌, ◌≤◌, length, min, take, drop};
ghost use Rattle.lfg_model.specs.Places.{path_places, val_places, places, schema_places, val_forms, form_count, schema_forms};
ghost use Rattle.lfg_model.specs.Terms.{annotation_of, schema_of};

use lfg_context::Ctx;
use lfg_terms::{List, Paths, Schema, Val};

/// The first `count` picks, and the others. A count that stopped at the greatest one is past all
/// picks.
pub(crate) fn cut(picks: &[List<Ctx>], count: usize) -> (&[List<Ctx>], &[List<Ctx>])
    ensures own { (n : ℕ) → count ≡ min n (2 ^ 64 - 1) → result.0.now ≡ take n picks.now }
    ensures others { (n : ℕ) → count ≡ min n (2 ^ 64 - 1) → result.1.now ≡ drop n picks.now }
{
    picks.split_at(count.min(picks.len()))
}

/// The sets of the first place's alternatives, and the picks of the others, if there is a place.
pub(crate) fn first_place(picks: &[List<Ctx>]) -> Option<(&[Ctx], &[List<Ctx>])>
    ensures { MatchOption result (picks.now ≡ []) (λ it. picks.now ≡ it.0.now ∷ it.1.now) }
{
    match picks {
        [] => None,
        [first, others @ ..] => Some((first.list(), others)),
    }
}

/// How many numbered places the path of a defining equation has: one, if it has several strings.
pub(crate) fn path_places(path: &Option<Paths>) -> usize
    ensures within { result ≤ 1 }
    ensures value { result ≡ length (path_places path.now) }
{
    let Some(paths) = path else {
        return 0;
    };
    match paths.list() {
        [] | [_] => 0,
        [_, _, ..] => 1,
    }
}

/// How many numbered places the right side of a defining equation has.
fn val_places(val: &Val<Paths>) -> usize
    ensures within { result ≤ 1 }
    ensures value { result ≡ length (val_places val.now) }
{
    match val {
        Val::Des(des) => path_places(&des.path),
        Val::Atom(_) | Val::Form(_) => 0,
    }
}

/// How many numbered places the schemata have, also inside branches that are not taken; the count
/// stops at the greatest one.
#[cycle(places)]
pub(crate) fn places(schemata: &[Schema<Paths>]) -> usize
    ensures { result ≡ min (length (places (annotation_of schemata.now))) (2 ^ 64 - 1) }
{
    let mut count = 0usize;
    for schema in schemata {
        count = count.saturating_add(schema_places(schema));
    }
    count
}

/// How many numbered places the schema has; the count stops at the greatest one.
#[cycle(places)]
pub(crate) fn schema_places(schema: &Schema<Paths>) -> usize
    ensures { result ≡ min (length (schema_places (schema_of schema.now))) (2 ^ 64 - 1) }
{
    match schema {
        Schema::Define { left, right } => path_places(&left.path) + val_places(right),
        Schema::Member { item, set } => path_places(&item.path) + path_places(&set.path),
        Schema::Either(branches) => {
            let mut count = 1usize;
            for branch in branches {
                count = count.saturating_add(places(branch));
            }
            count
        }
        Schema::Maybe(inside) => places(inside).saturating_add(1),
        Schema::Constrain { .. } | Schema::Exists { .. } | Schema::Mark(_) | Schema::Call { .. } =>
            0,
    }
}

/// How many semantic forms the schemata have, also inside branches that are not taken; the count
/// stops at the greatest one.
#[cycle(forms)]
pub(crate) fn forms(schemata: &[Schema<Paths>]) -> u32
    ensures { result ≡ min (form_count (annotation_of schemata.now)) (2 ^ 32 - 1) }
{
    let mut count = 0u32;
    for schema in schemata {
        count = count.saturating_add(schema_forms(schema));
    }
    count
}

/// How many semantic forms the schema has; the count stops at the greatest one.
#[cycle(forms)]
pub(crate) fn schema_forms(schema: &Schema<Paths>) -> u32
    ensures { result ≡ min (schema_forms (schema_of schema.now)) (2 ^ 32 - 1) }
{
    match schema {
        Schema::Define { right, .. } => val_forms(right),
        Schema::Either(branches) => {
            let mut count = 0u32;
            for branch in branches {
                count = count.saturating_add(forms(branch));
            }
            count
        }
        Schema::Maybe(inside) => forms(inside),
        Schema::Constrain { .. }
        | Schema::Exists { .. }
        | Schema::Member { .. }
        | Schema::Mark(_)
        | Schema::Call { .. } => 0,
    }
}

/// Whether the right side of an equation is a semantic form, as a count.
fn val_forms(val: &Val<Paths>) -> u32
    ensures { result ≡ val_forms val.now }
{
    match val {
        Val::Form(_) => 1,
        Val::Des(_) | Val::Atom(_) => 0,
    }
}
