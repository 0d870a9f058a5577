ghost use Rattle.std.specs.Prelude.{◌≡◌, ℕ, ◌-◌, ◌^◌, ◌++◌, IfOk, OnOk, length, map, min};
ghost use Rattle.lfg_model.specs.Places.{path_places, val_places, places, schema_places};
ghost use Rattle.lfg_model.specs.Terms.{annotation_of, schema_of};
ghost use Rattle.lfg_packed.specs.Sizes.{string_count, val_strings, literal_size, schema_size};
ghost use Rattle.lfg_instant.specs.Sizes.{in_32_bits};

use lfg_terms::{Paths, Schema, Val};
use std::alloc::{AllocError, Global};

/// How many nodes a designator with this path may take: one for each string. The bare arrow and a
/// path without a string take one.
fn string_count(path: &Option<Paths>) -> u64
    ensures { result ≡ string_count path.now }
{
    let Some(paths) = path else {
        return 1;
    };
    match paths.list() {
        [] => 1,
        strings => strings.len() as u64,
    }
}

/// How many values the right side of an equation may take.
fn val_count(val: &Val<Paths>) -> u64
    ensures { result ≡ val_strings val.now }
{
    match val {
        Val::Des(des) => string_count(&des.path),
        Val::Atom(_) | Val::Form(_) => 1,
    }
}

/// How many literals the schemata give over all their picks, each counted once. The count stops at
/// the greatest number.
#[cycle(size)]
pub(crate) fn literal_count(schemata: &[Schema<Paths>]) -> u64
    ensures { result ≡ min (literal_size (annotation_of schemata.now)) (2 ^ 64 - 1) }
{
    let mut count = 0u64;
    for schema in schemata {
        count = count.saturating_add(schema_count(schema));
    }
    count
}

/// How many literals the schema gives over all its picks. The count stops at the greatest number.
#[cycle(size)]
fn schema_count(schema: &Schema<Paths>) -> u64
    ensures { result ≡ min (schema_size (schema_of schema.now)) (2 ^ 64 - 1) }
{
    match schema {
        Schema::Define { left, right } => string_count(&left.path).saturating_mul(val_count(right)),
        Schema::Member { item, set } => string_count(&item.path).saturating_mul(string_count(
            &set.path,
        )),
        Schema::Either(branches) => {
            let mut count = 0u64;
            for branch in branches {
                count = count.saturating_add(literal_count(branch));
            }
            count
        }
        Schema::Maybe(inside) => literal_count(inside),
        Schema::Constrain { .. } | Schema::Exists { .. } | Schema::Mark(_) => 1,
        Schema::Call { .. } => 0,
    }
}

/// How many alternatives each numbered place of the schemata has, in written order, also inside
/// branches that are not taken; a number stops at the greatest one.
///
/// # Errors
///
/// Only for want of memory.
pub(crate) fn place_arities(
    alloc: Global,
    schemata: &[Schema<Paths>],
) -> Result<Vec<u32>, AllocError>
    ensures { IfOk result
        (λ it. it.items ≡ map in_32_bits (places (annotation_of schemata.now))) }
{
    let mut arities = Vec::new(alloc);
    push_arities(&mut arities, schemata)?;
    Ok(arities)
}

/// Appends how many alternatives each numbered place of the schemata has.
#[cycle(arities)]
fn push_arities(arities: &mut Vec<u32>, schemata: &[Schema<Paths>]) -> Result<(), AllocError>
    ensures { OnOk result (arities.new.items
        ≡ arities.old.items ++ map in_32_bits (places (annotation_of schemata.now))) }
{
    for schema in schemata {
        push_schema_arities(arities, schema)?;
    }
    Ok(())
}

/// Appends how many alternatives each numbered place of the schema has.
#[cycle(arities)]
fn push_schema_arities(arities: &mut Vec<u32>, schema: &Schema<Paths>) -> Result<(), AllocError>
    ensures { OnOk result (arities.new.items
        ≡ arities.old.items ++ map in_32_bits (schema_places (schema_of schema.now))) }
{
    match schema {
        Schema::Define { left, right } => {
            push_path_arity(arities, &left.path)?;
            push_val_arity(arities, right)
        }
        Schema::Member { item, set } => {
            push_path_arity(arities, &item.path)?;
            push_path_arity(arities, &set.path)
        }
        Schema::Either(branches) => {
            arities.push(in_32_bits(branches.len()))?;
            for branch in branches {
                push_arities(arities, branch)?;
            }
            Ok(())
        }
        Schema::Maybe(inside) => {
            arities.push(2)?;
            push_arities(arities, inside)
        }
        Schema::Constrain { .. } | Schema::Exists { .. } | Schema::Mark(_) | Schema::Call { .. } =>
            Ok(()),
    }
}

/// Appends the number of strings of a path, if it is a numbered place.
fn push_path_arity(arities: &mut Vec<u32>, path: &Option<Paths>) -> Result<(), AllocError>
    ensures { OnOk result
        (arities.new.items ≡ arities.old.items ++ map in_32_bits (path_places path.now)) }
{
    let Some(paths) = path else {
        return Ok(());
    };
    match paths.list() {
        [] | [_] => Ok(()),
        strings => {
            arities.push(in_32_bits(strings.len()))?;
            Ok(())
        }
    }
}

/// Appends the number of strings of the right side of an equation, if it is a numbered place.
fn push_val_arity(arities: &mut Vec<u32>, val: &Val<Paths>) -> Result<(), AllocError>
    ensures { OnOk result
        (arities.new.items ≡ arities.old.items ++ map in_32_bits (val_places val.now)) }
{
    match val {
        Val::Des(des) => push_path_arity(arities, &des.path),
        Val::Atom(_) | Val::Form(_) => Ok(()),
    }
}

/// The number in 32 bits, where a greater one stops at the greatest.
fn in_32_bits(number: usize) -> u32
    ensures { result ≡ in_32_bits number }
{
    number.min(u32::MAX as usize) as u32
}
