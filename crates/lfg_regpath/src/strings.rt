ghost use Rattle.std.specs.Prelude.{◌≡◌, ◌≤◌, IfOk, IfErr};
ghost use Rattle.lfg_model.specs.PathExpressions.{HasShort, attribute, expression_of, expressions_of, one_of, row};
ghost use Rattle.lfg_regpath.specs.Sets.{Holds, Overfull};

use crate::fault::PathFault;
use crate::least::{least, least_of_row};
use crate::repeat::{repeated, repeated_or_empty};
use crate::set::{add_all, joined, only_empty};
use lfg_terms::{Name, Path, PathExpr};
use std::alloc::Global;

/// The strings of one attribute, of at most this number of attributes.
fn strings_of_attribute(alloc: Global, name: &Name, limit: usize) -> Result<Vec<Path>, PathFault>
    ensures all { IfOk result (λ set. Holds (HasShort (attribute name.now) limit) set.items) }
    ensures full { IfErr result (λ fault. Overfull (HasShort (attribute name.now) limit) fault) }
{
    let mut set = Vec::new(alloc);
    if limit == 0 {
        return Ok(set);
    }
    let mut names = Vec::new(alloc);
    names.push(name.clone()?)?;
    set.push(Path::new(alloc, names)?)?;
    Ok(set)
}

/// The strings of the path with at most this number of attributes, each once.
#[cycle(strings)]
pub(crate) fn strings(alloc: Global, path: &PathExpr, limit: usize) -> Result<Vec<Path>, PathFault>
    requires { limit ≤ 8 }
    ensures all { IfOk result (λ set. Holds (HasShort (expression_of path.now) limit) set.items) }
    ensures full { IfErr result (λ fault. Overfull (HasShort (expression_of path.now) limit) fault) }
{
    match path {
        PathExpr::Attr(name) => strings_of_attribute(alloc, name, limit),
        PathExpr::Row(parts) => strings_of_row(alloc, parts, limit),
        PathExpr::OneOf(branches) => strings_of_branches(alloc, branches, limit),
        PathExpr::Star(inside) => {
            let once = strings(alloc, inside, limit)?;
            repeated_or_empty(alloc, &once, limit)
        }
        PathExpr::Plus(inside) => {
            let once = strings(alloc, inside, limit)?;
            repeated(alloc, &once, limit)
        }
    }
}

/// Those of a row of these parts.
///
/// Each part is asked for the attributes alone that the shortest strings of the other parts leave
/// to it. So each of its strings is part of a string of the row, and where it has too many, so has
/// the row.
#[cycle(strings)]
fn strings_of_row(alloc: Global, parts: &[PathExpr], limit: usize) -> Result<Vec<Path>, PathFault>
    requires { limit ≤ 8 }
    ensures all { IfOk result (λ set. Holds (HasShort (row (expressions_of parts.now)) limit) set.items) }
    ensures full { IfErr result (λ fault. Overfull (HasShort (row (expressions_of parts.now)) limit) fault) }
{
    let shortest = least_of_row(parts);
    if shortest > limit {
        return Ok(Vec::new(alloc));
    }
    let spare = limit - shortest;
    let mut set = only_empty(alloc)?;
    let mut so_far = 0;
    for part in parts {
        let own = least(part);
        let found = strings(alloc, part, spare + own)?;
        so_far += own;
        set = joined(alloc, &set, &found, spare + so_far)?;
    }
    Ok(set)
}

/// Those of one of these branches.
#[cycle(strings)]
fn strings_of_branches(
    alloc: Global,
    branches: &[PathExpr],
    limit: usize,
) -> Result<Vec<Path>, PathFault>
    requires { limit ≤ 8 }
    ensures all { IfOk result (λ set. Holds (HasShort (one_of (expressions_of branches.now)) limit) set.items) }
    ensures full { IfErr result (λ fault. Overfull (HasShort (one_of (expressions_of branches.now)) limit) fault) }
{
    let mut set = Vec::new(alloc);
    for branch in branches {
        let found = strings(alloc, branch, limit)?;
        add_all(&mut set, &found)?;
    }
    Ok(set)
}
