ghost use Rattle.std.specs.Prelude.{◌≡◌, ◌<◌, ◌≤◌, true, List, IfOk, IfErr, IsOkUnless, length};
ghost use Rattle.lfg_terms.specs.PathOrder.{path_cmp};
ghost use Rattle.lfg_model.specs.Lists.{Lists};
ghost use Rattle.lfg_model.specs.Terms.{Path};
ghost use Rattle.lfg_model.specs.PathExpressions.{HasString, MoreThan, Strings, expression_of, is_plain_row};
ghost use Rattle.lfg_regpath.specs.Faults.{FailsBy, IsRefused};

use crate::fault::PathFault;
use crate::plain_row::{is_plain_row, push_row};
use crate::strings::strings;
use lfg_terms::{Path, PathExpr, Paths};
use std::alloc::{AllocError, Global};

/// The one string of a path of attributes and rows alone.
fn only_string(alloc: Global, path: &PathExpr) -> Result<Vec<Path>, AllocError>
    requires { is_plain_row (expression_of path.now) ≡ true }
    ensures listed { IfOk result (λ set. Lists path_cmp (HasString (expression_of path.now)) set.items) }
    ensures one { IfOk result (λ set. length set.items ≡ 1) }
{
    let mut names = Vec::new(alloc);
    push_row(&mut names, path)?;
    let mut set = Vec::new(alloc);
    set.push(Path::new(alloc, names)?)?;
    Ok(set)
}

/// The strings that the path stands for, in order.
fn listed(alloc: Global, path: &PathExpr, depth: u8) -> Result<Paths, PathFault>
    requires { depth ≤ 8 }
    ensures listed { IfOk result (λ paths. Lists path_cmp (Strings (expression_of path.now) depth) paths) }
    ensures some { IfOk result (λ paths. 0 < length paths) }
    ensures few { IfOk result (λ paths. length paths ≤ 256) }
    ensures refused { IfErr result (λ fault. IsRefused (expression_of path.now) depth fault) }
{
    if is_plain_row(path) {
        return Ok(Paths::new(alloc, only_string(alloc, path)?)?);
    }
    let found = strings(alloc, path, depth as usize)?;
    if found.is_empty() {
        return Err(PathFault::NoPath);
    }
    Ok(Paths::new(alloc, found)?)
}

/// The strings that the path stands for, ordered by length and then by the attributes' bytes, each
/// once.
///
/// A path of attributes and rows alone has its one string, whatever its length. Any other one has
/// its strings of 0 to `depth` attributes.
///
/// # Errors
///
/// `TooManyPaths` exactly where there are more than 256 strings, `NoPath` exactly where there is
/// none, `Memory` for want of memory.
pub fn paths_to(alloc: Global, path: &PathExpr, depth: u8) -> Result<Paths, PathFault>
    requires some { 1 ≤ depth }
    requires limit { depth ≤ 8 }
    ensures listed { IfOk result (λ paths. Lists path_cmp (Strings (expression_of path.now) depth) paths) }
    ensures some { IfOk result (λ paths. 0 < length paths) }
    ensures few { IfOk result (λ paths. length paths ≤ 256) }
    ensures refused { IfErr result (λ fault. IsRefused (expression_of path.now) depth fault) }
    ensures too_many { MoreThan 256 (Strings (expression_of path.now) depth)
        → FailsBy PathFault.TooManyPaths result }
    ensures no_path { ((w : Path) → ¬ Strings (expression_of path.now) depth w)
        → FailsBy PathFault.NoPath result }
    ensures accepted { (ws : List Path) → Lists path_cmp (Strings (expression_of path.now) depth) ws
        → 0 < length ws → length ws ≤ 256 → IsOkUnless result PathFault.Memory }
{
    listed(alloc, path, depth)
}
