ghost use Rattle.std.specs.Prelude.{◌≡◌, ◌≤◌, ◌⊎◌, [], IfOk, IfErr, length};
ghost use Rattle.lfg_model.specs.Lists.{In};
ghost use Rattle.lfg_model.specs.Terms.{Path};
ghost use Rattle.lfg_regpath.specs.Sets.{Holds, IsRepeat, IsSet, Overfull};

use crate::fault::PathFault;
use crate::set::{add, add_all, joined};
use lfg_terms::Path;
use std::alloc::{AllocError, Global};

/// A copy of the paths.
fn copied(alloc: Global, paths: &[Path]) -> Result<Vec<Path>, AllocError>
    ensures { IfOk result (λ copy. copy.items ≡ paths.now) }
{
    let mut copy = Vec::new(alloc);
    for path in paths {
        copy.push(path.clone()?)?;
    }
    Ok(copy)
}

/// One or more of the paths one after the other, up to the limit of attributes.
pub(crate) fn repeated(alloc: Global, paths: &[Path], limit: usize) -> Result<Vec<Path>, PathFault>
    requires set { IsSet paths.now }
    requires short { (w : Path) → In w paths.now → length w ≤ limit }
    ensures all { IfOk result (λ set. Holds (IsRepeat paths.now limit) set.items) }
    ensures full { IfErr result (λ fault. Overfull (IsRepeat paths.now limit) fault) }
{
    let mut set = copied(alloc, paths)?;
    let mut last = copied(alloc, paths)?;
    for _round in 0..limit {
        let longer = joined(alloc, &last, paths, limit)?;
        add_all(&mut set, &longer)?;
        last = longer;
    }
    Ok(set)
}

/// Those, and the empty path.
pub(crate) fn repeated_or_empty(
    alloc: Global,
    paths: &[Path],
    limit: usize,
) -> Result<Vec<Path>, PathFault>
    requires set { IsSet paths.now }
    requires short { (w : Path) → In w paths.now → length w ≤ limit }
    ensures all { IfOk result (λ set. Holds (λ w. IsRepeat paths.now limit w ⊎ (w ≡ [])) set.items) }
    ensures full { IfErr result (λ fault. Overfull (λ w. IsRepeat paths.now limit w ⊎ (w ≡ [])) fault) }
{
    let mut set = repeated(alloc, paths, limit)?;
    let empty = Path::new(alloc, Vec::new(alloc))?;
    add(&mut set, empty)?;
    Ok(set)
}
