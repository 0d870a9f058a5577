ghost use Rattle.std.specs.Prelude.{◌≡◌, ◌++◌, ◌∷◌, ◌⊎◌, ◌≤◌, [], IfOk, IfErr, OnOk, length};
ghost use Rattle.std.specs.List.Sorted.{IsStrictlySortedBy};
ghost use Rattle.lfg_terms.specs.PathOrder.{path_cmp};
ghost use Rattle.lfg_model.specs.Lists.{In};
ghost use Rattle.lfg_regpath.specs.Sets.{Holds, IsJoin, IsPair, IsPlace, IsSet, Overfull};

use crate::fault::PathFault;
use lfg_terms::{Name, Path};
use std::alloc::{AllocError, Global};

/// The greatest number of strings that a path expression may have.
const LIMIT: usize = 256;

/// Where the path stands, or where it would stand in order.
fn place_of(paths: &[Path], path: &Path) -> Result<usize, usize>
    requires { IsStrictlySortedBy path_cmp paths.now }
    ensures found { IfOk result (λ _. In path.now paths.now) }
    ensures missing { IfErr result (IsPlace paths.now path.now) }
{
    paths.binary_search(path)
}

/// Adds the path to the set, unless it is there.
pub(crate) fn add(set: &mut Vec<Path>, path: Path) -> Result<(), PathFault>
    requires { IsSet set.old.items }
    ensures added { OnOk result (Holds (λ w. In w set.old.items ⊎ (w ≡ path)) set.new.items) }
    ensures full { IfErr result (λ fault. Overfull (λ w. In w set.old.items ⊎ (w ≡ path)) fault) }
{
    let Err(place) = place_of(set, &path) else {
        return Ok(());
    };
    if set.len() >= LIMIT {
        return Err(PathFault::TooManyPaths);
    }
    set.insert(place, path)?;
    Ok(())
}

/// Adds the paths to the set.
pub(crate) fn add_all(set: &mut Vec<Path>, paths: &[Path]) -> Result<(), PathFault>
    requires { IsSet set.old.items }
    ensures added { OnOk result (Holds (λ w. In w set.old.items ⊎ In w paths.now) set.new.items) }
    ensures full { IfErr result (λ fault. Overfull (λ w. In w set.old.items ⊎ In w paths.now) fault) }
{
    for path in paths {
        add(set, path.clone()?)?;
    }
    Ok(())
}

/// Appends the names.
fn push_all(names: &mut Vec<Name>, more: &[Name]) -> Result<(), AllocError>
    ensures { OnOk result (names.new.items ≡ names.old.items ++ more.now) }
{
    for name in more {
        names.push(name.clone()?)?;
    }
    Ok(())
}

/// One path behind the other.
fn appended(alloc: Global, front: &Path, back: &Path) -> Result<Path, AllocError>
    ensures { IfOk result (λ path. path ≡ front.now ++ back.now) }
{
    let mut names = Vec::new(alloc);
    push_all(&mut names, front.list())?;
    push_all(&mut names, back.list())?;
    Path::new(alloc, names)
}

/// Adds one path behind the other to the set, unless that is longer than the limit.
fn join_pair(
    alloc: Global,
    set: &mut Vec<Path>,
    front: &Path,
    back: &Path,
    limit: usize,
) -> Result<(), PathFault>
    requires { IsSet set.old.items }
    ensures added { OnOk result (Holds (λ w. In w set.old.items ⊎ IsPair front.now back.now limit w) set.new.items) }
    ensures full { IfErr result (λ fault. Overfull (λ w. In w set.old.items ⊎ IsPair front.now back.now limit w) fault) }
{
    let taken = front.list().len();
    if taken > limit {
        return Ok(());
    }
    if back.list().len() > limit - taken {
        return Ok(());
    }
    let path = appended(alloc, front, back)?;
    add(set, path)
}

/// Adds each path of `backs` behind the front to the set, where that is not longer than the limit.
fn join_front(
    alloc: Global,
    set: &mut Vec<Path>,
    front: &Path,
    backs: &[Path],
    limit: usize,
) -> Result<(), PathFault>
    requires { IsSet set.old.items }
    ensures added { OnOk result (Holds (λ w. In w set.old.items ⊎ IsJoin (front.now ∷ []) backs.now limit w) set.new.items) }
    ensures full { IfErr result (λ fault. Overfull (λ w. In w set.old.items ⊎ IsJoin (front.now ∷ []) backs.now limit w) fault) }
{
    for back in backs {
        join_pair(alloc, set, front, back, limit)?;
    }
    Ok(())
}

/// The paths that are one of `fronts` and one of `backs` behind it, up to the limit of attributes.
pub(crate) fn joined(
    alloc: Global,
    fronts: &[Path],
    backs: &[Path],
    limit: usize,
) -> Result<Vec<Path>, PathFault>
    ensures all { IfOk result (λ set. Holds (IsJoin fronts.now backs.now limit) set.items) }
    ensures full { IfErr result (λ fault. Overfull (IsJoin fronts.now backs.now limit) fault) }
{
    let mut set = Vec::new(alloc);
    for front in fronts {
        join_front(alloc, &mut set, front, backs, limit)?;
    }
    Ok(set)
}

/// The set of the empty path.
pub(crate) fn only_empty(alloc: Global) -> Result<Vec<Path>, PathFault>
    ensures only { IfOk result (λ set. set.items ≡ [] ∷ []) }
    ensures memory { IfErr result (λ fault. fault ≡ PathFault.Memory) }
{
    let empty = Path::new(alloc, Vec::new(alloc))?;
    let mut set = Vec::new(alloc);
    set.push(empty)?;
    Ok(set)
}
