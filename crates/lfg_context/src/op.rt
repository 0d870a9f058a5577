ghost use Rattle.std.specs.Prelude.{◌≡◌, ℕ, ◌<◌, ◌≤◌, ◌⊎◌, Bool, true, false, IfSome, IfNone};
ghost use Rattle.lfg_context.specs.Ops.{op_of, IsTrivial};

/// An operation on two sets: what is in both, in one of them, in the first alone.
#[derive(Clone, Copy, Debug, PartialEq, Eq, Hash)]
pub(crate) enum Op {
    And,
    Or,
    Without,
}

/// The number of the result, where the numbers of the two sets alone tell it.
///
/// The empty set has the number 0 and the full set 1.
pub(crate) fn trivial(op: Op, left: usize, right: usize) -> Option<usize>
    ensures some { IfSome result (IsTrivial op left right) }
    ensures none { IfNone result ((2 ≤ left) ⊎ (2 ≤ right)) }
{
    match op {
        Op::And => trivial_and(left, right),
        Op::Or => trivial_or(left, right),
        Op::Without => trivial_without(left, right),
    }
}

fn trivial_and(left: usize, right: usize) -> Option<usize>
    ensures some { IfSome result (IsTrivial Op.And left right) }
    ensures none { IfNone result ((2 ≤ left) ⊎ (2 ≤ right)) }
{
    if left == right || left == 0 || right == 1 {
        Some(left)
    } else if right == 0 || left == 1 {
        Some(right)
    } else {
        None
    }
}

fn trivial_or(left: usize, right: usize) -> Option<usize>
    ensures some { IfSome result (IsTrivial Op.Or left right) }
    ensures none { IfNone result ((2 ≤ left) ⊎ (2 ≤ right)) }
{
    if left == right || left == 1 || right == 0 {
        Some(left)
    } else if right == 1 || left == 0 {
        Some(right)
    } else {
        None
    }
}

fn trivial_without(left: usize, right: usize) -> Option<usize>
    ensures some { IfSome result (IsTrivial Op.Without left right) }
    ensures none { IfNone result ((2 ≤ left) ⊎ (2 ≤ right)) }
{
    if left == right || left == 0 || right == 1 {
        Some(0)
    } else if right == 0 {
        Some(left)
    } else {
        None
    }
}
