ghost use Rattle.std.specs.Prelude.{◌≡◌, ◌≤◌};
ghost use Rattle.lfg_model.specs.PathExpressions.{expression_of, expressions_of};
ghost use Rattle.lfg_regpath.specs.Least.{least, least_of_branches, least_of_row};

use lfg_terms::PathExpr;

/// More attributes than any limit allows.
const PAST_LIMITS: usize = 9;

/// The least number of attributes of a string of the path, or 9 where no string has fewer than 9.
#[cycle(least)]
pub(crate) fn least(path: &PathExpr) -> usize
    ensures { result ≡ least (expression_of path.now) }
{
    match path {
        PathExpr::Attr(_) => 1,
        PathExpr::Row(parts) => least_of_row(parts),
        PathExpr::OneOf(branches) => least_of_branches(branches),
        PathExpr::Star(_) => 0,
        PathExpr::Plus(inside) => least(inside),
    }
}

/// That of a row of these parts.
#[cycle(least)]
pub(crate) fn least_of_row(parts: &[PathExpr]) -> usize
    ensures { result ≡ least_of_row (expressions_of parts.now) }
{
    let mut sum = 0;
    for part in parts {
        sum = PAST_LIMITS.min(sum + least(part));
    }
    sum
}

/// That of one of these branches.
#[cycle(least)]
fn least_of_branches(branches: &[PathExpr]) -> usize
    ensures { result ≡ least_of_branches (expressions_of branches.now) }
{
    let mut found = PAST_LIMITS;
    for branch in branches {
        found = found.min(least(branch));
    }
    found
}
