ghost use Rattle.std.specs.Prelude.{◌≡◌, ◌++◌, OnOk};
ghost use Rattle.lfg_model.specs.PathExpressions.{are_plain_rows, expression_of, expressions_of, is_plain_row};
ghost use Rattle.lfg_regpath.specs.PlainRows.{row_string, rows_string};

use lfg_terms::{Name, PathExpr};
use std::alloc::AllocError;

/// Whether the path is made of attributes and rows alone.
#[cycle(plain)]
pub(crate) fn is_plain_row(path: &PathExpr) -> bool
    ensures { result ≡ is_plain_row (expression_of path.now) }
{
    match path {
        PathExpr::Attr(_) => true,
        PathExpr::Row(parts) => are_plain_rows(parts),
        PathExpr::OneOf(_) => false,
        PathExpr::Star(_) => false,
        PathExpr::Plus(_) => false,
    }
}

#[cycle(plain)]
fn are_plain_rows(parts: &[PathExpr]) -> bool
    ensures { result ≡ are_plain_rows (expressions_of parts.now) }
{
    for part in parts {
        if !is_plain_row(part) {
            return false;
        }
    }
    true
}

/// Appends the attributes of a path of attributes and rows alone.
#[cycle(attributes)]
pub(crate) fn push_row(names: &mut Vec<Name>, path: &PathExpr) -> Result<(), AllocError>
    ensures { OnOk result (names.new.items ≡ names.old.items ++ row_string (expression_of path.now)) }
{
    match path {
        PathExpr::Attr(name) => {
            names.push(name.clone()?)?;
            Ok(())
        }
        PathExpr::Row(parts) => push_rows(names, parts),
        PathExpr::OneOf(_) => Ok(()),
        PathExpr::Star(_) => Ok(()),
        PathExpr::Plus(_) => Ok(()),
    }
}

#[cycle(attributes)]
fn push_rows(names: &mut Vec<Name>, parts: &[PathExpr]) -> Result<(), AllocError>
    ensures { OnOk result (names.new.items ≡ names.old.items ++ rows_string (expressions_of parts.now)) }
{
    for part in parts {
        push_row(names, part)?;
    }
    Ok(())
}
