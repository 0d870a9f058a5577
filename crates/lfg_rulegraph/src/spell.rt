ghost use Rattle.std.specs.Prelude.{◌+◌, IfOk};
ghost use Rattle.lfg_model.specs.RightSides.{right_side_of, right_sides_of};
ghost use Rattle.lfg_model.specs.Spelling.{SpellsBehind, SpellsBranch, SpellsRow, item_count, items_count};
ghost use Rattle.lfg_rulegraph.specs.Parts.{Adds};

use crate::part::{Link, Part, choice_of, connect, empty_part, item_part, option_of, row_of};
use lfg_terms::Rhs;
use std::alloc::{AllocError, Global};

/// The part of a right side behind this number of items. Adds the links between its items.
#[cycle(parts)]
pub(crate) fn part_of(
    alloc: Global,
    rhs: &Rhs,
    before: u32,
    links: &mut Vec<Link>,
) -> Result<Part, AllocError>
    ensures { IfOk result (λ part. Adds (SpellsBehind before (right_side_of rhs.now)) before (before + item_count (right_side_of rhs.now)) part links.old.items links.new.items) }
{
    match rhs {
        Rhs::Item { .. } => item_part(alloc, before),
        Rhs::Row(parts) => row_part(alloc, parts, before, links),
        Rhs::OneOf(branches) => choice_part(alloc, branches, before, links),
        Rhs::Maybe(inside) => {
            let part = part_of(alloc, inside, before, links)?;
            Ok(option_of(part))
        }
        Rhs::Star(inside) => {
            let once = part_of(alloc, inside, before, links)?;
            connect(links, &once.last, &once.first)?;
            Ok(option_of(once))
        }
        Rhs::Plus(inside) => {
            let part = part_of(alloc, inside, before, links)?;
            connect(links, &part.last, &part.first)?;
            Ok(part)
        }
    }
}

/// The part of these parts one after the other.
#[cycle(parts)]
fn row_part(
    alloc: Global,
    parts: &[Rhs],
    before: u32,
    links: &mut Vec<Link>,
) -> Result<Part, AllocError>
    ensures { IfOk result (λ part. Adds (SpellsRow before (right_sides_of parts.now)) before (before + items_count (right_sides_of parts.now)) part links.old.items links.new.items) }
{
    let mut row = empty_part(alloc, before, true);
    for part in parts {
        let next = part_of(alloc, part, row.end, links)?;
        row = row_of(row, next, links)?;
    }
    Ok(row)
}

/// The part of one of these branches.
#[cycle(parts)]
fn choice_part(
    alloc: Global,
    branches: &[Rhs],
    before: u32,
    links: &mut Vec<Link>,
) -> Result<Part, AllocError>
    ensures { IfOk result (λ part. Adds (SpellsBranch before (right_sides_of branches.now)) before (before + items_count (right_sides_of branches.now)) part links.old.items links.new.items) }
{
    let mut choice = empty_part(alloc, before, false);
    for branch in branches {
        let next = part_of(alloc, branch, choice.end, links)?;
        choice = choice_of(choice, next)?;
    }
    Ok(choice)
}
