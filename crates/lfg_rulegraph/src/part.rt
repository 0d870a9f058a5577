ghost use Rattle.std.specs.Prelude.{◌≡◌, ◌+◌, ◌++◌, List, [], IfOk, OnOk, if◌then◌else◌, map};
ghost use Rattle.lfg_rulegraph.specs.Tables.{crossing, link, no_item, one_item, option_of};
ghost use Rattle.lfg_rulegraph.specs.Parts.{IsChoiceOf, IsRowOf, table_of};
ghost use Rattle.lfg_rulegraph.specs.declared.part.Link.{Link};

use std::alloc::{AllocError, Global};

/// Item `to` may follow item `from`.
#[derive(Clone, Copy, Debug, Drop)]
pub(crate) struct Link {
    pub from: u32,
    pub to: u32,
}

/// What is known of a part of a right side, beside the links between its items.
#[derive(Debug, Drop)]
pub(crate) struct Part {
    /// The number of the last item up to its end.
    pub end: u32,
    /// Whether it spells the row of no item.
    pub empty: bool,
    /// The items that may begin a row.
    pub first: Vec<u32>,
    /// The items that may end a row.
    pub last: Vec<u32>,
}

/// The part of one item behind this number of items.
///
/// # Errors
///
/// For want of memory, and where the item's number is past 32 bits.
pub(crate) fn item_part(alloc: Global, before: u32) -> Result<Part, AllocError>
    ensures table { IfOk result (λ part. table_of part [] ≡ one_item (before + 1)) }
    ensures end { IfOk result (λ part. part.end ≡ before + 1) }
{
    let Some(number) = before.checked_add(1) else {
        return Err(AllocError);
    };
    Ok(Part {
        end: number,
        empty: false,
        first: vec![in alloc; number]?,
        last: vec![in alloc; number]?,
    })
}

/// The part of no item behind item `end`, which spells the row of no item, if asked.
pub(crate) fn empty_part(alloc: Global, end: u32, empty: bool) -> Part
    ensures table { table_of result [] ≡ no_item empty }
    ensures end { result.end ≡ end }
{
    Part {
        end,
        empty,
        first: Vec::new(alloc),
        last: Vec::new(alloc),
    }
}

/// Adds the links from one item to each of these.
fn connect_one(links: &mut Vec<Link>, from: u32, firsts: &[u32]) -> Result<(), AllocError>
    ensures { OnOk result (links.new.items ≡ links.old.items ++ map (link from) firsts.now) }
{
    for to in firsts {
        links.push(Link { from, to: *to })?;
    }
    Ok(())
}

/// Adds the links from each of these items to each of those.
pub(crate) fn connect(
    links: &mut Vec<Link>,
    lasts: &[u32],
    firsts: &[u32],
) -> Result<(), AllocError>
    ensures { OnOk result (links.new.items ≡ links.old.items ++ crossing lasts.now firsts.now) }
{
    for from in lasts {
        connect_one(links, *from, firsts)?;
    }
    Ok(())
}

/// The items, and the others behind them, if asked.
fn with_others(mut items: Vec<u32>, others: &[u32], also: bool) -> Result<Vec<u32>, AllocError>
    ensures { IfOk result (λ all. all.items ≡ (if also then items.items ++ others.now else items.items)) }
{
    if also {
        items.extend_from_slice(others)?;
    }
    Ok(items)
}

/// A part and another one behind it. Adds the links from the one to the other.
pub(crate) fn row_of(front: Part, back: Part, links: &mut Vec<Link>) -> Result<Part, AllocError>
    ensures part { IfOk result (λ part. IsRowOf front back part) }
    ensures end { IfOk result (λ part. part.end ≡ back.end) }
    ensures links { OnOk result (links.new.items ≡ links.old.items ++ crossing front.last.items back.first.items) }
{
    connect(links, &front.last, &back.first)?;
    Ok(Part {
        end: back.end,
        empty: front.empty && back.empty,
        first: with_others(front.first, &back.first, front.empty)?,
        last: with_others(back.last, &front.last, back.empty)?,
    })
}

/// A part or another one.
pub(crate) fn choice_of(one: Part, other: Part) -> Result<Part, AllocError>
    ensures part { IfOk result (λ part. IsChoiceOf one other part) }
    ensures end { IfOk result (λ part. part.end ≡ other.end) }
{
    Ok(Part {
        end: other.end,
        empty: one.empty || other.empty,
        first: with_others(one.first, &other.first, true)?,
        last: with_others(one.last, &other.last, true)?,
    })
}

/// The part, or no item.
pub(crate) fn option_of(part: Part) -> Part
    ensures part { (links : List Link) → table_of result links ≡ option_of (table_of part links) }
    ensures end { result.end ≡ part.end }
{
    Part {
        empty: true,
        ..part
    }
}
