ghost use Rattle.std.specs.Prelude.{◌≡◌, ◌↔◌, ℕ, ◌+◌, ◌<◌, ◌≤◌, true, Some, IfErr, IfOk, OnOk, length, slice_get};
ghost use Rattle.std.specs.Ordering.{nat_cmp};
ghost use Rattle.lfg_model.specs.Lists.{In, Lists};
ghost use Rattle.lfg_model.specs.RightSides.{right_side_of};
ghost use Rattle.lfg_rulegraph.specs.declared.part.Link.{Link};
ghost use Rattle.lfg_rulegraph.specs.Followers.{AreEmpty, AreSets, FollowersOf, HasTable, Pushed};
ghost use Rattle.lfg_rulegraph.specs.Graphs.{IsGraphOf, IsRefused};
ghost use Rattle.lfg_rulegraph.specs.Parts.{table_of};
ghost use Rattle.lfg_rulegraph.specs.Tables.{IsWithin};

use crate::empty::allows_empty;
use crate::fault::GraphFault;
use crate::part::{Link, Part};
use crate::spell::part_of;
use lfg_terms::{Graph, List, Rhs};
use std::alloc::{AllocError, Global};

/// The items in order, each once.
fn sorted_set(mut items: Vec<u32>) -> Result<Vec<u32>, AllocError>
    ensures { IfOk result (λ set. Lists nat_cmp (λ p. In p items.items) set.items) }
{
    items.sort()?;
    items.dedup();
    Ok(items)
}

/// The items of each list in order, each once.
fn sorted_sets(alloc: Global, lists: Vec<Vec<u32>>) -> Result<Vec<List<u32>>, AllocError>
    ensures { IfOk result (λ sets. AreSets lists.items sets.items) }
{
    let mut sets = Vec::new(alloc);
    for list in lists {
        sets.push(List::new(alloc, sorted_set(list)?)?)?;
    }
    Ok(sets)
}

/// As many empty lists as there are items.
fn empty_lists(alloc: Global, size: u32) -> Result<Vec<Vec<u32>>, AllocError>
    ensures length { IfOk result (λ lists. length lists.items ≡ size) }
    ensures empty { IfOk result (λ lists. AreEmpty lists.items) }
{
    let mut lists = Vec::new(alloc);
    for _item in 0..size {
        lists.push(Vec::new(alloc))?;
    }
    Ok(lists)
}

/// Puts the item into the list at this place.
fn push_at(lists: &mut Vec<Vec<u32>>, place: usize, item: u32) -> Result<(), AllocError>
    requires { place < length lists.old.items }
    ensures length { length lists.new.items ≡ length lists.old.items }
    ensures pushed { OnOk result (Pushed lists.old.items place item lists.new.items) }
{
    lists[place].push(item)?;
    Ok(())
}

/// For each item those that may follow it.
fn followers(alloc: Global, size: u32, links: &[Link]) -> Result<Vec<Vec<u32>>, AllocError>
    requires { (l : Link) → In l links.now → (1 ≤ l.from) × (l.from ≤ size) }
    ensures length { IfOk result (λ lists. length lists.items ≡ size) }
    ensures exact { IfOk result (λ lists. FollowersOf links.now lists.items) }
{
    let mut lists = empty_lists(alloc, size)?;
    for link in links {
        push_at(&mut lists, link.from as usize - 1, link.to)?;
    }
    Ok(lists)
}

/// A mark for each item, true for these.
fn marks(alloc: Global, size: u32, items: &[u32]) -> Result<Vec<bool>, AllocError>
    requires { (p : ℕ) → In p items.now → (1 ≤ p) × (p ≤ size) }
    ensures length { IfOk result (λ marks. length marks.items ≡ size) }
    ensures exact { IfOk result (λ marks. (k : ℕ) → (slice_get marks.items k ≡ Some true) ↔ In (k + 1) items.now) }
{
    let mut marks = vec![in alloc; false; size as usize]?;
    for item in items {
        marks[*item as usize - 1] = true;
    }
    Ok(marks)
}

/// The graph of a right side that is this part with these links.
fn graph_of(alloc: Global, part: Part, links: &[Link]) -> Result<Graph, AllocError>
    requires { IsWithin 0 part.end (table_of part links.now) }
    ensures { IfOk result (λ graph. HasTable part.end (table_of part links.now) graph) }
{
    let next = followers(alloc, part.end, links)?;
    let last = marks(alloc, part.end, &part.last)?;
    Ok(Graph {
        size: part.end,
        first: List::new(alloc, sorted_set(part.first)?)?,
        next: List::new(alloc, sorted_sets(alloc, next)?)?,
        last: List::new(alloc, last)?,
    })
}

/// The graph of a right side: it walks exactly the rows of items that the right side spells.
///
/// # Errors
///
/// `EmptyStar` exactly where what is inside some star or plus allows a row without a category. Else
/// `EmptyRule` exactly where the whole right side does. `Memory` for want of memory, and where the
/// number of an item is past 32 bits.
pub fn graph(alloc: Global, rhs: &Rhs) -> Result<Graph, GraphFault>
    ensures graph { IfOk result (λ graph. IsGraphOf (right_side_of rhs.now) graph) }
    ensures refused { IfErr result (λ fault. IsRefused (right_side_of rhs.now) fault) }
{
    if allows_empty(rhs)? {
        return Err(GraphFault::EmptyRule);
    }
    let mut links = Vec::new(alloc);
    let part = part_of(alloc, rhs, 0, &mut links)?;
    Ok(graph_of(alloc, part, &links)?)
}
