ghost use Rattle.std.specs.Prelude.{◌≡◌, ◌<◌, IfOk, OnOk, [], ◌∷◌, length, map};
ghost use Rattle.lfg_model.specs.Lists.{In};
ghost use Rattle.lfg_rulegraph.specs.Followers.{AreEmpty, Pushed};
ghost use Rattle.lfg_templates.specs.Graphs.{Tied, Reached};
ghost use Rattle.lfg_grammar.specs.Reach.{IsReached, IsTableOf, Marks, turned};
ghost use Rattle.lfg_grammar.specs.declared.reach.Link.{Link};

use std::alloc::{AllocError, Global};

/// A link from one number to another.
#[derive(Clone, Copy, Debug, Drop)]
pub(crate) struct Link {
    pub from: usize,
    pub to: usize,
}

/// This many empty lists.
fn empty_lists(alloc: Global, size: usize) -> Result<Vec<Vec<usize>>, AllocError>
    ensures length { IfOk result (λ lists. length lists.items ≡ size) }
    ensures empty { IfOk result (λ lists. AreEmpty lists.items) }
{
    let mut lists = Vec::new(alloc);
    for _place in 0..size {
        lists.push(Vec::new(alloc))?;
    }
    Ok(lists)
}

/// Puts the number into the list at this place.
fn push_at(lists: &mut Vec<Vec<usize>>, place: usize, number: usize) -> Result<(), AllocError>
    requires { place < length lists.old.items }
    ensures length { length lists.new.items ≡ length lists.old.items }
    ensures pushed { OnOk result (Pushed lists.old.items place number lists.new.items) }
{
    lists[place].push(number)?;
    Ok(())
}

/// For each number below the size the numbers that it is linked to.
pub(crate) fn table_of(
    alloc: Global,
    size: usize,
    links: &[Link],
) -> Result<Vec<Vec<usize>>, AllocError>
    requires { (l : Link) → In l links.now → l.from < size }
    ensures length { IfOk result (λ next. length next.items ≡ size) }
    ensures table { IfOk result (λ next. IsTableOf links.now next.items) }
{
    let mut next = empty_lists(alloc, size)?;
    for link in links {
        push_at(&mut next, link.from, link.to)?;
    }
    Ok(next)
}

/// Each link the other way.
pub(crate) fn turned(alloc: Global, links: &[Link]) -> Result<Vec<Link>, AllocError>
    ensures { IfOk result (λ back. back.items ≡ map turned links.now) }
{
    links
        .iter()
        .map(|link| Link {
            from: link.to,
            to: link.from,
        })
        .collect(alloc)
}

/// Marks the number, if it has a place, and appends it where it was not marked.
fn mark(number: usize, marks: &mut Vec<bool>, found: &mut Vec<usize>) -> Result<(), AllocError>
    requires { Tied (length marks.old.items) marks.old.items found.old.items }
    ensures tied { OnOk result (Tied (length marks.old.items) marks.new.items found.new.items) }
    ensures reached { OnOk result (Reached (length marks.old.items) (number ∷ []) found.old.items found.new.items) }
{
    if number >= marks.len() {
        return Ok(());
    }
    if marks[number] {
        return Ok(());
    }
    marks[number] = true;
    found.push(number)?;
    Ok(())
}

/// Marks each of the numbers, and appends those that were not marked.
fn mark_all(
    numbers: &[usize],
    marks: &mut Vec<bool>,
    found: &mut Vec<usize>,
) -> Result<(), AllocError>
    requires { Tied (length marks.old.items) marks.old.items found.old.items }
    ensures tied { OnOk result (Tied (length marks.old.items) marks.new.items found.new.items) }
    ensures reached { OnOk result (Reached (length marks.old.items) numbers.now found.old.items found.new.items) }
{
    for number in numbers {
        mark(*number, marks, found)?;
    }
    Ok(())
}

/// A mark for each number of the table: whether it is a start, or a start leads to it. Each list is
/// read once at most.
pub(crate) fn reached(
    alloc: Global,
    next: &[Vec<usize>],
    starts: &[usize],
) -> Result<Vec<bool>, AllocError>
    ensures { IfOk result (λ marks. Marks (length next.now) (IsReached next.now starts.now) marks.items) }
{
    let mut marks = vec![in alloc; false; next.len()]?;
    let mut found = Vec::new(alloc);
    mark_all(starts, &mut marks, &mut found)?;
    let mut at = 0;
    while at < found.len() {
        let number = found[at];
        at += 1;
        mark_all(&next[number], &mut marks, &mut found)?;
    }
    Ok(marks)
}
