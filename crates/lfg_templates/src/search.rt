ghost use Rattle.std.specs.Prelude.{◌≡◌, ◌<◌, IfOk, OnOk, IsTrue, [], ◌∷◌, false, length, map};
ghost use Rattle.lfg_templates.specs.Graphs.{Walks, Tied, Reached};

use std::alloc::{AllocError, Global};

/// Marks the place, if it is one, and appends it where it was not marked.
fn mark(place: usize, marks: &mut Vec<bool>, reached: &mut Vec<usize>) -> Result<(), AllocError>
    requires { Tied (length marks.old.items) marks.old.items reached.old.items }
    ensures tied { OnOk result (Tied (length marks.old.items) marks.new.items reached.new.items) }
    ensures reached { OnOk result (Reached (length marks.old.items) (place ∷ []) reached.old.items reached.new.items) }
{
    if place >= marks.len() {
        return Ok(());
    }
    if marks[place] {
        return Ok(());
    }
    marks[place] = true;
    reached.push(place)?;
    Ok(())
}

/// Marks each place of the row, and appends those that were not marked.
fn mark_row(
    row: &[usize],
    marks: &mut Vec<bool>,
    reached: &mut Vec<usize>,
) -> Result<(), AllocError>
    requires { Tied (length marks.old.items) marks.old.items reached.old.items }
    ensures tied { OnOk result (Tied (length marks.old.items) marks.new.items reached.new.items) }
    ensures reached { OnOk result (Reached (length marks.old.items) row.now reached.old.items reached.new.items) }
{
    for place in row {
        mark(*place, marks, reached)?;
    }
    Ok(())
}

/// Whether the place leads to itself, at once or through others.
pub(crate) fn leads_back(
    alloc: Global,
    graph: &[Vec<usize>],
    start: usize,
) -> Result<bool, AllocError>
    requires { start < length graph.now }
    ensures yes { IfOk result (λ b. IsTrue b → Walks (map (λ r. r.items) graph.now) start start) }
    ensures no { IfOk result (λ b. b ≡ false → ¬ Walks (map (λ r. r.items) graph.now) start start) }
{
    let mut marks = vec![in alloc; false; graph.len()]?;
    let mut reached = Vec::new(alloc);
    mark_row(&graph[start], &mut marks, &mut reached)?;
    let mut next = 0;
    while next < reached.len() {
        let place = reached[next];
        next += 1;
        mark_row(&graph[place], &mut marks, &mut reached)?;
    }
    Ok(marks[start])
}
