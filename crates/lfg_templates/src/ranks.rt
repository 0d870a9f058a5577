ghost use Rattle.std.specs.Prelude.{◌≡◌, IfOk, IsTrue, ℕ, ◌<◌, map};
ghost use Rattle.lfg_model.specs.Lists.{In};
ghost use Rattle.lfg_templates.specs.Ranks.{RanksBelow, RanksFall, RanksRise, rank_of};

use std::alloc::{AllocError, Global};

/// For each place those that it follows in the table.
pub(crate) fn turned(alloc: Global, rows: &[Vec<usize>]) -> Result<Vec<Vec<usize>>, AllocError> {
    let mut back = Vec::new(alloc);
    for _row in rows {
        back.push(Vec::new(alloc))?;
    }
    for (place, row) in rows.iter().enumerate() {
        for next in row {
            if let Some(list) = back.get_mut(*next) {
                list.push(place)?;
            }
        }
    }
    Ok(back)
}

/// Takes one from the count of each place of the row, and appends those whose count is 0 then.
fn count_down(
    row: &[usize],
    left: &mut Vec<usize>,
    ready: &mut Vec<usize>,
) -> Result<(), AllocError> {
    for place in row {
        if let Some(count) = left.get_mut(*place) {
            *count = count.saturating_sub(1);
            if *count == 0 {
                ready.push(*place)?;
            }
        }
    }
    Ok(())
}

/// Ranks for the places of a table, from its rows and from the same links the other way: each place
/// from which no cycle is reached has a rank above those that follow it, and the others have 0
/// (topological order, after Kahn 1962). `ranks_fall` and `ranks_rise` check them.
fn ranks_from(
    alloc: Global,
    rows: &[Vec<usize>],
    back: &[Vec<usize>],
) -> Result<Vec<usize>, AllocError> {
    let mut left = Vec::new(alloc);
    let mut ready = Vec::new(alloc);
    for (place, row) in rows.iter().enumerate() {
        left.push(row.len())?;
        if row.is_empty() {
            ready.push(place)?;
        }
    }
    let mut ranks = vec![in alloc; 0; rows.len()]?;
    for at in 0..rows.len() {
        let Some(place) = ready.get(at).copied() else {
            break;
        };
        if let Some(rank) = ranks.get_mut(place) {
            *rank = at + 1;
        }
        if let Some(row) = back.get(place) {
            count_down(row, &mut left, &mut ready)?;
        }
    }
    Ok(ranks)
}

/// The rank at this place, or 0 where there is none.
pub(crate) fn rank_of(ranks: &[usize], place: usize) -> usize
    ensures { result ≡ rank_of ranks.now place }
{
    match ranks.get(place) {
        Some(rank) => *rank,
        None => 0,
    }
}

/// Whether the place with the first rank has one, and a lower one than this.
fn is_below(below: usize, rank: usize) -> bool
    ensures { IsTrue result → (0 < below) × (below < rank) }
{
    below > 0 && below < rank
}

/// Whether the first rank is one, and lower than the other, if that is one.
fn rises_to(rank: usize, above: usize) -> bool
    ensures { IsTrue result → 0 < above → (0 < rank) × (rank < above) }
{
    above == 0 || is_below(rank, above)
}

/// Whether each place of the row has a rank below this one, if this is one.
fn row_falls(row: &[usize], ranks: &[usize], rank: usize) -> bool
    ensures { IsTrue result → (j : ℕ) → In j row.now → 0 < rank → RanksBelow ranks.now rank j }
{
    if rank == 0 {
        return true;
    }
    for place in row {
        if !is_below(rank_of(ranks, *place), rank) {
            return false;
        }
    }
    true
}

/// Whether this rank is below that of each place of the row that has one.
fn row_rises(row: &[usize], ranks: &[usize], rank: usize) -> bool
    ensures { IsTrue result → (j : ℕ) → In j row.now → 0 < rank_of ranks.now j → (0 < rank) × (rank < rank_of ranks.now j) }
{
    for place in row {
        if !rises_to(rank, rank_of(ranks, *place)) {
            return false;
        }
    }
    true
}

/// Whether what follows a place with a rank has a lower rank.
fn ranks_fall(rows: &[Vec<usize>], ranks: &[usize]) -> bool
    ensures { IsTrue result → RanksFall (map (λ r. r.items) rows.now) ranks.now }
{
    for (place, row) in rows.iter().enumerate() {
        if !row_falls(row, ranks, rank_of(ranks, place)) {
            return false;
        }
    }
    true
}

/// Whether what a place with a rank follows has a lower rank.
fn ranks_rise(rows: &[Vec<usize>], ranks: &[usize]) -> bool
    ensures { IsTrue result → RanksRise (map (λ r. r.items) rows.now) ranks.now }
{
    for (place, row) in rows.iter().enumerate() {
        if !row_rises(row, ranks, rank_of(ranks, place)) {
            return false;
        }
    }
    true
}

/// Ranks of the places that fall along the rows. A place from which a cycle is reached has none.
pub(crate) fn falling_ranks(
    alloc: Global,
    rows: &[Vec<usize>],
    back: &[Vec<usize>],
) -> Result<Vec<usize>, AllocError>
    ensures { IfOk result (λ ranks. RanksFall (map (λ r. r.items) rows.now) ranks.items) }
{
    let ranks = ranks_from(alloc, rows, back)?;
    if ranks_fall(rows, &ranks) {
        return Ok(ranks);
    }
    Ok(Vec::new(alloc))
}

/// Ranks of the places that rise along the rows. A place that is reached from a cycle has none.
pub(crate) fn rising_ranks(
    alloc: Global,
    rows: &[Vec<usize>],
    back: &[Vec<usize>],
) -> Result<Vec<usize>, AllocError>
    ensures { IfOk result (λ ranks. RanksRise (map (λ r. r.items) rows.now) ranks.items) }
{
    let ranks = ranks_from(alloc, back, rows)?;
    if ranks_rise(rows, &ranks) {
        return Ok(ranks);
    }
    Ok(Vec::new(alloc))
}
