ghost use Rattle.std.specs.Prelude.{◌≡◌, ◌<◌, IfOk, IsTrue, false, length, map};
ghost use Rattle.lfg_templates.specs.Graphs.{Walks};

use crate::ranks::{falling_ranks, rank_of, rising_ranks, turned};
use crate::search::leads_back;
use std::alloc::{AllocError, Global};
use std::marker::Model;

/// For each place those that follow it; with ranks of the places that fall along the rows, and ranks
/// that rise along them. A place with a rank of either is on no cycle.
#[derive(Drop)]
pub(crate) struct Graph {
    rows: Vec<Vec<usize>>,
    falling: Vec<usize>,
    rising: Vec<usize>,
}

impl Model for Graph {
    ghost use Rattle.std.specs.Prelude.{List, ℕ, map};
    ghost use Rattle.lfg_templates.specs.Ranks.{RanksFall, RanksRise};

    ghost Value = { List (List ℕ) };

    ghost view = { λ g. map (λ r. r.items) g.rows.items };

    ghost invariant = { λ g. RanksFall (map (λ r. r.items) g.rows.items) g.falling.items
        × RanksRise (map (λ r. r.items) g.rows.items) g.rising.items };
}

impl Graph {
    /// The graph with these rows.
    pub(crate) fn new(alloc: Global, rows: Vec<Vec<usize>>) -> Result<Graph, AllocError>
        ensures { IfOk result (λ g. g ≡ map (λ r. r.items) rows.items) }
    {
        let back = turned(alloc, &rows)?;
        let falling = falling_ranks(alloc, &rows, &back)?;
        let rising = rising_ranks(alloc, &rows, &back)?;
        Ok(Graph {
            rows,
            falling,
            rising,
        })
    }

    /// Whether the place leads to itself, at once or through others. Only where it is behind one
    /// cycle and before another, or on one, are the rows searched.
    pub(crate) fn leads_back(&self, alloc: Global, start: usize) -> Result<bool, AllocError>
        requires { start < length self.now }
        ensures yes { IfOk result (λ b. IsTrue b → Walks self.now start start) }
        ensures no { IfOk result (λ b. b ≡ false → ¬ Walks self.now start start) }
    {
        if rank_of(&self.falling, start) > 0 {
            return Ok(false);
        }
        if rank_of(&self.rising, start) > 0 {
            return Ok(false);
        }
        leads_back(alloc, &self.rows, start)
    }
}
