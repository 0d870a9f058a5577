ghost use Rattle.std.specs.Prelude.{◌≡◌, ◌↔◌, ◌+◌, ◌<◌, ◌≤◌, IsTrue};
ghost use Rattle.std.specs.Ordering.{nat_cmp};
ghost use Rattle.std.specs.List.Sorted.{IsStrictlySortedBy};
ghost use Rattle.lfg_model.specs.Derive.{CanEnd, CanFollow};
ghost use Rattle.lfg_model.specs.Graphs.{IsGraph};
ghost use Rattle.lfg_model.specs.Lists.{In};

use lfg_terms::{Graph, Steps};
use std::sync::ledger::Ledger;

/// Whether the item is one of these, which ascend.
fn is_among(items: &[u32], item: u32) -> bool
    requires { IsStrictlySortedBy nat_cmp items.now }
    ensures { IsTrue result ↔ In item items.now }
{
    items.binary_search(&item).is_ok()
}

/// Whether item `p` may follow item `q`, or begin a row where `q` is 0. Takes one step, and no
/// memory.
pub fn follows<L: Ledger>(graph: &Graph, q: u32, p: u32, steps: &mut Steps<L>) -> bool
    requires graph { IsGraph graph.now }
    requires before { q ≤ graph.now.size }
    requires first { 1 ≤ p }
    requires item { p ≤ graph.now.size }
    ensures follows { IsTrue result ↔ CanFollow graph.now q p }
    ensures step { steps.new ≡ steps.old + 1 }
{
    steps.tick();
    if q == 0 {
        return is_among(graph.first.list(), p);
    }
    is_among(graph.next.list()[q as usize - 1].list(), p)
}

/// Whether a row may end behind item `q`. Takes no memory.
pub fn ends(graph: &Graph, q: u32) -> bool
    requires graph { IsGraph graph.now }
    requires first { 1 ≤ q }
    requires item { q ≤ graph.now.size }
    ensures { IsTrue result ↔ CanEnd graph.now q }
{
    graph.last.list()[q as usize - 1]
}
