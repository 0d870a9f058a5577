ghost use Rattle.std.specs.Prelude.{◌≡◌, [], map, IfOk};
ghost use Rattle.std.specs.List.Sorted.{IsStrictlySortedBy};
ghost use Rattle.lfg_terms.specs.Order.{fact_cmp};
ghost use Rattle.lfg_context.specs.Sets.{IsMade, AreMade, IsGrown, HasSamePicks};
ghost use Rattle.lfg_facts.specs.Adding.{IsClosure, Adds, AreSome};
ghost use Rattle.lfg_facts.specs.Naming.{AreTableSets};
ghost use Rattle.lfg_facts.specs.Stating.{AreEntries, IsListed, AreFactsOf};

use crate::arcs::{push_arcs, push_members};
use crate::forms::push_preds;
use crate::merge::merged;
use crate::names::{Named, names_of};
use crate::pairs::Entry;
use lfg_context::{Contexts, Ctx};
use lfg_terms::{Fact, List};
use lfg_unify::Closure;
use std::alloc::{AllocError, Global};

/// The facts of the lists of the closure, within the set, in any order.
#[tactic(auto, using(crate::proofs::Classes::closed))]
fn listed(
    alloc: Global,
    closure: &Closure,
    table: &[List<Named>],
    good: &Ctx,
    contexts: &mut Contexts,
) -> Result<Vec<Entry>, AllocError>
    requires closure { IsClosure contexts.old closure.now }
    requires table { AreTableSets contexts.old table.now }
    requires good { IsMade contexts.old good.now }
    ensures grown { IsGrown contexts.old contexts.new }
    ensures picks { HasSamePicks contexts.old contexts.new }
    ensures made { IfOk result (λ facts. AreEntries contexts.new facts.items) }
    ensures adds { IfOk result (λ facts. Adds [] facts.items (IsListed closure.now table.now good.now)) }
{
    let mut facts = Vec::new(alloc);
    push_arcs(alloc, closure, table, good, &mut facts, contexts)?;
    push_members(alloc, closure, table, good, &mut facts, contexts)?;
    push_preds(alloc, closure, table, good, &mut facts, contexts)?;
    Ok(facts)
}

/// The facts of the f-structures of the closure, each with the set of the good assignments at which
/// it is one: `A(c,t)` for each arc by A from c to t, `in_set(m,s)` for each member m of s, and
/// `arg(c,k,G)` and `nonarg(c,k,G)` for the k-th function inside and behind the angle brackets of a
/// form of c, k counted from 1. A class goes by its atom, by the name of its form, or else by its
/// least node.
///
/// The facts ascend, each comes once, and no set is empty.
///
/// # Errors
///
/// Only for want of memory. Each earlier set is then as before, and so are the picks.
#[tactic(auto, using(crate::proofs::Classes::closed))]
pub fn facts_of(
    alloc: Global,
    closure: &Closure,
    good: &Ctx,
    contexts: &mut Contexts,
) -> Result<Vec<(Fact, Ctx)>, AllocError>
    requires closure { IsClosure contexts.old closure.now }
    requires good { IsMade contexts.old good.now }
    ensures facts { IfOk result (λ facts. AreFactsOf closure.now good.now facts.items) }
    ensures ascends { IfOk result (λ facts. IsStrictlySortedBy fact_cmp (map (λ e. e.0) facts.items)) }
    ensures some { IfOk result (λ facts. AreSome facts.items) }
    ensures made { IfOk result (λ facts. AreMade contexts.new (λ e. e.1) facts.items) }
    ensures grown { IsGrown contexts.old contexts.new }
    ensures picks { HasSamePicks contexts.old contexts.new }
{
    let table = names_of(alloc, closure, contexts)?;
    let entries = listed(alloc, closure, table.as_slice(), good, contexts)?;
    let facts = merged(alloc, entries, contexts)?;
    Ok(facts)
}
