ghost use Rattle.std.specs.Prelude.{◌≡◌, OnOk};
ghost use Rattle.lfg_context.specs.Sets.{IsMade, AreMade, IsGrown, HasSamePicks};
ghost use Rattle.lfg_context.specs.Telling.{InSome};
ghost use Rattle.lfg_unify.specs.Closures.{place_in};
ghost use Rattle.lfg_facts.specs.Adding.{IsClosure, Adds};
ghost use Rattle.lfg_facts.specs.Naming.{AreTableSets};
ghost use Rattle.lfg_facts.specs.Stating.{AreEntries, IsArcFact, IsMemberFact};

use crate::names::{Named, names_in};
use crate::pairs::{Entry, push_related};
use lfg_context::{Contexts, Ctx};
use lfg_terms::{List, Name, Node};
use lfg_unify::Closure;
use std::alloc::{AllocError, Global};

/// Adds the facts of the arc, whose source and target stand at the places, within the set.
#[tactic(auto, using(crate::proofs::Classes::closed))]
fn push_arc(
    alloc: Global,
    closure: &Closure,
    table: &[List<Named>],
    arc: &(Node, Name, Node, Ctx),
    source: usize,
    target: usize,
    good: &Ctx,
    facts: &mut Vec<Entry>,
    contexts: &mut Contexts,
) -> Result<(), AllocError>
    requires closure { IsClosure contexts.old closure.now }
    requires table { AreTableSets contexts.old table.now }
    requires arc { IsMade contexts.old arc.now.3 }
    requires source { source ≡ place_in closure.now.nodes arc.now.0 }
    requires target { target ≡ place_in closure.now.nodes arc.now.2 }
    requires good { IsMade contexts.old good.now }
    requires facts { AreEntries contexts.old facts.old.items }
    ensures grown { IsGrown contexts.old contexts.new }
    ensures picks { HasSamePicks contexts.old contexts.new }
    ensures facts { OnOk result (AreEntries contexts.new facts.new.items) }
    ensures adds { OnOk result (Adds facts.old.items facts.new.items (λ f. IsArcFact closure.now table.now good.now f arc.now)) }
{
    let _ = closure;
    let sources = names_in(table, source);
    let targets = names_in(table, target);
    push_related(
        alloc, &arc.1, sources, targets, good, &arc.3, facts, contexts,
    )?;
    Ok(())
}

/// Adds the facts of the arcs, within the set.
#[tactic(auto, using(crate::proofs::Classes::closed))]
pub(crate) fn push_arcs(
    alloc: Global,
    closure: &Closure,
    table: &[List<Named>],
    good: &Ctx,
    facts: &mut Vec<Entry>,
    contexts: &mut Contexts,
) -> Result<(), AllocError>
    requires closure { IsClosure contexts.old closure.now }
    requires table { AreTableSets contexts.old table.now }
    requires good { IsMade contexts.old good.now }
    requires facts { AreEntries contexts.old facts.old.items }
    ensures grown { IsGrown contexts.old contexts.new }
    ensures picks { HasSamePicks contexts.old contexts.new }
    ensures facts { OnOk result (AreEntries contexts.new facts.new.items) }
    ensures adds { OnOk result (Adds facts.old.items facts.new.items (λ f. InSome closure.now.arcs (IsArcFact closure.now table.now good.now f))) }
{
    let arcs = closure.arcs();
    let places = closure.arc_places();
    for number in 0..arcs.len() {
        let arc = &arcs[number];
        push_arc(
            alloc,
            closure,
            table,
            arc,
            places[number].0,
            places[number].1,
            good,
            facts,
            contexts,
        )?;
    }
    Ok(())
}

/// Adds the facts of the member, which stands with its set at the places, within the set of
/// assignments.
#[tactic(auto, using(crate::proofs::Classes::closed))]
fn push_member(
    alloc: Global,
    closure: &Closure,
    table: &[List<Named>],
    member: &(Node, Node, Ctx),
    item: usize,
    set: usize,
    good: &Ctx,
    facts: &mut Vec<Entry>,
    contexts: &mut Contexts,
) -> Result<(), AllocError>
    requires closure { IsClosure contexts.old closure.now }
    requires table { AreTableSets contexts.old table.now }
    requires made { IsMade contexts.old member.now.2 }
    requires item { item ≡ place_in closure.now.nodes member.now.0 }
    requires set { set ≡ place_in closure.now.nodes member.now.1 }
    requires good { IsMade contexts.old good.now }
    requires facts { AreEntries contexts.old facts.old.items }
    ensures grown { IsGrown contexts.old contexts.new }
    ensures picks { HasSamePicks contexts.old contexts.new }
    ensures facts { OnOk result (AreEntries contexts.new facts.new.items) }
    ensures adds { OnOk result (Adds facts.old.items facts.new.items (λ f. IsMemberFact closure.now table.now good.now f member.now)) }
{
    let _ = closure;
    let relation = Name::new(alloc, "in_set")?;
    let items = names_in(table, item);
    let sets = names_in(table, set);
    push_related(
        alloc, &relation, items, sets, good, &member.2, facts, contexts,
    )?;
    Ok(())
}

/// Adds the facts of the members, within the set.
#[tactic(auto, using(crate::proofs::Classes::closed))]
pub(crate) fn push_members(
    alloc: Global,
    closure: &Closure,
    table: &[List<Named>],
    good: &Ctx,
    facts: &mut Vec<Entry>,
    contexts: &mut Contexts,
) -> Result<(), AllocError>
    requires closure { IsClosure contexts.old closure.now }
    requires table { AreTableSets contexts.old table.now }
    requires good { IsMade contexts.old good.now }
    requires facts { AreEntries contexts.old facts.old.items }
    ensures grown { IsGrown contexts.old contexts.new }
    ensures picks { HasSamePicks contexts.old contexts.new }
    ensures facts { OnOk result (AreEntries contexts.new facts.new.items) }
    ensures adds { OnOk result (Adds facts.old.items facts.new.items (λ f. InSome closure.now.members (IsMemberFact closure.now table.now good.now f))) }
{
    let members = closure.members();
    let places = closure.member_places();
    for number in 0..members.len() {
        let member = &members[number];
        push_member(
            alloc,
            closure,
            table,
            member,
            places[number].0,
            places[number].1,
            good,
            facts,
            contexts,
        )?;
    }
    Ok(())
}
