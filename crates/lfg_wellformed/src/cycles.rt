ghost use Rattle.std.specs.Prelude.{◌≡◌, ◌↔◌, ◌<◌, ℕ, true, List, ◌++◌, length, slice_index_or, map, IfOk, OnOk, IsTrue};
ghost use Rattle.lfg_terms.specs.declared.literal.Literal.{Literal};
ghost use Rattle.lfg_model.specs.Lists.{In};
ghost use Rattle.lfg_model.specs.Solve.{solution, IsAcyclic};
ghost use Rattle.lfg_context.specs.Seen.{Set};
ghost use Rattle.lfg_context.specs.Sets.{Assignment, member, IsMade, AreMade, IsGrown, HasSamePicks};
ghost use Rattle.lfg_context.specs.Telling.{Tells, Excludes, InSome};
ghost use Rattle.lfg_unify.specs.Closures.{place_in, IsClosureOf};
ghost use Rattle.lfg_unify.specs.Holding.{holding};
ghost use Rattle.lfg_wellformed.specs.Asked.{IsClosure};
ghost use Rattle.lfg_wellformed.specs.Steps.{arc_step, member_step, steps_of, LeadsOn, StepsOn, IsIn, TellsEach, AreLasting, EntryLeads, AddsStep, AreWithin, IsOn};

use lfg_context::{Contexts, Ctx};
use lfg_terms::{Name, Node};
use lfg_unify::Closure;
use std::alloc::{AllocError, Global};

/// A step down from a place to a place, with its context.
type Step = ((usize, usize), Ctx);

/// The step along the arc.
fn along(
    closure: &Closure,
    arc: &(Node, Name, Node, Ctx),
    ends: (usize, usize),
) -> Result<Step, AllocError>
    requires from { ends.0 ≡ place_in closure.now.nodes arc.now.0 }
    requires to { ends.1 ≡ place_in closure.now.nodes arc.now.2 }
    ensures { IfOk result (λ s. s ≡ arc_step closure.now arc.now) }
{
    let _ = closure;
    Ok((ends, arc.3.share()?))
}

/// The step from the set to the member.
fn into(
    closure: &Closure,
    member: &(Node, Node, Ctx),
    ends: (usize, usize),
) -> Result<Step, AllocError>
    requires item { ends.0 ≡ place_in closure.now.nodes member.now.0 }
    requires set { ends.1 ≡ place_in closure.now.nodes member.now.1 }
    ensures { IfOk result (λ s. s ≡ member_step closure.now member.now) }
{
    let _ = closure;
    Ok(((ends.1, ends.0), member.2.share()?))
}

/// Adds the steps along arcs.
fn push_arc_steps(steps: &mut Vec<Step>, closure: &Closure) -> Result<(), AllocError>
    ensures { OnOk result (steps.new.items ≡ steps.old.items ++ map (arc_step closure.now) closure.now.arcs) }
{
    let arcs = closure.arcs();
    let places = closure.arc_places();
    for number in 0..arcs.len() {
        let step = along(closure, &arcs[number], places[number])?;
        steps.push(step)?;
    }
    Ok(())
}

/// Adds the steps from sets to their members.
fn push_member_steps(steps: &mut Vec<Step>, closure: &Closure) -> Result<(), AllocError>
    ensures { OnOk result (steps.new.items ≡ steps.old.items ++ map (member_step closure.now) closure.now.members) }
{
    let members = closure.members();
    let places = closure.member_places();
    for number in 0..members.len() {
        let step = into(closure, &members[number], places[number])?;
        steps.push(step)?;
    }
    Ok(())
}

/// The steps along arcs, and those from sets to their members.
fn steps(alloc: Global, closure: &Closure) -> Result<Vec<Step>, AllocError>
    ensures { IfOk result (λ v. v.items ≡ steps_of closure.now) }
{
    let mut steps = Vec::new(alloc);
    push_arc_steps(&mut steps, closure)?;
    push_member_steps(&mut steps, closure)?;
    Ok(steps)
}

/// The set, so many times.
fn copies(alloc: Global, count: usize, set: &Ctx) -> Result<Vec<Ctx>, AllocError>
    ensures len { IfOk result (λ v. length v.items ≡ count) }
    ensures each { IfOk result (λ v. (x : Set) → In x v.items → x ≡ set.now) }
{
    let mut copies = Vec::new(alloc);
    for _place in 0..count {
        copies.push(set.share()?)?;
    }
    Ok(copies)
}

/// Where the entry of a row holds, and so does the set at its place.
#[tactic(auto, using(crate::proofs::Classes::closed))]
fn entry_leads(
    entry: &(usize, Ctx),
    sets: &[Ctx],
    contexts: &mut Contexts,
) -> Result<Ctx, AllocError>
    requires place { entry.now.0 < length sets.now }
    requires entry { IsMade contexts.old entry.now.1 }
    requires sets { AreMade contexts.old (λ s. s) sets.now }
    ensures grown { IsGrown contexts.old contexts.new }
    ensures picks { HasSamePicks contexts.old contexts.new }
    ensures made { IfOk result (λ z. IsMade contexts.new z) }
    ensures tells { IfOk result (λ z. (none : Set) → Tells z (EntryLeads none sets.now entry.now)) }
{
    let set = &sets[entry.0];
    let both = contexts.and(&entry.1, set)?;
    Ok(both)
}

/// Where one of the sets has a place that is equal to this one.
#[tactic(auto, using(crate::proofs::Classes::closed))]
fn leads_on(
    closure: &Closure,
    place: usize,
    sets: &[Ctx],
    contexts: &mut Contexts,
) -> Result<Ctx, AllocError>
    requires closure { IsClosure contexts.old closure.now }
    requires place { place < length closure.now.nodes }
    requires len { length sets.now ≡ length closure.now.nodes }
    requires sets { AreMade contexts.old (λ s. s) sets.now }
    ensures grown { IsGrown contexts.old contexts.new }
    ensures picks { HasSamePicks contexts.old contexts.new }
    ensures made { IfOk result (λ z. IsMade contexts.new z) }
    ensures tells { IfOk result (λ z. Tells z (LeadsOn closure.now (IsIn closure.now.empty sets.now) place)) }
{
    let mut found = contexts.no();
    let row = closure.equals(place);
    for entry in row {
        let one = entry_leads(entry, sets, contexts)?;
        found = contexts.or(&found, &one)?;
    }
    Ok(found)
}

/// Whether the step is between places below the count.
fn is_within(step: &Step, count: usize) -> bool
    ensures { IsTrue result ↔ ((step.now.0.0 < count) × (step.now.0.1 < count)) }
{
    step.0.0 < count && step.0.1 < count
}

/// Adds the step at the place from which it leads, where it leads on to one of the sets.
#[tactic(auto, using(crate::proofs::Classes::closed))]
fn add_step(
    closure: &Closure,
    step: &Step,
    sets: &[Ctx],
    longer: &mut Vec<Ctx>,
    contexts: &mut Contexts,
) -> Result<(), AllocError>
    requires closure { IsClosure contexts.old closure.now }
    requires step { IsMade contexts.old step.now.1 }
    requires within { (a : Assignment) → member step.now.1 a ≡ true → (step.now.0.0 < length closure.now.nodes) × (step.now.0.1 < length closure.now.nodes) }
    requires len { length sets.now ≡ length closure.now.nodes }
    requires sets { AreMade contexts.old (λ s. s) sets.now }
    requires longer_len { length longer.old.items ≡ length closure.now.nodes }
    requires longer { AreMade contexts.old (λ s. s) longer.old.items }
    ensures grown { IsGrown contexts.old contexts.new }
    ensures picks { HasSamePicks contexts.old contexts.new }
    ensures made { OnOk result (AreMade contexts.new (λ s. s) longer.new.items) }
    ensures adds { OnOk result (AddsStep closure.now step.now (IsIn closure.now.empty sets.now) longer.old.items longer.new.items) }
{
    if !is_within(step, sets.len()) {
        return Ok(());
    }
    let next = leads_on(closure, step.0.1, sets, contexts)?;
    let both = contexts.and(&step.1, &next)?;
    let wider = contexts.or(&longer[step.0.0], &both)?;
    longer[step.0.0] = wider;
    Ok(())
}

/// From which places a step leads to one of the sets.
#[tactic(auto, using(crate::proofs::Classes::closed))]
fn longer(
    alloc: Global,
    closure: &Closure,
    steps: &[Step],
    sets: &[Ctx],
    contexts: &mut Contexts,
) -> Result<Vec<Ctx>, AllocError>
    requires closure { IsClosure contexts.old closure.now }
    requires steps { AreMade contexts.old (λ s. s.1) steps.now }
    requires within { AreWithin closure.now steps.now }
    requires len { length sets.now ≡ length closure.now.nodes }
    requires sets { AreMade contexts.old (λ s. s) sets.now }
    ensures grown { IsGrown contexts.old contexts.new }
    ensures picks { HasSamePicks contexts.old contexts.new }
    ensures made { IfOk result (λ v. AreMade contexts.new (λ s. s) v.items) }
    ensures tells { IfOk result (λ v. TellsEach (length closure.now.nodes) (StepsOn closure.now steps.now (IsIn closure.now.empty sets.now)) v.items) }
{
    let none = contexts.no();
    let mut more = copies(alloc, sets.len(), &none)?;
    for step in steps {
        add_step(closure, step, sets, &mut more, contexts)?;
    }
    Ok(more)
}

/// Whether the sets at each place have the same members.
fn all_same(first: &[Ctx], second: &[Ctx], contexts: &Contexts) -> bool
    requires first { AreMade contexts.now (λ s. s) first.now }
    requires second { AreMade contexts.now (λ s. s) second.now }
    requires len { length first.now ≡ length second.now }
    ensures { IsTrue result → (j : ℕ) (d : Set) (a : Assignment) → j < length first.now → member (slice_index_or first.now j d) a ≡ member (slice_index_or second.now j d) a }
{
    for place in 0..first.len() {
        if !contexts.same(&first[place], &second[place]) {
            return false;
        }
    }
    true
}

/// From which places as many steps can be taken as there are places.
#[tactic(auto, using(crate::proofs::Classes::closed))]
fn lasting(
    alloc: Global,
    closure: &Closure,
    steps: &[Step],
    contexts: &mut Contexts,
) -> Result<Vec<Ctx>, AllocError>
    requires closure { IsClosure contexts.old closure.now }
    requires all { steps.now ≡ steps_of closure.now }
    requires steps { AreMade contexts.old (λ s. s.1) steps.now }
    requires within { AreWithin closure.now steps.now }
    ensures grown { IsGrown contexts.old contexts.new }
    ensures picks { HasSamePicks contexts.old contexts.new }
    ensures made { IfOk result (λ v. AreMade contexts.new (λ s. s) v.items) }
    ensures lasting { IfOk result (λ v. AreLasting closure.now (length closure.now.nodes) v.items) }
{
    let yes = contexts.yes();
    let count = closure.nodes().len();
    let mut sets = copies(alloc, count, &yes)?;
    for _turn in 0..count {
        let more = longer(alloc, closure, steps, &sets, contexts)?;
        if all_same(&sets, &more, contexts) {
            return Ok(more);
        }
        sets = more;
    }
    Ok(sets)
}

/// The union of the sets.
#[tactic(auto, using(crate::proofs::Classes::closed))]
fn anywhere(sets: &[Ctx], contexts: &mut Contexts) -> Result<Ctx, AllocError>
    requires sets { AreMade contexts.old (λ s. s) sets.now }
    ensures grown { IsGrown contexts.old contexts.new }
    ensures picks { HasSamePicks contexts.old contexts.new }
    ensures made { IfOk result (λ z. IsMade contexts.new z) }
    ensures tells { IfOk result (λ z. Tells z (InSome sets.now IsOn)) }
{
    let mut found = contexts.no();
    for set in sets {
        found = contexts.or(&found, set)?;
    }
    Ok(found)
}

/// The assignments at which the solution has a cycle: a class there reaches itself by arcs and by steps
/// from sets to their members.
///
/// # Errors
///
/// Only for want of memory. Each earlier set is then as before, and so are the picks.
#[tactic(auto, using(crate::proofs::Classes::closed))]
pub fn cyclic(alloc: Global, closure: &Closure, contexts: &mut Contexts) -> Result<Ctx, AllocError>
    requires closure { IsClosure contexts.old closure.now }
    ensures made { IfOk result (λ z. IsMade contexts.new z) }
    ensures fails { IfOk result (λ z. (literals : List (Literal × Set)) → IsClosureOf contexts.old literals closure.now → Excludes z (λ a. IsAcyclic (solution (holding literals a)))) }
    ensures grown { IsGrown contexts.old contexts.new }
    ensures picks { HasSamePicks contexts.old contexts.new }
{
    let steps = steps(alloc, closure)?;
    let sets = lasting(alloc, closure, &steps, contexts)?;
    let found = anywhere(&sets, contexts)?;
    Ok(found)
}
