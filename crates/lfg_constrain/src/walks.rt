ghost use Rattle.std.specs.Prelude.{◌≡◌, IfOk, OnOk};
ghost use Rattle.lfg_unify.specs.Closures.{place_in};
ghost use Rattle.lfg_context.specs.Sets.{IsMade, AreMade, IsGrown, HasSamePicks};
ghost use Rattle.lfg_constrain.specs.Spots.{IsClosure, Begins, TakesArc, Steps, Follows, FollowsSome};

use crate::spots::{Spot, join, touched, widen};
use lfg_context::{Contexts, Ctx};
use lfg_terms::{Name, Node, Walk};
use lfg_unify::Closure;
use std::alloc::{AllocError, Global};

/// The node, where the set holds and the node is there.
#[tactic(auto, using(crate::proofs::Classes::closed))]
fn begun(
    alloc: Global,
    closure: &Closure,
    start: &Node,
    set: &Ctx,
    contexts: &mut Contexts,
) -> Result<Vec<Spot>, AllocError>
    requires closure { IsClosure contexts.old closure.now }
    requires set { IsMade contexts.old set.now }
    ensures grown { IsGrown contexts.old contexts.new }
    ensures picks { HasSamePicks contexts.old contexts.new }
    ensures spots { IfOk result (λ v. AreMade contexts.new (λ s. s.1) v.items) }
    ensures begins { IfOk result (λ v. Begins closure.now start.now set.now v.items) }
{
    let mut spots = Vec::new(alloc);
    let Some(place) = closure.place_of(start) else {
        return Ok(spots);
    };
    let there = contexts.and(set, closure.equal(start, start))?;
    widen(&mut spots, place, &there, contexts)?;
    Ok(spots)
}

/// Adds where the arc leads to from the spots, if it is one by the name.
#[tactic(auto, using(crate::proofs::Classes::closed))]
fn follow(
    closure: &Closure,
    arc: &(Node, Name, Node, Ctx),
    ends: (usize, usize),
    name: &Name,
    spots: &[Spot],
    found: &mut Vec<Spot>,
    contexts: &mut Contexts,
) -> Result<(), AllocError>
    requires closure { IsClosure contexts.old closure.now }
    requires arc { IsMade contexts.old arc.now.3 }
    requires from { ends.0 ≡ place_in closure.now.nodes arc.now.0 }
    requires to { ends.1 ≡ place_in closure.now.nodes arc.now.2 }
    requires spots { AreMade contexts.old (λ s. s.1) spots.now }
    requires found { AreMade contexts.old (λ s. s.1) found.old.items }
    ensures grown { IsGrown contexts.old contexts.new }
    ensures picks { HasSamePicks contexts.old contexts.new }
    ensures found { OnOk result (AreMade contexts.new (λ s. s.1) found.new.items) }
    ensures takes { OnOk result (TakesArc closure.now spots.now name.now arc.now found.old.items found.new.items) }
{
    if arc.1 != *name {
        return Ok(());
    }
    let there = touched(closure, spots, ends.0, &arc.3, contexts)?;
    widen(found, ends.1, &there, contexts)?;
    Ok(())
}

/// Where the arcs by the name lead to from the spots.
#[tactic(auto, using(crate::proofs::Classes::closed))]
fn step(
    alloc: Global,
    closure: &Closure,
    name: &Name,
    spots: &[Spot],
    contexts: &mut Contexts,
) -> Result<Vec<Spot>, AllocError>
    requires closure { IsClosure contexts.old closure.now }
    requires spots { AreMade contexts.old (λ s. s.1) spots.now }
    ensures grown { IsGrown contexts.old contexts.new }
    ensures picks { HasSamePicks contexts.old contexts.new }
    ensures spots { IfOk result (λ v. AreMade contexts.new (λ s. s.1) v.items) }
    ensures steps { IfOk result (λ v. Steps closure.now closure.now.arcs spots.now name.now v.items) }
{
    let mut found = Vec::new(alloc);
    let arcs = closure.arcs();
    let places = closure.arc_places();
    for number in 0..arcs.len() {
        let arc = &arcs[number];
        follow(
            closure,
            arc,
            places[number],
            name,
            spots,
            &mut found,
            contexts,
        )?;
    }
    Ok(found)
}

/// Where the path leads to from the node, within the set.
#[tactic(auto, using(crate::proofs::Classes::closed))]
fn walk(
    alloc: Global,
    closure: &Closure,
    start: &Node,
    set: &Ctx,
    path: &[Name],
    contexts: &mut Contexts,
) -> Result<Vec<Spot>, AllocError>
    requires closure { IsClosure contexts.old closure.now }
    requires set { IsMade contexts.old set.now }
    ensures grown { IsGrown contexts.old contexts.new }
    ensures picks { HasSamePicks contexts.old contexts.new }
    ensures spots { IfOk result (λ v. AreMade contexts.new (λ s. s.1) v.items) }
    ensures follows { IfOk result (λ v. Follows closure.now start.now set.now path.now v.items) }
{
    let mut spots = begun(alloc, closure, start, set, contexts)?;
    for name in path {
        spots = step(alloc, closure, name, &spots, contexts)?;
    }
    Ok(spots)
}

/// Where the walk leads to, along any of its paths, within the set.
#[tactic(auto, using(crate::proofs::Classes::closed))]
pub(crate) fn reached(
    alloc: Global,
    closure: &Closure,
    way: &Walk,
    set: &Ctx,
    contexts: &mut Contexts,
) -> Result<Vec<Spot>, AllocError>
    requires closure { IsClosure contexts.old closure.now }
    requires set { IsMade contexts.old set.now }
    ensures grown { IsGrown contexts.old contexts.new }
    ensures picks { HasSamePicks contexts.old contexts.new }
    ensures spots { IfOk result (λ v. AreMade contexts.new (λ s. s.1) v.items) }
    ensures follows { IfOk result (λ v. FollowsSome closure.now way.now.start set.now way.now.paths v.items) }
{
    let mut found = Vec::new(alloc);
    for path in way.paths.list() {
        let spots = walk(alloc, closure, &way.start, set, path.list(), contexts)?;
        join(&mut found, &spots, contexts)?;
    }
    Ok(found)
}
