ghost use Rattle.std.specs.Prelude.{◌≡◌, ◌↔◌, List, IfOk, IsTrue};
ghost use Rattle.lfg_terms.specs.declared.literal.Literal.{Literal};
ghost use Rattle.lfg_model.specs.Solve.{solution, IsCoherent};
ghost use Rattle.lfg_context.specs.Seen.{Set};
ghost use Rattle.lfg_context.specs.Sets.{IsMade, IsGrown, HasSamePicks};
ghost use Rattle.lfg_context.specs.Telling.{Tells, Excludes, InSome};
ghost use Rattle.lfg_unify.specs.Closures.{place_in, IsClosureOf};
ghost use Rattle.lfg_unify.specs.Holding.{holding};
ghost use Rattle.lfg_wellformed.specs.Asked.{IsClosure, Names, NamesAt, IsNaming, IsExempt, CoheresAt};

use crate::arcs::{PRED, has_arc, has_member, is_among, leads_by};
use lfg_context::{Contexts, Ctx};
use lfg_model::Constant;
use lfg_terms::{Form, Name, Node};
use lfg_unify::Closure;
use std::alloc::{AllocError, Global};

/// Whether the form names the function.
fn names(form: &Form, function: &Name) -> bool
    ensures { IsTrue result ↔ Names form.now function.now }
{
    if is_among(form.inner.list(), function) {
        return true;
    }
    is_among(form.outer.list(), function)
}

/// Where the value is one of the class of the node at the place, and a form that names the function.
#[tactic(auto, using(crate::proofs::Classes::closed))]
fn named_by(
    closure: &Closure,
    value: &(Node, Constant, Ctx),
    at: usize,
    place: usize,
    function: &Name,
    contexts: &mut Contexts,
) -> Result<Ctx, AllocError>
    requires closure { IsClosure contexts.old closure.now }
    requires value { IsMade contexts.old value.now.2 }
    requires at { at ≡ place_in closure.now.nodes value.now.0 }
    ensures grown { IsGrown contexts.old contexts.new }
    ensures picks { HasSamePicks contexts.old contexts.new }
    ensures made { IfOk result (λ z. IsMade contexts.new z) }
    ensures tells { IfOk result (λ z. Tells z (NamesAt closure.now place function.now value.now)) }
{
    let Constant::Form { form, .. } = &value.1 else {
        return Ok(contexts.no());
    };
    if !names(form, function) {
        return Ok(contexts.no());
    }
    let all = contexts.and(&value.2, closure.equal_at(place, at))?;
    Ok(all)
}

/// Where the class of the node at the place has a form that names the function.
#[tactic(auto, using(crate::proofs::Classes::closed))]
fn named(
    closure: &Closure,
    place: usize,
    function: &Name,
    contexts: &mut Contexts,
) -> Result<Ctx, AllocError>
    requires closure { IsClosure contexts.old closure.now }
    ensures grown { IsGrown contexts.old contexts.new }
    ensures picks { HasSamePicks contexts.old contexts.new }
    ensures made { IfOk result (λ z. IsMade contexts.new z) }
    ensures tells { IfOk result (λ z. Tells z (InSome closure.now.values (NamesAt closure.now place function.now))) }
{
    let mut found = contexts.no();
    let values = closure.values();
    let places = closure.value_places();
    for number in 0..values.len() {
        let value = &values[number];
        let one = named_by(closure, value, places[number], place, function, contexts)?;
        found = contexts.or(&found, &one)?;
    }
    Ok(found)
}

/// Where the arc is PRED, leaves the class of the node at the place, and leads to a form that names the
/// function.
#[tactic(auto, using(crate::proofs::Classes::closed))]
fn naming(
    closure: &Closure,
    arc: &(Node, Name, Node, Ctx),
    ends: (usize, usize),
    place: usize,
    function: &Name,
    contexts: &mut Contexts,
) -> Result<Ctx, AllocError>
    requires closure { IsClosure contexts.old closure.now }
    requires arc { IsMade contexts.old arc.now.3 }
    requires from { ends.0 ≡ place_in closure.now.nodes arc.now.0 }
    requires to { ends.1 ≡ place_in closure.now.nodes arc.now.2 }
    ensures grown { IsGrown contexts.old contexts.new }
    ensures picks { HasSamePicks contexts.old contexts.new }
    ensures made { IfOk result (λ z. IsMade contexts.new z) }
    ensures tells { IfOk result (λ z. Tells z (IsNaming closure.now place function.now arc.now)) }
{
    let here = leads_by(closure, place, PRED, arc, ends.0, contexts)?;
    if contexts.is_empty(&here) {
        return Ok(here);
    }
    let there = named(closure, ends.1, function, contexts)?;
    let all = contexts.and(&here, &there)?;
    Ok(all)
}

/// Where the form of the class of the node at the place names the function.
#[tactic(auto, using(crate::proofs::Classes::closed))]
fn governed(
    closure: &Closure,
    place: usize,
    function: &Name,
    contexts: &mut Contexts,
) -> Result<Ctx, AllocError>
    requires closure { IsClosure contexts.old closure.now }
    ensures grown { IsGrown contexts.old contexts.new }
    ensures picks { HasSamePicks contexts.old contexts.new }
    ensures made { IfOk result (λ z. IsMade contexts.new z) }
    ensures tells { IfOk result (λ z. Tells z (InSome closure.now.arcs (IsNaming closure.now place function.now))) }
{
    let mut found = contexts.no();
    let arcs = closure.arcs();
    let places = closure.arc_places();
    for number in 0..arcs.len() {
        let arc = &arcs[number];
        let one = naming(closure, arc, places[number], place, function, contexts)?;
        found = contexts.or(&found, &one)?;
    }
    Ok(found)
}

/// Where the class of the node at the place has a member and no PRED arc.
#[tactic(auto, using(crate::proofs::Classes::closed))]
fn exempt(closure: &Closure, place: usize, contexts: &mut Contexts) -> Result<Ctx, AllocError>
    requires closure { IsClosure contexts.old closure.now }
    ensures grown { IsGrown contexts.old contexts.new }
    ensures picks { HasSamePicks contexts.old contexts.new }
    ensures made { IfOk result (λ z. IsMade contexts.new z) }
    ensures tells { IfOk result (λ z. Tells z (IsExempt closure.now place)) }
{
    let set = has_member(closure, place, contexts)?;
    let form = has_arc(closure, place, PRED, contexts)?;
    let free = contexts.without(&set, &form)?;
    Ok(free)
}

/// Where the arc holds, its function is governable, no form of the class that it leaves names it, and
/// that class is no set without PRED.
#[tactic(auto, using(crate::proofs::Classes::closed))]
fn incoherent_arc(
    closure: &Closure,
    governable: &[Name],
    arc: &(Node, Name, Node, Ctx),
    from: usize,
    contexts: &mut Contexts,
) -> Result<Ctx, AllocError>
    requires closure { IsClosure contexts.old closure.now }
    requires arc { IsMade contexts.old arc.now.3 }
    requires from { from ≡ place_in closure.now.nodes arc.now.0 }
    ensures grown { IsGrown contexts.old contexts.new }
    ensures picks { HasSamePicks contexts.old contexts.new }
    ensures made { IfOk result (λ z. IsMade contexts.new z) }
    ensures tells { IfOk result (λ z. Excludes z (CoheresAt closure.now governable.now arc.now)) }
{
    if !is_among(governable, &arc.1) {
        return Ok(contexts.no());
    }
    let by_form = governed(closure, from, &arc.1, contexts)?;
    let left = contexts.without(&arc.3, &by_form)?;
    if contexts.is_empty(&left) {
        return Ok(left);
    }
    let free = exempt(closure, from, contexts)?;
    let fails = contexts.without(&left, &free)?;
    Ok(fails)
}

/// The assignments at which the solution is not coherent: a class there has a governable function
/// that its form does not name, and is not a set with a member and without PRED.
///
/// # Errors
///
/// Only for want of memory. Each earlier set is then as before, and so are the picks.
#[tactic(auto, using(crate::proofs::Classes::closed))]
pub fn incoherent(
    alloc: Global,
    closure: &Closure,
    governable: &[Name],
    contexts: &mut Contexts,
) -> Result<Ctx, AllocError>
    requires closure { IsClosure contexts.old closure.now }
    ensures made { IfOk result (λ z. IsMade contexts.new z) }
    ensures fails { IfOk result (λ z. (literals : List (Literal × Set)) → IsClosureOf contexts.old literals closure.now → Excludes z (λ a. IsCoherent (solution (holding literals a)) governable.now)) }
    ensures grown { IsGrown contexts.old contexts.new }
    ensures picks { HasSamePicks contexts.old contexts.new }
{
    let _ = alloc;
    let mut found = contexts.no();
    let arcs = closure.arcs();
    let places = closure.arc_places();
    for number in 0..arcs.len() {
        let arc = &arcs[number];
        let one = incoherent_arc(closure, governable, arc, places[number].0, contexts)?;
        found = contexts.or(&found, &one)?;
    }
    Ok(found)
}
