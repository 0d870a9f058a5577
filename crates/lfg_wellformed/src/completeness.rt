ghost use Rattle.std.specs.Prelude.{◌≡◌, IfOk, List};
ghost use Rattle.lfg_model.specs.Solve.{solution, IsComplete};
ghost use Rattle.lfg_context.specs.Sets.{IsMade, IsGrown, HasSamePicks};
ghost use Rattle.lfg_context.specs.Telling.{Tells, Excludes, InSome, OfAll};
ghost use Rattle.lfg_unify.specs.Closures.{place_in, IsClosureOf};
ghost use Rattle.lfg_unify.specs.Holding.{holding};
ghost use Rattle.lfg_wellformed.specs.Asked.{IsClosure, IsFilling, NeedsFilled, NeedsArc, HasFunctions, CompletesValue, CompletesArc};
ghost use Rattle.lfg_terms.specs.declared.literal.Literal.{Literal};
ghost use Rattle.lfg_context.specs.Seen.{Set};

use crate::arcs::{PRED, has_arc, has_content, leads_by};
use lfg_context::{Contexts, Ctx};
use lfg_model::Constant;
use lfg_terms::{Form, Name, Node};
use lfg_unify::Closure;
use std::alloc::{AllocError, Global};

/// Where the arc is one by the name from the class of the node at the place, and leads to a class with a
/// PRED arc or a member.
#[tactic(auto, using(crate::proofs::Classes::closed))]
fn filling(
    closure: &Closure,
    place: usize,
    name: &str,
    arc: &(Node, Name, Node, Ctx),
    ends: (usize, usize),
    contexts: &mut Contexts,
) -> Result<Ctx, AllocError>
    requires closure { IsClosure contexts.old closure.now }
    requires arc { IsMade contexts.old arc.now.3 }
    requires from { ends.0 ≡ place_in closure.now.nodes arc.now.0 }
    requires to { ends.1 ≡ place_in closure.now.nodes arc.now.2 }
    ensures grown { IsGrown contexts.old contexts.new }
    ensures picks { HasSamePicks contexts.old contexts.new }
    ensures made { IfOk result (λ z. IsMade contexts.new z) }
    ensures tells { IfOk result (λ z. Tells z (IsFilling closure.now place name.now arc.now)) }
{
    let here = leads_by(closure, place, name, arc, ends.0, contexts)?;
    if contexts.is_empty(&here) {
        return Ok(here);
    }
    let content = has_content(closure, ends.1, contexts)?;
    let all = contexts.and(&here, &content)?;
    Ok(all)
}

/// Where the class of the node at the place has an arc by the name to a class with a PRED arc or a
/// member.
#[tactic(auto, using(crate::proofs::Classes::closed))]
fn filled(
    closure: &Closure,
    place: usize,
    name: &str,
    contexts: &mut Contexts,
) -> Result<Ctx, AllocError>
    requires closure { IsClosure contexts.old closure.now }
    ensures grown { IsGrown contexts.old contexts.new }
    ensures picks { HasSamePicks contexts.old contexts.new }
    ensures made { IfOk result (λ z. IsMade contexts.new z) }
    ensures tells { IfOk result (λ z. Tells z (InSome closure.now.arcs (IsFilling closure.now place name.now))) }
{
    let mut found = contexts.no();
    let arcs = closure.arcs();
    let places = closure.arc_places();
    for number in 0..arcs.len() {
        let arc = &arcs[number];
        let one = filling(closure, place, name, arc, places[number], contexts)?;
        found = contexts.or(&found, &one)?;
    }
    Ok(found)
}

/// Where the set holds and the class of the node at the place lacks one of the functions, or has it
/// by arcs alone to classes with neither a PRED arc nor a member.
#[tactic(auto, using(crate::proofs::Classes::closed))]
fn unfilled(
    closure: &Closure,
    names: &[Name],
    place: usize,
    set: &Ctx,
    contexts: &mut Contexts,
) -> Result<Ctx, AllocError>
    requires closure { IsClosure contexts.old closure.now }
    requires set { IsMade contexts.old set.now }
    ensures grown { IsGrown contexts.old contexts.new }
    ensures picks { HasSamePicks contexts.old contexts.new }
    ensures made { IfOk result (λ z. IsMade contexts.new z) }
    ensures tells { IfOk result (λ z. Excludes z (OfAll names.now (NeedsFilled closure.now place set.now))) }
{
    let mut found = contexts.no();
    for name in names {
        let has = filled(closure, place, name.text(), contexts)?;
        let lacks = contexts.without(set, &has)?;
        found = contexts.or(&found, &lacks)?;
    }
    Ok(found)
}

/// Where the set holds and the class of the node at the place lacks one of the functions.
#[tactic(auto, using(crate::proofs::Classes::closed))]
fn missing(
    closure: &Closure,
    names: &[Name],
    place: usize,
    set: &Ctx,
    contexts: &mut Contexts,
) -> Result<Ctx, AllocError>
    requires closure { IsClosure contexts.old closure.now }
    requires set { IsMade contexts.old set.now }
    ensures grown { IsGrown contexts.old contexts.new }
    ensures picks { HasSamePicks contexts.old contexts.new }
    ensures made { IfOk result (λ z. IsMade contexts.new z) }
    ensures tells { IfOk result (λ z. Excludes z (OfAll names.now (NeedsArc closure.now place set.now))) }
{
    let mut found = contexts.no();
    for name in names {
        let has = has_arc(closure, place, name.text(), contexts)?;
        let lacks = contexts.without(set, &has)?;
        found = contexts.or(&found, &lacks)?;
    }
    Ok(found)
}

/// Where the set holds and the class of the node at the place lacks a function of the form.
#[tactic(auto, using(crate::proofs::Classes::closed))]
fn lacking(
    closure: &Closure,
    form: &Form,
    place: usize,
    set: &Ctx,
    contexts: &mut Contexts,
) -> Result<Ctx, AllocError>
    requires closure { IsClosure contexts.old closure.now }
    requires set { IsMade contexts.old set.now }
    ensures grown { IsGrown contexts.old contexts.new }
    ensures picks { HasSamePicks contexts.old contexts.new }
    ensures made { IfOk result (λ z. IsMade contexts.new z) }
    ensures tells { IfOk result (λ z. Excludes z (HasFunctions closure.now place set.now form.now)) }
{
    let inner = unfilled(closure, form.inner.list(), place, set, contexts)?;
    let outer = missing(closure, form.outer.list(), place, set, contexts)?;
    let all = contexts.or(&inner, &outer)?;
    Ok(all)
}

/// Where the arc leads to the value, and the class that it leaves lacks a function of that.
#[tactic(auto, using(crate::proofs::Classes::closed))]
fn incomplete_value(
    closure: &Closure,
    arc: &(Node, Name, Node, Ctx),
    ends: (usize, usize),
    value: &(Node, Constant, Ctx),
    place: usize,
    contexts: &mut Contexts,
) -> Result<Ctx, AllocError>
    requires closure { IsClosure contexts.old closure.now }
    requires arc { IsMade contexts.old arc.now.3 }
    requires value { IsMade contexts.old value.now.2 }
    requires from { ends.0 ≡ place_in closure.now.nodes arc.now.0 }
    requires to { ends.1 ≡ place_in closure.now.nodes arc.now.2 }
    requires place { place ≡ place_in closure.now.nodes value.now.0 }
    ensures grown { IsGrown contexts.old contexts.new }
    ensures picks { HasSamePicks contexts.old contexts.new }
    ensures made { IfOk result (λ z. IsMade contexts.new z) }
    ensures tells { IfOk result (λ z. Excludes z (CompletesValue closure.now arc.now value.now)) }
{
    let Constant::Form { form, .. } = &value.1 else {
        return Ok(contexts.no());
    };
    let both = contexts.and(&arc.3, &value.2)?;
    let here = contexts.and(&both, closure.equal_at(ends.1, place))?;
    if contexts.is_empty(&here) {
        return Ok(here);
    }
    let lacks = lacking(closure, form, ends.0, &here, contexts)?;
    Ok(lacks)
}

/// Where the arc is PRED and leads to some form, and the class that it leaves lacks a function of that.
#[tactic(auto, using(crate::proofs::Classes::closed))]
fn incomplete_arc(
    closure: &Closure,
    arc: &(Node, Name, Node, Ctx),
    ends: (usize, usize),
    contexts: &mut Contexts,
) -> Result<Ctx, AllocError>
    requires closure { IsClosure contexts.old closure.now }
    requires arc { IsMade contexts.old arc.now.3 }
    requires from { ends.0 ≡ place_in closure.now.nodes arc.now.0 }
    requires to { ends.1 ≡ place_in closure.now.nodes arc.now.2 }
    ensures grown { IsGrown contexts.old contexts.new }
    ensures picks { HasSamePicks contexts.old contexts.new }
    ensures made { IfOk result (λ z. IsMade contexts.new z) }
    ensures tells { IfOk result (λ z. Excludes z (CompletesArc closure.now arc.now)) }
{
    if arc.1.text() != PRED {
        return Ok(contexts.no());
    }
    let mut found = contexts.no();
    let values = closure.values();
    let places = closure.value_places();
    for number in 0..values.len() {
        let value = &values[number];
        let one = incomplete_value(closure, arc, ends, value, places[number], contexts)?;
        found = contexts.or(&found, &one)?;
    }
    Ok(found)
}

/// The assignments at which the solution is not complete: a form there names a function that its
/// class lacks, or one inside its angle brackets whose class has neither PRED nor a member.
///
/// # Errors
///
/// Only for want of memory. Each earlier set is then as before, and so are the picks.
#[tactic(auto, using(crate::proofs::Classes::closed))]
pub fn incomplete(
    alloc: Global,
    closure: &Closure,
    contexts: &mut Contexts,
) -> Result<Ctx, AllocError>
    requires closure { IsClosure contexts.old closure.now }
    ensures made { IfOk result (λ z. IsMade contexts.new z) }
    ensures fails { IfOk result (λ z. (literals : List (Literal × Set)) → IsClosureOf contexts.old literals closure.now → Excludes z (λ a. IsComplete (solution (holding literals a)))) }
    ensures grown { IsGrown contexts.old contexts.new }
    ensures picks { HasSamePicks contexts.old contexts.new }
{
    let _ = alloc;
    let mut found = contexts.no();
    let arcs = closure.arcs();
    let places = closure.arc_places();
    for number in 0..arcs.len() {
        let arc = &arcs[number];
        let one = incomplete_arc(closure, arc, places[number], contexts)?;
        found = contexts.or(&found, &one)?;
    }
    Ok(found)
}
