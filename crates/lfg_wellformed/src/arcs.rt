ghost use Rattle.std.specs.Prelude.{◌≡◌, ◌↔◌, ℕ, IfOk, IsTrue};
ghost use Rattle.lfg_model.specs.Lists.{In};
ghost use Rattle.lfg_model.specs.Solve.{pred};
ghost use Rattle.lfg_context.specs.Sets.{IsMade, IsGrown, HasSamePicks};
ghost use Rattle.lfg_context.specs.Telling.{Tells};
ghost use Rattle.lfg_wellformed.specs.Asked.{IsClosure, LeadsBy, HasArcBy, IsMemberIn, HasMemberIn, HasContent};
ghost use Rattle.lfg_unify.specs.Closures.{place_in};

use lfg_context::{Contexts, Ctx};
use lfg_terms::{Name, Node};
use lfg_unify::Closure;
use std::alloc::AllocError;

/// The attribute whose value is a semantic form.
pub(crate) const PRED: &str = "PRED";

/// Whether the name is one of the names.
pub(crate) fn is_among(names: &[Name], name: &Name) -> bool
    ensures { IsTrue result ↔ In name.now names.now }
{
    for other in names {
        if *other == *name {
            return true;
        }
    }
    false
}

/// Where the arc is one by the name, and leaves the class of the node at the place.
#[tactic(auto, using(crate::proofs::Classes::closed))]
pub(crate) fn leads_by(
    closure: &Closure,
    place: usize,
    name: &str,
    arc: &(Node, Name, Node, Ctx),
    from: usize,
    contexts: &mut Contexts,
) -> Result<Ctx, AllocError>
    requires closure { IsClosure contexts.old closure.now }
    requires arc { IsMade contexts.old arc.now.3 }
    requires from { from ≡ place_in closure.now.nodes arc.now.0 }
    ensures grown { IsGrown contexts.old contexts.new }
    ensures picks { HasSamePicks contexts.old contexts.new }
    ensures made { IfOk result (λ z. IsMade contexts.new z) }
    ensures tells { IfOk result (λ z. Tells z (LeadsBy closure.now place name.now arc.now)) }
{
    if arc.1.text() != name {
        return Ok(contexts.no());
    }
    let here = contexts.and(&arc.3, closure.equal_at(place, from))?;
    Ok(here)
}

/// Where the member is one of the class of the node at the place.
#[tactic(auto, using(crate::proofs::Classes::closed))]
fn is_member(
    closure: &Closure,
    place: usize,
    member: &(Node, Node, Ctx),
    set: usize,
    contexts: &mut Contexts,
) -> Result<Ctx, AllocError>
    requires closure { IsClosure contexts.old closure.now }
    requires member { IsMade contexts.old member.now.2 }
    requires set { set ≡ place_in closure.now.nodes member.now.1 }
    ensures grown { IsGrown contexts.old contexts.new }
    ensures picks { HasSamePicks contexts.old contexts.new }
    ensures made { IfOk result (λ z. IsMade contexts.new z) }
    ensures tells { IfOk result (λ z. Tells z (IsMemberIn closure.now place member.now)) }
{
    let here = contexts.and(&member.2, closure.equal_at(place, set))?;
    Ok(here)
}

/// Where the class of the node at the place has an arc by the name.
#[tactic(auto, using(crate::proofs::Classes::closed))]
pub(crate) fn has_arc(
    closure: &Closure,
    place: usize,
    name: &str,
    contexts: &mut Contexts,
) -> Result<Ctx, AllocError>
    requires closure { IsClosure contexts.old closure.now }
    ensures grown { IsGrown contexts.old contexts.new }
    ensures picks { HasSamePicks contexts.old contexts.new }
    ensures made { IfOk result (λ z. IsMade contexts.new z) }
    ensures tells { IfOk result (λ z. Tells z (HasArcBy closure.now place name.now)) }
{
    let mut found = contexts.no();
    let arcs = closure.arcs();
    let places = closure.arc_places();
    for number in 0..arcs.len() {
        let arc = &arcs[number];
        let one = leads_by(closure, place, name, arc, places[number].0, contexts)?;
        found = contexts.or(&found, &one)?;
    }
    Ok(found)
}

/// Where the class of the node at the place has a member.
#[tactic(auto, using(crate::proofs::Classes::closed))]
pub(crate) fn has_member(
    closure: &Closure,
    place: usize,
    contexts: &mut Contexts,
) -> Result<Ctx, AllocError>
    requires closure { IsClosure contexts.old closure.now }
    ensures grown { IsGrown contexts.old contexts.new }
    ensures picks { HasSamePicks contexts.old contexts.new }
    ensures made { IfOk result (λ z. IsMade contexts.new z) }
    ensures tells { IfOk result (λ z. Tells z (HasMemberIn closure.now place)) }
{
    let mut found = contexts.no();
    let members = closure.members();
    let places = closure.member_places();
    for number in 0..members.len() {
        let member = &members[number];
        let one = is_member(closure, place, member, places[number].1, contexts)?;
        found = contexts.or(&found, &one)?;
    }
    Ok(found)
}

/// Where the class of the node at the place has a PRED arc or a member.
#[tactic(auto, using(crate::proofs::Classes::closed))]
pub(crate) fn has_content(
    closure: &Closure,
    place: usize,
    contexts: &mut Contexts,
) -> Result<Ctx, AllocError>
    requires closure { IsClosure contexts.old closure.now }
    ensures grown { IsGrown contexts.old contexts.new }
    ensures picks { HasSamePicks contexts.old contexts.new }
    ensures made { IfOk result (λ z. IsMade contexts.new z) }
    ensures tells { IfOk result (λ z. Tells z (HasContent closure.now place)) }
{
    let form = has_arc(closure, place, PRED, contexts)?;
    let set = has_member(closure, place, contexts)?;
    let all = contexts.or(&form, &set)?;
    Ok(all)
}
