ghost use Rattle.std.specs.Prelude.{◌≡◌, ◌<◌, ℕ, List, length, map, true, false, IfOk};
ghost use Rattle.std.specs.List.{flat_map};
ghost use Rattle.std.specs.List.Sorted.{IsStrictlySortedBy};
ghost use Rattle.lfg_terms.specs.Order.{node_cmp};
ghost use Rattle.lfg_terms.specs.declared.node.Node.{Node};
ghost use Rattle.lfg_terms.specs.declared.literal.Literal.{Literal};
ghost use Rattle.lfg_context.specs.Seen.{Set};
ghost use Rattle.lfg_context.specs.Sets.{AreMade, IsMade, IsGrown, HasSamePicks};
ghost use Rattle.lfg_context.specs.Telling.{InSome, Tells};
ghost use Rattle.lfg_unify.specs.Clashes.{Clashes};
ghost use Rattle.lfg_model.specs.declared.constant.Constant.{Constant};
ghost use Rattle.lfg_model.specs.Lists.{In, Lists};
ghost use Rattle.lfg_unify.specs.Closures.{IsClosureOf};
ghost use Rattle.lfg_unify.specs.Collected.{IsCollected, IsFinished, placed_in, source_in, set_in};
ghost use Rattle.lfg_unify.specs.Closures.{place_in};
ghost use Rattle.lfg_unify.specs.Marks.{found_in};
ghost use Rattle.lfg_unify.specs.Rows.{AreRows};
ghost use Rattle.lfg_unify.specs.Systems.{AreSystemSets, IsSystem};

use crate::clash::{Placed, clash};
use crate::closure::Closure;
use crate::collect::{
    arcs_of, given_pairs, marked, members_of, numbered_arcs, place_or_end, places_of_arcs,
    places_of_members, places_of_values, values_of,
};
use crate::nodes::all_nodes;
use crate::settle::solve;
use crate::system::System;
use crate::table::Table;
use lfg_context::{Contexts, Ctx};
use lfg_model::Constant;
use lfg_terms::{Literal, Name, Node};
use std::alloc::{AllocError, Global};

/// The system of what the literals state, by the places of the nodes, and the arcs between nodes.
#[tactic(auto, using(crate::proofs::ClashLaws::clashing))]
fn collected(
    alloc: Global,
    nodes: &[Node],
    literals: &[(Literal, Ctx)],
    contexts: &mut Contexts,
) -> Result<(System, Vec<(Node, Name, Node, Ctx)>), AllocError>
    requires nodes { Lists node_cmp (λ n. In n (flat_map (λ l. found_in true l.0) literals.now)) nodes.now }
    requires made { AreMade contexts.old (λ l. l.1) literals.now }
    ensures grown { IsGrown contexts.old contexts.new }
    ensures picks { HasSamePicks contexts.old contexts.new }
    ensures collected { IfOk result (λ r. IsCollected nodes.now literals.now r.1.items r.0) }
    ensures system { IfOk result (λ r. IsSystem (length nodes.now) r.0) }
    ensures made { IfOk result (λ r. AreSystemSets contexts.new r.0) }
    ensures arcs_made { IfOk result (λ r. AreMade contexts.new (λ e. e.3) r.1.items) }
{
    let there = marked(alloc, nodes, literals, true, contexts)?;
    let defined = marked(alloc, nodes, literals, false, contexts)?;
    let arcs = arcs_of(alloc, nodes, defined.as_slice())?;
    let numbered = numbered_arcs(alloc, nodes, arcs.as_slice())?;
    let given = given_pairs(alloc, nodes, literals)?;
    let system = System {
        there,
        given,
        arcs: numbered,
    };
    Ok((system, arcs))
}

/// A copy of the constant.
fn copied_constant(constant: &Constant) -> Result<Constant, AllocError>
    ensures { IfOk result (λ c. c ≡ constant.now) }
{
    match constant {
        Constant::Atom(name) => Ok(Constant::Atom(name.clone()?)),
        Constant::Form { form, site, index } => Ok(Constant::Form {
            form: form.clone()?,
            site: site.clone()?,
            index: *index,
        }),
    }
}

/// The values, of places.
fn placed_values(
    alloc: Global,
    nodes: &[Node],
    values: &[(Node, Constant, Ctx)],
) -> Result<Vec<Placed>, AllocError>
    requires { IsStrictlySortedBy node_cmp nodes.now }
    ensures { IfOk result (λ placed. placed.items ≡ map (placed_in nodes.now) values.now) }
{
    let mut placed = Vec::new(alloc);
    for value in values {
        let place = place_or_end(nodes, &value.0);
        let constant = copied_constant(&value.1)?;
        placed.push(((place, constant), value.2.share()?))?;
    }
    Ok(placed)
}

/// The places of the sources of arcs, with the contexts of these.
fn sources_of(
    alloc: Global,
    nodes: &[Node],
    arcs: &[(Node, Name, Node, Ctx)],
) -> Result<Vec<(usize, Ctx)>, AllocError>
    requires { IsStrictlySortedBy node_cmp nodes.now }
    ensures { IfOk result (λ sources. sources.items ≡ map (source_in nodes.now) arcs.now) }
{
    let mut sources = Vec::new(alloc);
    for arc in arcs {
        let place = place_or_end(nodes, &arc.0);
        sources.push((place, arc.3.share()?))?;
    }
    Ok(sources)
}

/// The places of sets, with the contexts of their members.
fn sets_of(
    alloc: Global,
    nodes: &[Node],
    members: &[(Node, Node, Ctx)],
) -> Result<Vec<(usize, Ctx)>, AllocError>
    requires { IsStrictlySortedBy node_cmp nodes.now }
    ensures { IfOk result (λ sets. sets.items ≡ map (set_in nodes.now) members.now) }
{
    let mut sets = Vec::new(alloc);
    for member in members {
        let place = place_or_end(nodes, &member.1);
        sets.push((place, member.2.share()?))?;
    }
    Ok(sets)
}

/// The clash of values.
#[tactic(auto, using(crate::proofs::ClashLaws::clashing))]
fn clash_of_all(
    alloc: Global,
    nodes: &[Node],
    table: &Table,
    arcs: &[(Node, Name, Node, Ctx)],
    values: &[(Node, Constant, Ctx)],
    members: &[(Node, Node, Ctx)],
    contexts: &mut Contexts,
) -> Result<Ctx, AllocError>
    requires sorted { IsStrictlySortedBy node_cmp nodes.now }
    requires count { length table.now ≡ length nodes.now }
    requires places { (v : Node × Constant × Set) → In v values.now → place_in nodes.now v.0 < length nodes.now }
    requires rows { AreRows contexts.old table.now }
    requires arcs { AreMade contexts.old (λ r. r.3) arcs.now }
    requires values { AreMade contexts.old (λ v. v.2) values.now }
    requires members { AreMade contexts.old (λ m. m.2) members.now }
    ensures grown { IsGrown contexts.old contexts.new }
    ensures picks { HasSamePicks contexts.old contexts.new }
    ensures made { IfOk result (λ z. IsMade contexts.new z) }
    ensures tells { IfOk result (λ z. Tells z (InSome (map (placed_in nodes.now) values.now)
        (Clashes table.now (map (placed_in nodes.now) values.now) (map (source_in nodes.now) arcs.now) (map (set_in nodes.now) members.now)))) }
{
    let placed = placed_values(alloc, nodes, values)?;
    let sources = sources_of(alloc, nodes, arcs)?;
    let sets = sets_of(alloc, nodes, members)?;
    let found = clash(
        table,
        placed.as_slice(),
        sources.as_slice(),
        sets.as_slice(),
        contexts,
    )?;
    Ok(found)
}

/// The closure of what was found.
fn finished(
    alloc: Global,
    nodes: Vec<Node>,
    table: Table,
    arcs: Vec<(Node, Name, Node, Ctx)>,
    values: Vec<(Node, Constant, Ctx)>,
    members: Vec<(Node, Node, Ctx)>,
    clash: Ctx,
    empty: Ctx,
) -> Result<Closure, AllocError>
    requires sorted { IsStrictlySortedBy node_cmp nodes.items }
    requires count { length table ≡ length nodes.items }
    ensures { IfOk result (IsFinished nodes.items table arcs.items values.items members.items clash empty) }
{
    let arc_places = places_of_arcs(alloc, nodes.as_slice(), arcs.as_slice())?;
    let value_places = places_of_values(alloc, nodes.as_slice(), values.as_slice())?;
    let member_places = places_of_members(alloc, nodes.as_slice(), members.as_slice())?;
    Ok(Closure {
        nodes,
        table,
        arcs,
        values,
        members,
        arc_places,
        value_places,
        member_places,
        clash,
        empty,
    })
}

/// The closure of the literals: at each assignment the solution of those that hold there. Nothing is
/// handed from a set to its members.
///
/// # Errors
///
/// Only for want of memory. Each earlier set is then as before, and so are the picks.
#[tactic(auto, using(crate::proofs::ClashLaws::clashing))]
pub fn close(
    alloc: Global,
    literals: &[(Literal, Ctx)],
    contexts: &mut Contexts,
) -> Result<Closure, AllocError>
    requires { AreMade contexts.old (λ l. l.1) literals.now }
    ensures grown { IsGrown contexts.old contexts.new }
    ensures picks { HasSamePicks contexts.old contexts.new }
    ensures closure { IfOk result (IsClosureOf contexts.new literals.now) }
{
    let nodes = all_nodes(alloc, literals)?;
    let (system, arcs) = collected(alloc, nodes.as_slice(), literals, contexts)?;
    let table = solve(alloc, &system, nodes.len(), contexts)?;
    let values = values_of(alloc, literals)?;
    let members = members_of(alloc, literals)?;
    let clash = clash_of_all(
        alloc,
        nodes.as_slice(),
        &table,
        arcs.as_slice(),
        values.as_slice(),
        members.as_slice(),
        contexts,
    )?;
    let empty = contexts.no();
    let closure = finished(alloc, nodes, table, arcs, values, members, clash, empty)?;
    Ok(closure)
}
