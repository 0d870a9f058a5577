ghost use Rattle.std.specs.Prelude.{◌≡◌, ◌<◌, ℕ, [], length, slice_get, slice_index_or, Some, true, IfOk, OnOk};
ghost use Rattle.std.specs.List.Sorted.{IsStrictlySortedBy};
ghost use Rattle.lfg_terms.specs.Order.{node_cmp};
ghost use Rattle.lfg_terms.specs.declared.node.Node.{Node};
ghost use Rattle.lfg_terms.specs.declared.node.Arg as arg;
ghost use Rattle.lfg_model.specs.declared.constant.Constant.{Constant};
ghost use Rattle.lfg_context.specs.Seen.{Set};
ghost use Rattle.lfg_context.specs.Sets.{Assignment, member, IsMade, AreMade, IsGrown, HasSamePicks};
ghost use Rattle.lfg_context.specs.Telling.{InSome, Tells};
ghost use Rattle.lfg_unify.specs.Closures.{place_in, Ascends};
ghost use Rattle.lfg_unify.specs.Rows.{row_of};
ghost use Rattle.lfg_facts.specs.Adding.{IsClosure, Adds};
ghost use Rattle.lfg_facts.specs.Naming.{constant_name, IsValueName, Holds, IsNodeName, AreNamesAt, AreNames, AreTableSets, names_in};

use lfg_context::{Contexts, Ctx};
use lfg_model::Constant;
use lfg_terms::{Arg, List, Name, Node};
use lfg_unify::Closure;
use std::alloc::{AllocError, Global};

/// What a class is called, with the sets of assignments at which it is.
pub(crate) type Named = (Arg, Ctx);

/// What a class with the constant is called: the atom, or the name of the form.
fn constant_name(constant: &Constant) -> &Name
    ensures { result.now ≡ constant_name constant.now }
{
    match constant {
        Constant::Atom(atom) => atom,
        Constant::Form { form, .. } => &form.name,
    }
}

/// Adds the name of the value, where it holds of an equal of the node at the place.
#[tactic(auto, using(crate::proofs::Classes::closed))]
fn push_value_name(
    closure: &Closure,
    place: usize,
    value: &(Node, Constant, Ctx),
    value_place: usize,
    names: &mut Vec<Named>,
    contexts: &mut Contexts,
) -> Result<(), AllocError>
    requires closure { IsClosure contexts.old closure.now }
    requires value { IsMade contexts.old value.now.2 }
    requires at { value_place ≡ place_in closure.now.nodes value.now.0 }
    requires names { AreMade contexts.old (λ n. n.1) names.old.items }
    ensures grown { IsGrown contexts.old contexts.new }
    ensures picks { HasSamePicks contexts.old contexts.new }
    ensures names { OnOk result (AreMade contexts.new (λ n. n.1) names.new.items) }
    ensures adds { OnOk result (Adds names.old.items names.new.items (λ c. IsValueName closure.now place c value.now)) }
{
    let both = contexts.and(closure.equal_at(place, value_place), &value.2)?;
    if contexts.is_empty(&both) {
        return Ok(());
    }
    let name = constant_name(&value.1).clone()?;
    names.push((Arg::Atom(name), both))?;
    Ok(())
}

/// The names of the values of the class of the node at the place.
#[tactic(auto, using(crate::proofs::Classes::closed))]
fn value_names(
    alloc: Global,
    closure: &Closure,
    place: usize,
    contexts: &mut Contexts,
) -> Result<Vec<Named>, AllocError>
    requires closure { IsClosure contexts.old closure.now }
    ensures grown { IsGrown contexts.old contexts.new }
    ensures picks { HasSamePicks contexts.old contexts.new }
    ensures names { IfOk result (λ names. AreMade contexts.new (λ n. n.1) names.items) }
    ensures adds { IfOk result (λ names. Adds [] names.items (λ c. InSome closure.now.values (IsValueName closure.now place c))) }
{
    let mut names = Vec::new(alloc);
    let values = closure.values();
    let places = closure.value_places();
    for number in 0..values.len() {
        let value = &values[number];
        push_value_name(closure, place, value, places[number], &mut names, contexts)?;
    }
    Ok(names)
}

/// Where some name of the list holds.
#[tactic(auto, using(crate::proofs::Classes::closed))]
fn named(names: &[Named], contexts: &mut Contexts) -> Result<Ctx, AllocError>
    requires { AreMade contexts.old (λ n. n.1) names.now }
    ensures grown { IsGrown contexts.old contexts.new }
    ensures picks { HasSamePicks contexts.old contexts.new }
    ensures made { IfOk result (λ z. IsMade contexts.new z) }
    ensures tells { IfOk result (λ z. Tells z (InSome names.now Holds)) }
{
    let mut found = contexts.no();
    for name in names {
        found = contexts.or(&found, &name.1)?;
    }
    Ok(found)
}

/// Adds the node as a name, where the set holds.
#[tactic(auto, using(crate::proofs::Classes::closed))]
fn push_node(
    node: &Node,
    ctx: &Ctx,
    names: &mut Vec<Named>,
    contexts: &Contexts,
) -> Result<(), AllocError>
    requires ctx { IsMade contexts.now ctx.now }
    requires names { AreMade contexts.now (λ n. n.1) names.old.items }
    ensures names { OnOk result (AreMade contexts.now (λ n. n.1) names.new.items) }
    ensures adds { OnOk result (Adds names.old.items names.new.items (λ c a. (c ≡ arg.Node node.now) × (member ctx.now a ≡ true))) }
{
    if contexts.is_empty(ctx) {
        return Ok(());
    }
    names.push((Arg::Node(node.clone()?), ctx.share()?))?;
    Ok(())
}

/// Adds the first node of the row at each assignment at which the set does not hold.
#[tactic(auto, using(crate::proofs::Classes::closed))]
fn push_nodes(
    nodes: &[Node],
    row: &[(usize, Ctx)],
    valued: &Ctx,
    names: &mut Vec<Named>,
    contexts: &mut Contexts,
) -> Result<(), AllocError>
    requires ascends { Ascends (length nodes.now) 0 row.now }
    requires row { AreMade contexts.old (λ r. r.1) row.now }
    requires valued { IsMade contexts.old valued.now }
    requires names { AreMade contexts.old (λ n. n.1) names.old.items }
    ensures grown { IsGrown contexts.old contexts.new }
    ensures picks { HasSamePicks contexts.old contexts.new }
    ensures names { OnOk result (AreMade contexts.new (λ n. n.1) names.new.items) }
    ensures adds { OnOk result (Adds names.old.items names.new.items (IsNodeName nodes.now row.now valued.now)) }
{
    let mut before = valued.share()?;
    for entry in row {
        let first = contexts.without(&entry.1, &before)?;
        push_node(&nodes[entry.0], &first, names, contexts)?;
        before = contexts.or(&before, &entry.1)?;
    }
    Ok(())
}

/// What the class of the node at the place is called: by its values, and by its least node where it
/// has none.
#[tactic(auto, using(crate::proofs::Classes::closed))]
fn names_at(
    alloc: Global,
    closure: &Closure,
    place: usize,
    contexts: &mut Contexts,
) -> Result<Vec<Named>, AllocError>
    requires closure { IsClosure contexts.old closure.now }
    requires place { place < length closure.now.nodes }
    ensures grown { IsGrown contexts.old contexts.new }
    ensures picks { HasSamePicks contexts.old contexts.new }
    ensures made { IfOk result (λ names. AreMade contexts.new (λ n. n.1) names.items) }
    ensures called { IfOk result (λ names. AreNamesAt closure.now place names.items) }
{
    let mut names = value_names(alloc, closure, place, contexts)?;
    let valued = named(names.as_slice(), contexts)?;
    push_nodes(
        closure.nodes(),
        closure.equals(place),
        &valued,
        &mut names,
        contexts,
    )?;
    Ok(names)
}

/// The names of all classes, by the places of their nodes.
#[tactic(auto, using(crate::proofs::Classes::closed))]
pub(crate) fn names_of(
    alloc: Global,
    closure: &Closure,
    contexts: &mut Contexts,
) -> Result<Vec<List<Named>>, AllocError>
    requires closure { IsClosure contexts.old closure.now }
    ensures grown { IsGrown contexts.old contexts.new }
    ensures picks { HasSamePicks contexts.old contexts.new }
    ensures made { IfOk result (λ table. AreTableSets contexts.new table.items) }
    ensures called { IfOk result (λ table. AreNames closure.now table.items) }
{
    let mut table = Vec::new(alloc);
    for place in 0..closure.nodes().len() {
        let names = names_at(alloc, closure, place, contexts)?;
        table.push(List::new(alloc, names)?)?;
    }
    Ok(table)
}

/// The names of the class of the node at the place; none behind the end of the table.
pub(crate) fn names_in(table: &[List<Named>], place: usize) -> &[Named]
    ensures { result.now ≡ names_in table.now place }
{
    match table.get(place) {
        Some(names) => names.list(),
        None => &[],
    }
}
