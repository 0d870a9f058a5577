ghost use Rattle.std.specs.Prelude.{◌≡◌, true, IfOk, OnOk};
ghost use Rattle.lfg_context.specs.Sets.{member, IsMade, AreMade, IsGrown, HasSamePicks};
ghost use Rattle.lfg_context.specs.Telling.{InSome};
ghost use Rattle.lfg_unify.specs.Closures.{place_in};
ghost use Rattle.lfg_facts.specs.Adding.{IsClosure, Adds};
ghost use Rattle.lfg_facts.specs.Naming.{AreTableSets};
ghost use Rattle.lfg_facts.specs.Stating.{AreEntries, function_fact, IsFunctionIn, IsFormOf, IsFormFact, IsValueFact, IsPredFact};

use crate::names::{Named, names_in};
use crate::pairs::Entry;
use lfg_context::{Contexts, Ctx};
use lfg_model::Constant;
use lfg_terms::{Arg, Fact, Form, List, Name, Node};
use lfg_unify::Closure;
use std::alloc::{AllocError, Global};

/// The attribute whose value is a semantic form.
const PRED: &str = "PRED";

/// The fact that the relation holds between the name, the number and the function.
fn function_fact(
    alloc: Global,
    relation: &str,
    name: &Arg,
    number: usize,
    function: &Name,
) -> Result<Fact, AllocError>
    ensures { IfOk result (λ it. it ≡ function_fact relation.now name.now number function.now) }
{
    let number = number.to_string(alloc)?;
    let number = Arg::Atom(Name::new(alloc, number.as_str())?);
    let function = Arg::Atom(function.clone()?);
    Ok(Fact {
        rel: Name::new(alloc, relation)?,
        args: List::new(alloc, vec![in alloc; name.clone()?, number, function]?)?,
    })
}

/// Adds the fact that the relation holds between the name, the number and the function, within the
/// set.
#[tactic(auto, using(crate::proofs::Classes::closed))]
fn push_function(
    alloc: Global,
    relation: &str,
    name: &Arg,
    number: usize,
    function: &Name,
    here: &Ctx,
    facts: &mut Vec<Entry>,
    contexts: &Contexts,
) -> Result<(), AllocError>
    requires here { IsMade contexts.now here.now }
    requires facts { AreEntries contexts.now facts.old.items }
    ensures facts { OnOk result (AreEntries contexts.now facts.new.items) }
    ensures adds { OnOk result (Adds facts.old.items facts.new.items (λ f a. (f ≡ function_fact relation.now name.now number function.now) × (member here.now a ≡ true))) }
{
    if contexts.is_empty(here) {
        return Ok(());
    }
    let fact = function_fact(alloc, relation, name, number, function)?;
    facts.push((fact, here.share()?))?;
    Ok(())
}

/// Adds the facts of the functions, numbered from 1, beside the name, within the set.
#[tactic(auto, using(crate::proofs::Classes::closed))]
fn push_functions(
    alloc: Global,
    relation: &str,
    functions: &[Name],
    name: &Arg,
    here: &Ctx,
    facts: &mut Vec<Entry>,
    contexts: &Contexts,
) -> Result<(), AllocError>
    requires here { IsMade contexts.now here.now }
    requires facts { AreEntries contexts.now facts.old.items }
    ensures facts { OnOk result (AreEntries contexts.now facts.new.items) }
    ensures adds { OnOk result (Adds facts.old.items facts.new.items (IsFunctionIn relation.now functions.now name.now here.now)) }
{
    for place in 0..functions.len() {
        let function = &functions[place];
        push_function(
            alloc,
            relation,
            name,
            place + 1,
            function,
            here,
            facts,
            contexts,
        )?;
    }
    Ok(())
}

/// Adds the facts of the functions of the form beside the name, within the set.
#[tactic(auto, using(crate::proofs::Classes::closed))]
fn push_named(
    alloc: Global,
    form: &Form,
    name: &Named,
    here: &Ctx,
    facts: &mut Vec<Entry>,
    contexts: &mut Contexts,
) -> Result<(), AllocError>
    requires name { IsMade contexts.old name.now.1 }
    requires here { IsMade contexts.old here.now }
    requires facts { AreEntries contexts.old facts.old.items }
    ensures grown { IsGrown contexts.old contexts.new }
    ensures picks { HasSamePicks contexts.old contexts.new }
    ensures facts { OnOk result (AreEntries contexts.new facts.new.items) }
    ensures adds { OnOk result (Adds facts.old.items facts.new.items (λ f. IsFormOf form.now here.now f name.now)) }
{
    let both = contexts.and(here, &name.1)?;
    push_functions(
        alloc,
        "arg",
        form.inner.list(),
        &name.0,
        &both,
        facts,
        contexts,
    )?;
    push_functions(
        alloc,
        "nonarg",
        form.outer.list(),
        &name.0,
        &both,
        facts,
        contexts,
    )?;
    Ok(())
}

/// Adds the facts of the functions of the form beside each of the names, within the set.
#[tactic(auto, using(crate::proofs::Classes::closed))]
fn push_form(
    alloc: Global,
    form: &Form,
    names: &[Named],
    here: &Ctx,
    facts: &mut Vec<Entry>,
    contexts: &mut Contexts,
) -> Result<(), AllocError>
    requires names { AreMade contexts.old (λ n. n.1) names.now }
    requires here { IsMade contexts.old here.now }
    requires facts { AreEntries contexts.old facts.old.items }
    ensures grown { IsGrown contexts.old contexts.new }
    ensures picks { HasSamePicks contexts.old contexts.new }
    ensures facts { OnOk result (AreEntries contexts.new facts.new.items) }
    ensures adds { OnOk result (Adds facts.old.items facts.new.items (IsFormFact form.now names.now here.now)) }
{
    for name in names {
        push_named(alloc, form, name, here, facts, contexts)?;
    }
    Ok(())
}

/// Adds the facts of the value beside each of the names, if it is a form, where it holds of an equal
/// of the node at the place, within the set.
#[tactic(auto, using(crate::proofs::Classes::closed))]
fn push_value(
    alloc: Global,
    closure: &Closure,
    place: usize,
    value: &(Node, Constant, Ctx),
    value_place: usize,
    names: &[Named],
    here: &Ctx,
    facts: &mut Vec<Entry>,
    contexts: &mut Contexts,
) -> Result<(), AllocError>
    requires closure { IsClosure contexts.old closure.now }
    requires value { IsMade contexts.old value.now.2 }
    requires at { value_place ≡ place_in closure.now.nodes value.now.0 }
    requires names { AreMade contexts.old (λ n. n.1) names.now }
    requires here { IsMade contexts.old here.now }
    requires facts { AreEntries contexts.old facts.old.items }
    ensures grown { IsGrown contexts.old contexts.new }
    ensures picks { HasSamePicks contexts.old contexts.new }
    ensures facts { OnOk result (AreEntries contexts.new facts.new.items) }
    ensures adds { OnOk result (Adds facts.old.items facts.new.items (λ f. IsValueFact closure.now place names.now here.now f value.now)) }
{
    let Constant::Form { form, .. } = &value.1 else {
        return Ok(());
    };
    let held = contexts.and(closure.equal_at(place, value_place), &value.2)?;
    let all = contexts.and(here, &held)?;
    push_form(alloc, form, names, &all, facts, contexts)?;
    Ok(())
}

/// Adds the facts of the forms of the class of the node at the place beside each of the names, within
/// the set.
#[tactic(auto, using(crate::proofs::Classes::closed))]
fn push_values(
    alloc: Global,
    closure: &Closure,
    place: usize,
    names: &[Named],
    here: &Ctx,
    facts: &mut Vec<Entry>,
    contexts: &mut Contexts,
) -> Result<(), AllocError>
    requires closure { IsClosure contexts.old closure.now }
    requires names { AreMade contexts.old (λ n. n.1) names.now }
    requires here { IsMade contexts.old here.now }
    requires facts { AreEntries contexts.old facts.old.items }
    ensures grown { IsGrown contexts.old contexts.new }
    ensures picks { HasSamePicks contexts.old contexts.new }
    ensures facts { OnOk result (AreEntries contexts.new facts.new.items) }
    ensures adds { OnOk result (Adds facts.old.items facts.new.items (λ f. InSome closure.now.values (IsValueFact closure.now place names.now here.now f))) }
{
    let values = closure.values();
    let places = closure.value_places();
    for number in 0..values.len() {
        let value = &values[number];
        push_value(
            alloc,
            closure,
            place,
            value,
            places[number],
            names,
            here,
            facts,
            contexts,
        )?;
    }
    Ok(())
}

/// Adds the facts of the forms of the target beside the names of the source, if the arc is one by
/// PRED, within the set. The source and the target stand at the places.
#[tactic(auto, using(crate::proofs::Classes::closed))]
fn push_pred(
    alloc: Global,
    closure: &Closure,
    table: &[List<Named>],
    arc: &(Node, Name, Node, Ctx),
    source: usize,
    target: usize,
    good: &Ctx,
    facts: &mut Vec<Entry>,
    contexts: &mut Contexts,
) -> Result<(), AllocError>
    requires closure { IsClosure contexts.old closure.now }
    requires arc { IsMade contexts.old arc.now.3 }
    requires table { AreTableSets contexts.old table.now }
    requires source { source ≡ place_in closure.now.nodes arc.now.0 }
    requires target { target ≡ place_in closure.now.nodes arc.now.2 }
    requires good { IsMade contexts.old good.now }
    requires facts { AreEntries contexts.old facts.old.items }
    ensures grown { IsGrown contexts.old contexts.new }
    ensures picks { HasSamePicks contexts.old contexts.new }
    ensures facts { OnOk result (AreEntries contexts.new facts.new.items) }
    ensures adds { OnOk result (Adds facts.old.items facts.new.items (λ f. IsPredFact closure.now table.now good.now f arc.now)) }
{
    if arc.1.text() != PRED {
        return Ok(());
    }
    let here = contexts.and(good, &arc.3)?;
    let names = names_in(table, source);
    push_values(alloc, closure, target, names, &here, facts, contexts)?;
    Ok(())
}

/// Adds the facts of the functions that forms name, within the set.
#[tactic(auto, using(crate::proofs::Classes::closed))]
pub(crate) fn push_preds(
    alloc: Global,
    closure: &Closure,
    table: &[List<Named>],
    good: &Ctx,
    facts: &mut Vec<Entry>,
    contexts: &mut Contexts,
) -> Result<(), AllocError>
    requires closure { IsClosure contexts.old closure.now }
    requires table { AreTableSets contexts.old table.now }
    requires good { IsMade contexts.old good.now }
    requires facts { AreEntries contexts.old facts.old.items }
    ensures grown { IsGrown contexts.old contexts.new }
    ensures picks { HasSamePicks contexts.old contexts.new }
    ensures facts { OnOk result (AreEntries contexts.new facts.new.items) }
    ensures adds { OnOk result (Adds facts.old.items facts.new.items (λ f. InSome closure.now.arcs (IsPredFact closure.now table.now good.now f))) }
{
    let arcs = closure.arcs();
    let places = closure.arc_places();
    for number in 0..arcs.len() {
        let arc = &arcs[number];
        push_pred(
            alloc,
            closure,
            table,
            arc,
            places[number].0,
            places[number].1,
            good,
            facts,
            contexts,
        )?;
    }
    Ok(())
}
