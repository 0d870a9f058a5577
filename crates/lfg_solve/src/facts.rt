ghost use Rattle.std.specs.Prelude.{◌≡◌, ◌++◌, IfOk, OnOk};
ghost use Rattle.std.specs.List.{flat_map};
ghost use Rattle.std.specs.Option.{option_copied};
ghost use Rattle.lfg_terms.specs.Order.{fact_cmp};
ghost use Rattle.lfg_model.specs.Lists.{In, Lists};
ghost use Rattle.lfg_solve.specs.NumberedFacts.{arc_facts, constant_facts, constant_name, first_value, function_fact, function_facts, member_facts, name_in, numbered_facts, pair_facts, pred_facts, value_facts};

use crate::classes::Arc;
use crate::conditions::PRED;
use crate::solution::{Membership, Solution, Value};
use lfg_model::Constant;
use lfg_terms::{Arg, Fact, List, Name, Node};
use std::alloc::{AllocError, Global};

/// The first value of the class.
fn first_value(values: &[Value], class: usize) -> Option<&Value>
    ensures { option_copied result ≡ first_value values.now class }
{
    values.iter().find(|value| value.class == class)
}

/// What a class with the constant is called: the atom, or the name of the form.
fn constant_name(constant: &Constant) -> &Name
    ensures { result.now ≡ constant_name constant.now }
{
    match constant {
        Constant::Atom(atom) => atom,
        Constant::Form { form, .. } => &form.name,
    }
}

/// What the class is called: its atom, the name of its form, or else its least node.
fn name_in(values: &[Value], nodes: &[Node], class: usize) -> Result<Option<Arg>, AllocError>
    ensures { IfOk result (λ it. it ≡ name_in values.now nodes.now class) }
{
    if let Some(value) = first_value(values, class) {
        return Ok(Some(Arg::Atom(constant_name(&value.constant).clone()?)));
    }
    match nodes.get(class) {
        Some(node) => Ok(Some(Arg::Node(node.clone()?))),
        None => Ok(None),
    }
}

/// Appends the fact that the relation holds between two classes, if they have names.
fn push_pair(
    alloc: Global,
    facts: &mut Vec<Fact>,
    relation: Name,
    first: Option<Arg>,
    second: Option<Arg>,
) -> Result<(), AllocError>
    ensures { OnOk result (facts.new.items ≡ facts.old.items ++ pair_facts relation first second) }
{
    let Some(first) = first else {
        return Ok(());
    };
    let Some(second) = second else {
        return Ok(());
    };
    facts.push(Fact {
        rel: relation,
        args: List::new(alloc, vec![in alloc; first, second]?)?,
    })?;
    Ok(())
}

/// The fact that the relation holds between a class, the number of a function and the function.
fn function_fact(
    alloc: Global,
    relation: &str,
    named: &Arg,
    number: usize,
    function: &Name,
) -> Result<Fact, AllocError>
    ensures { IfOk result (λ it. it ≡ function_fact relation.now named.now number function.now) }
{
    let number = number.to_string(alloc)?;
    let number = Arg::Atom(Name::new(alloc, number.as_str())?);
    let function = Arg::Atom(function.clone()?);
    Ok(Fact {
        rel: Name::new(alloc, relation)?,
        args: List::new(alloc, vec![in alloc; named.clone()?, number, function]?)?,
    })
}

/// Appends the relation between a class, the number of each function, counted from 1, and the
/// function.
fn push_functions(
    alloc: Global,
    facts: &mut Vec<Fact>,
    relation: &str,
    named: &Arg,
    functions: &[Name],
) -> Result<(), AllocError>
    ensures { OnOk result (facts.new.items
        ≡ facts.old.items ++ function_facts relation.now named.now 0 functions.now) }
{
    for (place, function) in functions.iter().enumerate() {
        facts.push(function_fact(alloc, relation, named, place + 1, function)?)?;
    }
    Ok(())
}

/// Appends the facts on the functions that the constant names, said of a class.
fn push_constant(
    alloc: Global,
    facts: &mut Vec<Fact>,
    named: &Arg,
    constant: &Constant,
) -> Result<(), AllocError>
    ensures { OnOk result (facts.new.items ≡ facts.old.items ++ constant_facts named.now constant.now) }
{
    match constant {
        Constant::Atom(_) => Ok(()),
        Constant::Form { form, .. } => {
            push_functions(alloc, facts, "arg", named, form.inner.list())?;
            push_functions(alloc, facts, "nonarg", named, form.outer.list())
        }
    }
}

/// Appends the facts on the functions that the value names, if it is one of the class `target`.
fn push_value(
    alloc: Global,
    facts: &mut Vec<Fact>,
    named: &Arg,
    target: usize,
    value: &Value,
) -> Result<(), AllocError>
    ensures { OnOk result (facts.new.items ≡ facts.old.items ++ value_facts named.now target value.now) }
{
    if value.class != target {
        return Ok(());
    }
    push_constant(alloc, facts, named, &value.constant)
}

/// Appends the facts on the functions that the values of the class `target` name.
fn push_values(
    alloc: Global,
    facts: &mut Vec<Fact>,
    named: &Arg,
    target: usize,
    values: &[Value],
) -> Result<(), AllocError>
    ensures { OnOk result (facts.new.items
        ≡ facts.old.items ++ flat_map (value_facts named.now target) values.now) }
{
    for value in values {
        push_value(alloc, facts, named, target, value)?;
    }
    Ok(())
}

/// Appends the facts on the functions that the target of the arc names, if the arc is PRED.
fn push_pred(
    alloc: Global,
    facts: &mut Vec<Fact>,
    values: &[Value],
    nodes: &[Node],
    arc: &Arc,
) -> Result<(), AllocError>
    ensures { OnOk result (facts.new.items ≡ facts.old.items ++ pred_facts values.now nodes.now arc.now) }
{
    if arc.attribute.text() != PRED {
        return Ok(());
    }
    let Some(named) = name_in(values, nodes, arc.from)? else {
        return Ok(());
    };
    push_values(alloc, facts, &named, arc.to, values)
}

/// Appends the facts of the arc.
fn push_arc(
    alloc: Global,
    facts: &mut Vec<Fact>,
    values: &[Value],
    nodes: &[Node],
    arc: &Arc,
) -> Result<(), AllocError>
    ensures { OnOk result (facts.new.items ≡ facts.old.items ++ arc_facts values.now nodes.now arc.now) }
{
    let first = name_in(values, nodes, arc.from)?;
    let second = name_in(values, nodes, arc.to)?;
    push_pair(alloc, facts, arc.attribute.clone()?, first, second)?;
    push_pred(alloc, facts, values, nodes, arc)
}

/// Appends the facts of the arcs.
fn push_arcs(
    alloc: Global,
    facts: &mut Vec<Fact>,
    values: &[Value],
    nodes: &[Node],
    arcs: &[Arc],
) -> Result<(), AllocError>
    ensures { OnOk result (facts.new.items
        ≡ facts.old.items ++ flat_map (arc_facts values.now nodes.now) arcs.now) }
{
    for arc in arcs {
        push_arc(alloc, facts, values, nodes, arc)?;
    }
    Ok(())
}

/// Appends the fact of the member.
fn push_member(
    alloc: Global,
    facts: &mut Vec<Fact>,
    values: &[Value],
    nodes: &[Node],
    member: &Membership,
) -> Result<(), AllocError>
    ensures { OnOk result (facts.new.items ≡ facts.old.items ++ member_facts values.now nodes.now member.now) }
{
    let first = name_in(values, nodes, member.item)?;
    let second = name_in(values, nodes, member.set)?;
    push_pair(alloc, facts, Name::new(alloc, "in_set")?, first, second)
}

/// Appends the facts of the members.
fn push_members(
    alloc: Global,
    facts: &mut Vec<Fact>,
    values: &[Value],
    nodes: &[Node],
    members: &[Membership],
) -> Result<(), AllocError>
    ensures { OnOk result (facts.new.items
        ≡ facts.old.items ++ flat_map (member_facts values.now nodes.now) members.now) }
{
    for member in members {
        push_member(alloc, facts, values, nodes, member)?;
    }
    Ok(())
}

/// The facts in order, each once.
fn fact_set(mut facts: Vec<Fact>) -> Result<Vec<Fact>, AllocError>
    ensures { IfOk result (λ set. Lists fact_cmp (λ f. In f facts.items) set.items) }
{
    facts.sort()?;
    facts.dedup();
    Ok(facts)
}

/// The facts of these arcs and members, in order, each once.
fn facts_of(
    alloc: Global,
    values: &[Value],
    nodes: &[Node],
    arcs: &[Arc],
    members: &[Membership],
) -> Result<Vec<Fact>, AllocError>
    ensures { IfOk result (λ facts. Lists fact_cmp
        (λ f. In f (numbered_facts values.now nodes.now arcs.now members.now)) facts.items) }
{
    let mut facts = Vec::new(alloc);
    push_arcs(alloc, &mut facts, values, nodes, arcs)?;
    push_members(alloc, &mut facts, values, nodes, members)?;
    fact_set(facts)
}

impl Solution {
    ghost use Rattle.std.specs.Prelude.{IfOk, List};
    ghost use Rattle.lfg_terms.specs.Order.{fact_cmp};
    ghost use Rattle.lfg_terms.specs.declared.literal.Literal.{Literal};
    ghost use Rattle.lfg_model.specs.Lists.{Lists};
    ghost use Rattle.lfg_model.specs.Readings.{IsFact};
    ghost use Rattle.lfg_model.specs.Solve.{Clash, solution};
    ghost use Rattle.lfg_solve.specs.Printable.{AreEdgeNodes, ArePrintable};
    ghost use Rattle.lfg_solve.specs.Solves.{Solves};

    /// The facts of the f-structure, in order, each once: `A(c,t)` for each arc by A from c to t,
    /// `in_set(m,s)` for each member m of s, and `arg(c,k,G)` and `nonarg(c,k,G)` for the k-th
    /// function inside and behind the angle brackets of a form of c, k counted from 1. A class is
    /// written as its atom, as the name of its form, or else as its least node.
    ///
    /// # Errors
    ///
    /// Only for want of memory.
    pub fn facts(&self, alloc: Global) -> Result<Vec<Fact>, AllocError>
        ensures exact { (ls : List Literal) → Solves ls self.now → ¬ Clash (solution ls)
            → IfOk result (λ facts. Lists fact_cmp (IsFact (solution ls)) facts.items) }
        ensures printable { AreEdgeNodes self.now.nodes.items → IfOk result (λ facts. ArePrintable facts.items) }
    {
        facts_of(alloc, &self.values, &self.nodes, &self.arcs, &self.members)
    }
}
