ghost use Rattle.std.specs.Prelude.{◌≡◌, ◌↔◌, ◌⊎◌, ℕ, IsTrue};
ghost use Rattle.lfg_model.specs.Lists.{In};
ghost use Rattle.lfg_model.specs.Solve.{pred};
ghost use Rattle.lfg_solve.specs.Found.{EachOf, HasFunctions, HasFunctionsOf, IsCoherentAt, IsCompleteAt, IsExempt, IsFilled, IsFilledBy, IsGovernedBy, IsMemberIn, IsMet, IsNaming, IsOther, LeadsBy, Leaves, Names, SomeOf, StandsBeside};

use crate::classes::Arc;
use crate::same::{same_constant, same_name};
use crate::solution::{Membership, Solution, Value};
use lfg_model::Constant;
use lfg_terms::{Form, Name};

/// The attribute whose value is a semantic form.
pub(crate) const PRED: &str = "PRED";

/// Whether the value is of the class, and another one than the constant.
fn is_other(value: &Value, class: usize, constant: &Constant) -> bool
    ensures { IsTrue result ↔ IsOther class constant.now value.now }
{
    if value.class != class {
        return false;
    }
    !same_constant(&value.constant, constant)
}

/// Whether some value of the class is another one than the constant.
fn has_other_value(values: &[Value], class: usize, constant: &Constant) -> bool
    ensures { IsTrue result ↔ SomeOf (IsOther class constant.now) values.now }
{
    for value in values {
        if is_other(value, class, constant) {
            return true;
        }
    }
    false
}

/// Whether the arc leaves the class.
fn leaves(arc: &Arc, class: usize) -> bool
    ensures { IsTrue result ↔ Leaves class arc.now }
{
    arc.from == class
}

/// Whether some arc leaves the class.
fn has_arc(arcs: &[Arc], class: usize) -> bool
    ensures { IsTrue result ↔ SomeOf (Leaves class) arcs.now }
{
    for arc in arcs {
        if leaves(arc, class) {
            return true;
        }
    }
    false
}

/// Whether the class is the set of the membership.
fn is_set_of(member: &Membership, class: usize) -> bool
    ensures { IsTrue result ↔ IsMemberIn class member.now }
{
    member.set == class
}

/// Whether the class has a member.
fn is_set(members: &[Membership], class: usize) -> bool
    ensures { IsTrue result ↔ SomeOf (IsMemberIn class) members.now }
{
    for member in members {
        if is_set_of(member, class) {
            return true;
        }
    }
    false
}

/// Whether the value stands beside another value of its class, or beside an arc or a member.
fn is_clashing(value: &Value, values: &[Value], arcs: &[Arc], members: &[Membership]) -> bool
    ensures { IsTrue result ↔ StandsBeside values.now arcs.now members.now value.now }
{
    if has_other_value(values, value.class, &value.constant) {
        return true;
    }
    if has_arc(arcs, value.class) {
        return true;
    }
    is_set(members, value.class)
}

/// Whether some value stands beside another value of its class, or beside an arc or a member.
fn has_clashing(values: &[Value], arcs: &[Arc], members: &[Membership]) -> bool
    ensures { IsTrue result ↔ SomeOf (StandsBeside values.now arcs.now members.now) values.now }
{
    for value in values {
        if is_clashing(value, values, arcs, members) {
            return true;
        }
    }
    false
}

/// Whether the arc leaves the class by the attribute.
pub(crate) fn leads_by(arc: &Arc, class: usize, attribute: &str) -> bool
    ensures { IsTrue result ↔ LeadsBy class attribute.now arc.now }
{
    if arc.from != class {
        return false;
    }
    arc.attribute.text() == attribute
}

/// Whether some arc leaves the class by the attribute.
fn has_arc_by(arcs: &[Arc], class: usize, attribute: &str) -> bool
    ensures { IsTrue result ↔ SomeOf (LeadsBy class attribute.now) arcs.now }
{
    for arc in arcs {
        if leads_by(arc, class, attribute) {
            return true;
        }
    }
    false
}

/// Whether the class has a PRED arc.
fn has_pred(arcs: &[Arc], class: usize) -> bool
    ensures { IsTrue result ↔ SomeOf (LeadsBy class pred) arcs.now }
{
    has_arc_by(arcs, class, PRED)
}

/// Whether the class has a form or a member.
fn is_filled(arcs: &[Arc], members: &[Membership], class: usize) -> bool
    ensures { IsTrue result ↔ IsFilled arcs.now members.now class }
{
    if has_pred(arcs, class) {
        return true;
    }
    is_set(members, class)
}

/// Whether the arc leads from the class by the function to one with a form or a member.
fn is_filled_by(
    arc: &Arc,
    arcs: &[Arc],
    members: &[Membership],
    class: usize,
    function: &Name,
) -> bool
    ensures { IsTrue result ↔ IsFilledBy arcs.now members.now class function.now arc.now }
{
    if !leads_by(arc, class, function.text()) {
        return false;
    }
    is_filled(arcs, members, arc.to)
}

/// Whether the class has the function, with a form or a member.
fn has_filled(arcs: &[Arc], members: &[Membership], class: usize, function: &Name) -> bool
    ensures { IsTrue result ↔ SomeOf (IsFilledBy arcs.now members.now class function.now) arcs.now }
{
    for arc in arcs {
        if is_filled_by(arc, arcs, members, class, function) {
            return true;
        }
    }
    false
}

/// Whether the class has each of the functions, with a form or a member.
fn has_each_filled(arcs: &[Arc], members: &[Membership], class: usize, functions: &[Name]) -> bool
    ensures { IsTrue result ↔ EachOf (λ g. SomeOf (IsFilledBy arcs.now members.now class g) arcs.now) functions.now }
{
    for function in functions {
        if !has_filled(arcs, members, class, function) {
            return false;
        }
    }
    true
}

/// Whether the class has the function.
fn has_function(arcs: &[Arc], class: usize, function: &Name) -> bool
    ensures { IsTrue result ↔ SomeOf (LeadsBy class function.now) arcs.now }
{
    has_arc_by(arcs, class, function.text())
}

/// Whether the class has each of the functions.
fn has_each(arcs: &[Arc], class: usize, functions: &[Name]) -> bool
    ensures { IsTrue result ↔ EachOf (λ g. SomeOf (LeadsBy class g) arcs.now) functions.now }
{
    for function in functions {
        if !has_function(arcs, class, function) {
            return false;
        }
    }
    true
}

/// Whether the class has all functions that the form names.
fn has_functions(arcs: &[Arc], members: &[Membership], class: usize, form: &Form) -> bool
    ensures { IsTrue result ↔ HasFunctions arcs.now members.now class form.now }
{
    if !has_each(arcs, class, form.outer.list()) {
        return false;
    }
    has_each_filled(arcs, members, class, form.inner.list())
}

/// Whether the class has all functions that the constant names.
fn has_functions_of(arcs: &[Arc], members: &[Membership], class: usize, constant: &Constant) -> bool
    ensures { IsTrue result ↔ HasFunctionsOf arcs.now members.now class constant.now }
{
    match constant {
        Constant::Atom(_) => true,
        Constant::Form { form, .. } => has_functions(arcs, members, class, form),
    }
}

/// Whether the class has all functions that the value names, if it is one of the class `target`.
fn is_met(value: &Value, arcs: &[Arc], members: &[Membership], class: usize, target: usize) -> bool
    ensures { IsTrue result ↔ IsMet arcs.now members.now class target value.now }
{
    if value.class != target {
        return true;
    }
    has_functions_of(arcs, members, class, &value.constant)
}

/// Whether the class has all functions that values of the class `target` name.
fn is_each_met(
    values: &[Value],
    arcs: &[Arc],
    members: &[Membership],
    class: usize,
    target: usize,
) -> bool
    ensures { IsTrue result ↔ EachOf (IsMet arcs.now members.now class target) values.now }
{
    for value in values {
        if !is_met(value, arcs, members, class, target) {
            return false;
        }
    }
    true
}

/// Whether the class that the arc leaves has all functions of the form to which the arc leads.
fn is_complete_at(arc: &Arc, values: &[Value], arcs: &[Arc], members: &[Membership]) -> bool
    ensures { IsTrue result ↔ IsCompleteAt values.now arcs.now members.now arc.now }
{
    if !leads_by(arc, arc.from, PRED) {
        return true;
    }
    is_each_met(values, arcs, members, arc.from, arc.to)
}

/// Whether each class has all functions of its forms.
fn is_each_complete(values: &[Value], arcs: &[Arc], members: &[Membership]) -> bool
    ensures { IsTrue result ↔ EachOf (IsCompleteAt values.now arcs.now members.now) arcs.now }
{
    for arc in arcs {
        if !is_complete_at(arc, values, arcs, members) {
            return false;
        }
    }
    true
}

/// Whether the name is one of the names.
fn is_among(names: &[Name], name: &Name) -> bool
    ensures { IsTrue result ↔ In name.now names.now }
{
    for other in names {
        if same_name(other, name) {
            return true;
        }
    }
    false
}

/// Whether the constant is a form that names the function.
fn names(constant: &Constant, function: &Name) -> bool
    ensures { IsTrue result ↔ Names function.now constant.now }
{
    match constant {
        Constant::Atom(_) => false,
        Constant::Form { form, .. } => names_function(form, function),
    }
}

/// Whether the form names the function.
fn names_function(form: &Form, function: &Name) -> bool
    ensures { IsTrue result ↔ (In function.now form.now.inner ⊎ In function.now form.now.outer) }
{
    if is_among(form.inner.list(), function) {
        return true;
    }
    is_among(form.outer.list(), function)
}

/// Whether the value is of the class `target` and names the function.
fn is_naming(value: &Value, target: usize, function: &Name) -> bool
    ensures { IsTrue result ↔ IsNaming target function.now value.now }
{
    if value.class != target {
        return false;
    }
    names(&value.constant, function)
}

/// Whether a value of the class `target` names the function.
fn has_naming(values: &[Value], target: usize, function: &Name) -> bool
    ensures { IsTrue result ↔ SomeOf (IsNaming target function.now) values.now }
{
    for value in values {
        if is_naming(value, target, function) {
            return true;
        }
    }
    false
}

/// Whether the arc leads from the class to a form that names the function.
fn is_governed_by(arc: &Arc, values: &[Value], class: usize, function: &Name) -> bool
    ensures { IsTrue result ↔ IsGovernedBy values.now class function.now arc.now }
{
    if !leads_by(arc, class, PRED) {
        return false;
    }
    has_naming(values, arc.to, function)
}

/// Whether a form of the class names the function.
fn is_governed(values: &[Value], arcs: &[Arc], class: usize, function: &Name) -> bool
    ensures { IsTrue result ↔ SomeOf (IsGovernedBy values.now class function.now) arcs.now }
{
    for arc in arcs {
        if is_governed_by(arc, values, class, function) {
            return true;
        }
    }
    false
}

/// Whether the class has members and no form.
fn is_exempt(arcs: &[Arc], members: &[Membership], class: usize) -> bool
    ensures { IsTrue result ↔ IsExempt arcs.now members.now class }
{
    if has_pred(arcs, class) {
        return false;
    }
    is_set(members, class)
}

/// Whether the class that the arc leaves may have its function.
fn is_coherent_at(
    arc: &Arc,
    governable: &[Name],
    values: &[Value],
    arcs: &[Arc],
    members: &[Membership],
) -> bool
    ensures { IsTrue result ↔ IsCoherentAt governable.now values.now arcs.now members.now arc.now }
{
    if !is_among(governable, &arc.attribute) {
        return true;
    }
    if is_governed(values, arcs, arc.from, &arc.attribute) {
        return true;
    }
    is_exempt(arcs, members, arc.from)
}

/// Whether each class may have its functions.
fn is_each_coherent(
    governable: &[Name],
    values: &[Value],
    arcs: &[Arc],
    members: &[Membership],
) -> bool
    ensures { IsTrue result ↔ EachOf (IsCoherentAt governable.now values.now arcs.now members.now) arcs.now }
{
    for arc in arcs {
        if !is_coherent_at(arc, governable, values, arcs, members) {
            return false;
        }
    }
    true
}

impl Solution {
    ghost use Rattle.std.specs.Prelude.{◌≡◌, ◌↔◌, ℕ, IsTrue, IfNone, IfOk, IfSome, List};
    ghost use Rattle.lfg_terms.specs.declared.literal.Literal.{Literal};
    ghost use Rattle.lfg_model.specs.Solve.{Clash, IsCoherent, IsComplete, solution};
    ghost use Rattle.lfg_solve.specs.Solves.{Solves};

    /// Whether some class has two values, or a value together with an arc or a member
    /// (uniqueness, Kaplan and Bresnan 1982).
    pub fn has_clash(&self) -> bool
        ensures { (ls : List Literal) → Solves ls self.now → (IsTrue result ↔ Clash (solution ls)) }
    {
        has_clashing(&self.values, &self.arcs, &self.members)
    }

    /// Whether each function that a class's form names is there, and those inside the form's
    /// angle brackets have a form or members themselves (completeness, after Kaplan and Bresnan
    /// 1982; the case of sets is this project's own).
    pub fn is_complete(&self) -> bool
        ensures { (ls : List Literal) → Solves ls self.now → (IsTrue result ↔ IsComplete (solution ls)) }
    {
        is_each_complete(&self.values, &self.arcs, &self.members)
    }

    /// Whether each governable function of a class is named by the form of that class; a class
    /// that has members and no form is exempt (coherence, after Kaplan and Bresnan 1982; the case
    /// of sets is this project's own).
    pub fn is_coherent(&self, governable: &[Name]) -> bool
        ensures { (ls : List Literal) → Solves ls self.now → (IsTrue result ↔ IsCoherent (solution ls) governable.now) }
    {
        is_each_coherent(governable, &self.values, &self.arcs, &self.members)
    }
}
