ghost use Rattle.std.specs.Prelude.{◌≡◌, IfOk, map};
ghost use Rattle.std.specs.Option.{option_map};
ghost use Rattle.lfg_model.specs.PathExpressions.{attribute, row, one_of, star, plus, expression_of, expressions_of};
ghost use Rattle.lfg_model.specs.RightSides.{draft_des_of, draft_val_of};
ghost use Rattle.lfg_model.specs.Templates.{name_by, name_with, path_with, paths_with, des_with, val_with, form_with};
ghost use Rattle.lfg_templates.specs.Views.{binding_of};

use lfg_terms::{Des, Form, List, Name, PathExpr, Val};
use std::alloc::{AllocError, Global};

/// The parameters of a template, and the arguments of a call of it. Where a name is said to be
/// replaced, it is the argument in place of it, if the name is a parameter.
#[derive(Clone, Copy)]
pub(crate) struct Bound<'a> {
    pub params: &'a [Name],
    pub args: &'a [Name],
}

/// The name, or the argument that stands for it.
fn name_by(params: &[Name], args: &[Name], name: &Name) -> Result<Name, AllocError>
    ensures { IfOk result (λ n. n ≡ name_by params.now args.now name.now) }
{
    let mut params = params;
    let mut args = args;
    while let [param, more_params @ ..] = params {
        let [arg, more_args @ ..] = args else {
            return name.clone();
        };
        if *param == *name {
            return arg.clone();
        }
        params = more_params;
        args = more_args;
    }
    name.clone()
}

/// The name, replaced.
pub(crate) fn name_with(bound: &Bound<'_>, name: &Name) -> Result<Name, AllocError>
    ensures { IfOk result (λ n. n ≡ name_with (binding_of bound.now) name.now) }
{
    name_by(bound.params, bound.args, name)
}

/// The names, each replaced.
pub(crate) fn names_with(
    alloc: Global,
    bound: &Bound<'_>,
    names: &[Name],
) -> Result<List<Name>, AllocError>
    ensures { IfOk result (λ ns. ns ≡ map (name_with (binding_of bound.now)) names.now) }
{
    let mut out = Vec::new(alloc);
    for name in names {
        out.push(name_with(bound, name)?)?;
    }
    List::new(alloc, out)
}

#[tactic(auto, using(lfg_model::proofs::PathViews::view_attribute))]
fn attribute(name: Name) -> PathExpr
    ensures { expression_of result ≡ attribute name }
{
    PathExpr::Attr(name)
}

#[tactic(auto, using(lfg_model::proofs::PathViews::view_row))]
fn row(parts: Vec<PathExpr>) -> PathExpr
    ensures { expression_of result ≡ row (expressions_of parts.items) }
{
    PathExpr::Row(parts)
}

#[tactic(auto, using(lfg_model::proofs::PathViews::view_one_of))]
fn one_of(branches: Vec<PathExpr>) -> PathExpr
    ensures { expression_of result ≡ one_of (expressions_of branches.items) }
{
    PathExpr::OneOf(branches)
}

#[tactic(auto, using(lfg_model::proofs::PathViews::view_star))]
fn star(alloc: Global, inside: PathExpr) -> Result<PathExpr, AllocError>
    ensures { IfOk result (λ p. expression_of p ≡ star (expression_of inside)) }
{
    Ok(PathExpr::Star(Box::new(alloc, inside)?))
}

#[tactic(auto, using(lfg_model::proofs::PathViews::view_plus))]
fn plus(alloc: Global, inside: PathExpr) -> Result<PathExpr, AllocError>
    ensures { IfOk result (λ p. expression_of p ≡ plus (expression_of inside)) }
{
    Ok(PathExpr::Plus(Box::new(alloc, inside)?))
}

/// The path expression, each of its attributes replaced.
#[cycle(path)]
fn path_with(alloc: Global, bound: &Bound<'_>, path: &PathExpr) -> Result<PathExpr, AllocError>
    ensures { IfOk result (λ p. expression_of p ≡ path_with (binding_of bound.now) (expression_of path.now)) }
{
    match path {
        PathExpr::Attr(name) => Ok(attribute(name_with(bound, name)?)),
        PathExpr::Row(parts) => Ok(row(paths_with(alloc, bound, parts)?)),
        PathExpr::OneOf(branches) => Ok(one_of(paths_with(alloc, bound, branches)?)),
        PathExpr::Star(inside) => star(alloc, path_with(alloc, bound, inside)?),
        PathExpr::Plus(inside) => plus(alloc, path_with(alloc, bound, inside)?),
    }
}

/// The path expressions, each of their attributes replaced.
#[cycle(path)]
fn paths_with(
    alloc: Global,
    bound: &Bound<'_>,
    paths: &[PathExpr],
) -> Result<Vec<PathExpr>, AllocError>
    ensures { IfOk result (λ v. expressions_of v.items ≡ paths_with (binding_of bound.now) (expressions_of paths.now)) }
{
    let mut out = Vec::new(alloc);
    for path in paths {
        out.push(path_with(alloc, bound, path)?)?;
    }
    Ok(out)
}

/// The designator, each attribute of its path replaced.
pub(crate) fn des_with(
    alloc: Global,
    bound: &Bound<'_>,
    des: &Des<PathExpr>,
) -> Result<Des<PathExpr>, AllocError>
    ensures { IfOk result (λ d. draft_des_of d ≡ des_with (binding_of bound.now) (draft_des_of des.now)) }
{
    let path = match &des.path {
        Some(path) => Some(path_with(alloc, bound, path)?),
        None => None,
    };
    Ok(Des {
        arrow: des.arrow,
        path,
    })
}

/// The semantic form, its name and each of its functions replaced.
fn form_with(alloc: Global, bound: &Bound<'_>, form: &Form) -> Result<Form, AllocError>
    ensures { IfOk result (λ f. f ≡ form_with (binding_of bound.now) form.now) }
{
    Ok(Form {
        name: name_with(bound, &form.name)?,
        inner: names_with(alloc, bound, form.inner.list())?,
        outer: names_with(alloc, bound, form.outer.list())?,
    })
}

/// The right side of an equation, each attribute, atom or name of its form replaced.
pub(crate) fn val_with(
    alloc: Global,
    bound: &Bound<'_>,
    val: &Val<PathExpr>,
) -> Result<Val<PathExpr>, AllocError>
    ensures { IfOk result (λ v. draft_val_of v ≡ val_with (binding_of bound.now) (draft_val_of val.now)) }
{
    match val {
        Val::Des(des) => Ok(Val::Des(des_with(alloc, bound, des)?)),
        Val::Atom(name) => Ok(Val::Atom(name_with(bound, name)?)),
        Val::Form(form) => Ok(Val::Form(form_with(alloc, bound, form)?)),
    }
}
