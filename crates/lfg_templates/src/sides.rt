ghost use Rattle.std.specs.Prelude.{◌≡◌, IfOk, [], map};
ghost use Rattle.std.specs.Option.{option_map};
ghost use Rattle.lfg_model.specs.RightSides.{draft_annotation_of, item, row, one_of, optional, star, plus, right_side_of, right_sides_of};
ghost use Rattle.lfg_model.specs.DraftForms.{template_form};
ghost use Rattle.lfg_model.specs.Templates.{SideBecomes, SidesBecome};
ghost use Rattle.lfg_model.specs.TemplateRules.{option_calls, side_calls, sides_calls};
ghost use Rattle.lfg_templates.specs.Depth.{AllLead};

use crate::bound::Bound;
use crate::expansion::expand_all;
use crate::templates::Templates;
use lfg_terms::{Name, PathExpr, Rhs, Schema};
use std::alloc::{AllocError, Global};

#[tactic(auto, using(lfg_model::proofs::RightSideViews::view_item))]
fn item(cat: Name, schemata: Option<Vec<Schema<PathExpr>>>) -> Rhs
    ensures { right_side_of result ≡ item cat (option_map (λ v. draft_annotation_of v.items) schemata) }
{
    Rhs::Item { cat, schemata }
}

#[tactic(auto, using(lfg_model::proofs::RightSideViews::view_row))]
fn row(parts: Vec<Rhs>) -> Rhs
    ensures { right_side_of result ≡ row (right_sides_of parts.items) }
{
    Rhs::Row(parts)
}

#[tactic(auto, using(lfg_model::proofs::RightSideViews::view_one_of))]
fn one_of(branches: Vec<Rhs>) -> Rhs
    ensures { right_side_of result ≡ one_of (right_sides_of branches.items) }
{
    Rhs::OneOf(branches)
}

#[tactic(auto, using(lfg_model::proofs::RightSideViews::view_maybe))]
fn maybe(alloc: Global, inside: Rhs) -> Result<Rhs, AllocError>
    ensures { IfOk result (λ r. right_side_of r ≡ optional (right_side_of inside)) }
{
    Ok(Rhs::Maybe(Box::new(alloc, inside)?))
}

#[tactic(auto, using(lfg_model::proofs::RightSideViews::view_star))]
fn star(alloc: Global, inside: Rhs) -> Result<Rhs, AllocError>
    ensures { IfOk result (λ r. right_side_of r ≡ star (right_side_of inside)) }
{
    Ok(Rhs::Star(Box::new(alloc, inside)?))
}

#[tactic(auto, using(lfg_model::proofs::RightSideViews::view_plus))]
fn plus(alloc: Global, inside: Rhs) -> Result<Rhs, AllocError>
    ensures { IfOk result (λ r. right_side_of r ≡ plus (right_side_of inside)) }
{
    Ok(Rhs::Plus(Box::new(alloc, inside)?))
}

/// What an item of a right side becomes once each call in its annotation is replaced.
fn expand_item(
    alloc: Global,
    templates: &Templates<'_>,
    depth: usize,
    cat: &Name,
    schemata: &Option<Vec<Schema<PathExpr>>>,
) -> Result<Rhs, AllocError>
    requires { AllLead (map template_form templates.now) depth (option_calls (option_map (λ v. draft_annotation_of v.items) schemata.now)) }
    ensures { IfOk result (λ r. SideBecomes (map template_form templates.now)
        (item cat.now (option_map (λ v. draft_annotation_of v.items) schemata.now)) (right_side_of r)) }
{
    let cat = cat.clone()?;
    let Some(schemata) = schemata else {
        return Ok(item(cat, None));
    };
    let unbound = Bound {
        params: &[],
        args: &[],
    };
    let schemata = expand_all(alloc, templates, depth, &unbound, schemata)?;
    Ok(item(cat, Some(schemata)))
}

/// What the right side becomes once each call in its annotations is replaced, the calls going at
/// most `depth` deep.
#[cycle(side)]
pub(crate) fn expand_side(
    alloc: Global,
    templates: &Templates<'_>,
    depth: usize,
    side: &Rhs,
) -> Result<Rhs, AllocError>
    requires { AllLead (map template_form templates.now) depth (side_calls (right_side_of side.now)) }
    ensures { IfOk result (λ r. SideBecomes (map template_form templates.now) (right_side_of side.now) (right_side_of r)) }
{
    match side {
        Rhs::Item { cat, schemata } => expand_item(alloc, templates, depth, cat, schemata),
        Rhs::Row(parts) => Ok(row(expand_sides(alloc, templates, depth, parts)?)),
        Rhs::OneOf(branches) => Ok(one_of(expand_sides(alloc, templates, depth, branches)?)),
        Rhs::Maybe(inside) => maybe(alloc, expand_side(alloc, templates, depth, inside)?),
        Rhs::Star(inside) => star(alloc, expand_side(alloc, templates, depth, inside)?),
        Rhs::Plus(inside) => plus(alloc, expand_side(alloc, templates, depth, inside)?),
    }
}

/// What each of the right sides becomes.
#[cycle(side)]
fn expand_sides(
    alloc: Global,
    templates: &Templates<'_>,
    depth: usize,
    sides: &[Rhs],
) -> Result<Vec<Rhs>, AllocError>
    requires { AllLead (map template_form templates.now) depth (sides_calls (right_sides_of sides.now)) }
    ensures { IfOk result (λ v. SidesBecome (map template_form templates.now) (right_sides_of sides.now) (right_sides_of v.items)) }
{
    let mut out = Vec::new(alloc);
    for side in sides {
        out.push(expand_side(alloc, templates, depth, side)?)?;
    }
    Ok(out)
}
