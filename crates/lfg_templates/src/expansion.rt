ghost use Rattle.std.specs.Prelude.{◌≡◌, IfOk, [], ◌∷◌, map};
ghost use Rattle.lfg_model.specs.RightSides.{define, constrain, exists, member, mark, either, maybe, draft_des_of, draft_val_of, draft_annotation_from, draft_branches_from, draft_schema_of, draft_annotation_of};
ghost use Rattle.lfg_model.specs.DraftForms.{template_form};
ghost use Rattle.lfg_model.specs.Templates.{Becomes, AllBecome};
ghost use Rattle.lfg_model.specs.TemplateRules.{calls, schema_calls};
ghost use Rattle.lfg_templates.specs.Views.{binding_of};
ghost use Rattle.lfg_templates.specs.Depth.{AllLead};

use crate::bound::{Bound, des_with, name_with, names_with, val_with};
use crate::templates::Templates;
use lfg_terms::{Des, Name, PathExpr, Schema, Val};
use std::alloc::{AllocError, Global};

/// The schema alone.
fn alone(alloc: Global, schema: Schema<PathExpr>) -> Result<Vec<Schema<PathExpr>>, AllocError>
    ensures { IfOk result (λ v. v.items ≡ schema ∷ []) }
{
    let mut out = Vec::new(alloc);
    out.push(schema)?;
    Ok(out)
}

#[tactic(auto, using(lfg_model::proofs::RightSideViews::view_define))]
fn define(left: Des<PathExpr>, right: Val<PathExpr>) -> Schema<PathExpr>
    ensures { draft_schema_of result ≡ define (draft_des_of left) (draft_val_of right) }
{
    Schema::Define { left, right }
}

#[tactic(auto, using(lfg_model::proofs::RightSideViews::view_constrain))]
fn constrain(negated: bool, left: Des<PathExpr>, right: Val<PathExpr>) -> Schema<PathExpr>
    ensures { draft_schema_of result ≡ constrain negated (draft_des_of left) (draft_val_of right) }
{
    Schema::Constrain {
        negated,
        left,
        right,
    }
}

#[tactic(auto, using(lfg_model::proofs::RightSideViews::view_exists))]
fn exists(negated: bool, left: Des<PathExpr>) -> Schema<PathExpr>
    ensures { draft_schema_of result ≡ exists negated (draft_des_of left) }
{
    Schema::Exists { negated, left }
}

#[tactic(auto, using(lfg_model::proofs::RightSideViews::view_member))]
fn member(item: Des<PathExpr>, set: Des<PathExpr>) -> Schema<PathExpr>
    ensures { draft_schema_of result ≡ member (draft_des_of item) (draft_des_of set) }
{
    Schema::Member { item, set }
}

#[tactic(auto, using(lfg_model::proofs::RightSideViews::view_mark))]
fn mark(name: Name) -> Schema<PathExpr>
    ensures { draft_schema_of result ≡ mark name }
{
    Schema::Mark(name)
}

#[tactic(auto, using(lfg_model::proofs::RightSideViews::view_either))]
fn either(branches: Vec<Vec<Schema<PathExpr>>>) -> Schema<PathExpr>
    ensures { draft_schema_of result ≡ either (draft_branches_from (map (λ b. draft_annotation_of b.items) branches.items)) }
{
    Schema::Either(branches)
}

#[tactic(auto, using(lfg_model::proofs::RightSideViews::view_option))]
fn maybe(inside: Vec<Schema<PathExpr>>) -> Schema<PathExpr>
    ensures { draft_schema_of result ≡ maybe (draft_annotation_of inside.items) }
{
    Schema::Maybe(inside)
}

/// What the schemata become once each call is replaced, the calls going at most `depth` deep.
#[cycle(expand)]
pub(crate) fn expand_all(
    alloc: Global,
    templates: &Templates<'_>,
    depth: usize,
    bound: &Bound<'_>,
    schemata: &[Schema<PathExpr>],
) -> Result<Vec<Schema<PathExpr>>, AllocError>
    requires { AllLead (map template_form templates.now) depth (calls (draft_annotation_of schemata.now)) }
    ensures { IfOk result (λ v. AllBecome (map template_form templates.now) (binding_of bound.now) (draft_annotation_of schemata.now) (map draft_schema_of v.items)) }
{
    let mut out = Vec::new(alloc);
    for schema in schemata {
        let mut part = expand_one(alloc, templates, depth, bound, schema)?;
        out.append(&mut part)?;
    }
    Ok(out)
}

/// What the schema becomes.
#[cycle(expand)]
fn expand_one(
    alloc: Global,
    templates: &Templates<'_>,
    depth: usize,
    bound: &Bound<'_>,
    schema: &Schema<PathExpr>,
) -> Result<Vec<Schema<PathExpr>>, AllocError>
    requires { AllLead (map template_form templates.now) depth (schema_calls (draft_schema_of schema.now)) }
    ensures { IfOk result (λ v. Becomes (map template_form templates.now) (binding_of bound.now) (draft_schema_of schema.now) (map draft_schema_of v.items)) }
{
    match schema {
        Schema::Define { left, right } => {
            let left = des_with(alloc, bound, left)?;
            let right = val_with(alloc, bound, right)?;
            alone(alloc, define(left, right))
        }
        Schema::Constrain {
            negated,
            left,
            right,
        } => {
            let left = des_with(alloc, bound, left)?;
            let right = val_with(alloc, bound, right)?;
            alone(alloc, constrain(*negated, left, right))
        }
        Schema::Exists { negated, left } => {
            let left = des_with(alloc, bound, left)?;
            alone(alloc, exists(*negated, left))
        }
        Schema::Member { item, set } => {
            let item = des_with(alloc, bound, item)?;
            let set = des_with(alloc, bound, set)?;
            alone(alloc, member(item, set))
        }
        Schema::Mark(name) => alone(alloc, mark(name_with(bound, name)?)),
        Schema::Maybe(inside) => {
            let inside = expand_all(alloc, templates, depth, bound, inside)?;
            alone(alloc, maybe(inside))
        }
        Schema::Either(branches) => {
            let mut out = Vec::new(alloc);
            for branch in branches {
                out.push(expand_all(alloc, templates, depth, bound, branch)?)?;
            }
            alone(alloc, either(out))
        }
        Schema::Call { name, args } => {
            let args = names_with(alloc, bound, args.list())?;
            let Some(template) = templates.named(name) else {
                unreachable!()
            };
            let bound = Bound {
                params: template.params.list(),
                args: args.list(),
            };
            expand_all(alloc, templates, depth - 1, &bound, template.body.list())
        }
    }
}
