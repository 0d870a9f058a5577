ghost use Rattle.std.specs.Prelude.{◌≡◌, IfOk, [], ◌∷◌, map};
ghost use Rattle.std.specs.Option.{option_map};
ghost use Rattle.lfg_model.specs.PathExpressions.{expression_of};
ghost use Rattle.lfg_model.specs.RightSides.{define, constrain, exists, member, either, maybe, mark, draft_des_of, draft_val_of, draft_branches_from, draft_schema_of, draft_annotation_of};
ghost use Rattle.lfg_model.specs.TemplateRules.{calls, schema_calls, branches_calls};
ghost use Rattle.lfg_model.specs.Terms as loaded;
ghost use Rattle.lfg_model.specs.Terms.{annotation_of, branches_from, schema_of};
ghost use Rattle.lfg_grammar.specs.Answers.{IsRange, NoCall, PathAs, DesAs, ValAs, SchemaAs, AnnotationAs};

use lfg_regpath::{PathFault, paths_to};
use lfg_terms::{Des, PathExpr, Paths, Schema, Val};
use std::alloc::Global;

/// The strings of the path, if there is one.
fn load_path(alloc: Global, path: &Option<PathExpr>, depth: u8) -> Result<Option<Paths>, PathFault>
    requires { IsRange depth }
    ensures { PathAs depth (option_map expression_of path.now) result }
{
    match path {
        None => Ok(None),
        Some(path) => Ok(Some(paths_to(alloc, path, depth)?)),
    }
}

/// The designator, its path replaced by its strings.
fn load_des(alloc: Global, des: &Des<PathExpr>, depth: u8) -> Result<Des<Paths>, PathFault>
    requires { IsRange depth }
    ensures { DesAs depth (draft_des_of des.now) result }
{
    let path = load_path(alloc, &des.path, depth)?;
    Ok(Des {
        arrow: des.arrow,
        path,
    })
}

/// The right side of an equation, its path replaced by its strings.
fn load_val(alloc: Global, val: &Val<PathExpr>, depth: u8) -> Result<Val<Paths>, PathFault>
    requires { IsRange depth }
    ensures { ValAs depth (draft_val_of val.now) result }
{
    match val {
        Val::Des(des) => Ok(Val::Des(load_des(alloc, des, depth)?)),
        Val::Atom(name) => Ok(Val::Atom(name.clone()?)),
        Val::Form(form) => Ok(Val::Form(form.clone()?)),
    }
}

/// The defining equation.
fn load_define(
    alloc: Global,
    left: &Des<PathExpr>,
    right: &Val<PathExpr>,
    depth: u8,
) -> Result<Schema<Paths>, PathFault>
    requires { IsRange depth }
    ensures { SchemaAs depth (define (draft_des_of left.now) (draft_val_of right.now)) result }
{
    let left = load_des(alloc, left, depth)?;
    let right = load_val(alloc, right, depth)?;
    Ok(Schema::Define { left, right })
}

/// The constraining equation, or its negation.
fn load_constrain(
    alloc: Global,
    negated: bool,
    left: &Des<PathExpr>,
    right: &Val<PathExpr>,
    depth: u8,
) -> Result<Schema<Paths>, PathFault>
    requires { IsRange depth }
    ensures { SchemaAs depth (constrain negated (draft_des_of left.now) (draft_val_of right.now)) result }
{
    let left = load_des(alloc, left, depth)?;
    let right = load_val(alloc, right, depth)?;
    Ok(Schema::Constrain {
        negated,
        left,
        right,
    })
}

/// The existential constraint, or its negation.
fn load_exists(
    alloc: Global,
    negated: bool,
    left: &Des<PathExpr>,
    depth: u8,
) -> Result<Schema<Paths>, PathFault>
    requires { IsRange depth }
    ensures { SchemaAs depth (exists negated (draft_des_of left.now)) result }
{
    let left = load_des(alloc, left, depth)?;
    Ok(Schema::Exists { negated, left })
}

/// The membership.
fn load_member(
    alloc: Global,
    item: &Des<PathExpr>,
    set: &Des<PathExpr>,
    depth: u8,
) -> Result<Schema<Paths>, PathFault>
    requires { IsRange depth }
    ensures { SchemaAs depth (member (draft_des_of item.now) (draft_des_of set.now)) result }
{
    let item = load_des(alloc, item, depth)?;
    let set = load_des(alloc, set, depth)?;
    Ok(Schema::Member { item, set })
}

#[tactic(auto, using(lfg_model::proofs::SchemaViews::maybe_view))]
fn option_of(inside: Vec<Schema<Paths>>) -> Schema<Paths>
    ensures { schema_of result ≡ loaded.maybe (annotation_of inside.items) }
{
    Schema::Maybe(inside)
}

#[tactic(auto, using(lfg_model::proofs::SchemaViews::either_view))]
fn disjunction_of(branches: Vec<Vec<Schema<Paths>>>) -> Schema<Paths>
    ensures { schema_of result ≡ loaded.either (branches_from branches.items) }
{
    Schema::Either(branches)
}

/// The schema, its paths replaced by their strings. A call of a template is none of a plain draft.
#[cycle(annotation)]
fn load_schema(
    alloc: Global,
    schema: &Schema<PathExpr>,
    depth: u8,
) -> Result<Schema<Paths>, PathFault>
    requires range { IsRange depth }
    requires no_call { NoCall (schema_calls (draft_schema_of schema.now)) }
    ensures { SchemaAs depth (draft_schema_of schema.now) result }
{
    match schema {
        Schema::Define { left, right } => load_define(alloc, left, right, depth),
        Schema::Constrain {
            negated,
            left,
            right,
        } => load_constrain(alloc, *negated, left, right, depth),
        Schema::Exists { negated, left } => load_exists(alloc, *negated, left, depth),
        Schema::Member { item, set } => load_member(alloc, item, set, depth),
        Schema::Mark(name) => Ok(Schema::Mark(name.clone()?)),
        Schema::Maybe(inside) => Ok(option_of(load_annotation(alloc, inside, depth)?)),
        Schema::Either(branches) => {
            let mut out = Vec::new(alloc);
            for branch in branches {
                out.push(load_annotation(alloc, branch, depth)?)?;
            }
            Ok(disjunction_of(out))
        }
        Schema::Call { .. } => unreachable!(),
    }
}

/// The annotation, the paths of each schema replaced by their strings.
#[cycle(annotation)]
pub(crate) fn load_annotation(
    alloc: Global,
    schemata: &[Schema<PathExpr>],
    depth: u8,
) -> Result<Vec<Schema<Paths>>, PathFault>
    requires range { IsRange depth }
    requires no_call { NoCall (calls (draft_annotation_of schemata.now)) }
    ensures { AnnotationAs depth (draft_annotation_of schemata.now) result }
{
    let mut out = Vec::new(alloc);
    for schema in schemata {
        out.push(load_schema(alloc, schema, depth)?)?;
    }
    Ok(out)
}
