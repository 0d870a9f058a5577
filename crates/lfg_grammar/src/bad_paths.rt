ghost use Rattle.std.specs.Prelude.{◌≡◌, ℕ, ◌++◌, ◌∷◌, [], List, Some, IfOk, OnOk, MatchOption, map};
ghost use Rattle.std.specs.List.{flat_map};
ghost use Rattle.std.specs.Option.{option_map};
ghost use Rattle.lfg_model.specs.DraftForms.{plain_form, rule_form, word_form};
ghost use Rattle.lfg_model.specs.Loads.{PathAt, IsBadPath, all_items_of, annotation_paths, draft_paths, item_paths, items_of, path_at, path_of, rule_paths, schema_paths, val_paths, word_paths};
ghost use Rattle.lfg_model.specs.PathExpressions.{expression_of};
ghost use Rattle.lfg_model.specs.RightSides.{draft_annotation_of, draft_schema_of, draft_val_of, right_side_of, right_sides_of};
ghost use Rattle.lfg_grammar.specs.Answers.{IsRange};
ghost use Rattle.lfg_grammar.specs.BadPaths.{FailsSo, FoundBadPath, option_paths, written_at};

use lfg_regpath::{PathFault, paths_to};
use lfg_terms::{Des, DraftRule, LexEntry, PathExpr, Plain, Rhs, Schema, Val};
use std::alloc::{AllocError, Global};

/// A path, with the number of the entry in which it stands.
#[derive(Clone, Copy)]
struct WrittenPath<'a> {
    entry: u32,
    path: &'a PathExpr,
}

/// A path that has too many strings or none: the number of its entry, and which of the two.
#[derive(Clone, Copy)]
pub(crate) struct BadPath {
    pub(crate) entry: u32,
    pub(crate) fault: PathFault,
}

/// Appends the path of the designator, if it has one.
fn push_des<'a>(
    out: &mut Vec<WrittenPath<'a>>,
    entry: u32,
    des: &'a Des<PathExpr>,
) -> Result<(), AllocError>
    ensures { OnOk result (map written_at out.new.items ≡ map written_at out.old.items ++ map (path_at entry) (path_of (option_map expression_of des.now.path))) }
{
    if let Some(path) = &des.path {
        out.push(WrittenPath { entry, path })?;
    }
    Ok(())
}

/// Appends the path of the right side of an equation, if it has one.
fn push_val<'a>(
    out: &mut Vec<WrittenPath<'a>>,
    entry: u32,
    val: &'a Val<PathExpr>,
) -> Result<(), AllocError>
    ensures { OnOk result (map written_at out.new.items ≡ map written_at out.old.items ++ map (path_at entry) (val_paths (draft_val_of val.now))) }
{
    match val {
        Val::Des(des) => push_des(out, entry, des),
        Val::Atom(_) | Val::Form(_) => Ok(()),
    }
}

/// Appends the paths of the two sides of an equation.
fn push_equation<'a>(
    out: &mut Vec<WrittenPath<'a>>,
    entry: u32,
    left: &'a Des<PathExpr>,
    right: &'a Val<PathExpr>,
) -> Result<(), AllocError>
    ensures { OnOk result (map written_at out.new.items ≡ map written_at out.old.items ++ map (path_at entry) (path_of (option_map expression_of left.now.path) ++ val_paths (draft_val_of right.now))) }
{
    push_des(out, entry, left)?;
    push_val(out, entry, right)
}

/// Appends the paths of the two designators of a membership.
fn push_member<'a>(
    out: &mut Vec<WrittenPath<'a>>,
    entry: u32,
    item: &'a Des<PathExpr>,
    set: &'a Des<PathExpr>,
) -> Result<(), AllocError>
    ensures { OnOk result (map written_at out.new.items ≡ map written_at out.old.items ++ map (path_at entry) (path_of (option_map expression_of item.now.path) ++ path_of (option_map expression_of set.now.path))) }
{
    push_des(out, entry, item)?;
    push_des(out, entry, set)
}

/// Appends the paths of the schemata, in written order.
#[cycle(paths)]
fn push_paths<'a>(
    out: &mut Vec<WrittenPath<'a>>,
    entry: u32,
    schemata: &'a [Schema<PathExpr>],
) -> Result<(), AllocError>
    ensures { OnOk result (map written_at out.new.items ≡ map written_at out.old.items ++ map (path_at entry) (annotation_paths (draft_annotation_of schemata.now))) }
{
    for schema in schemata {
        push_schema_paths(out, entry, schema)?;
    }
    Ok(())
}

/// Appends the paths of the schema.
#[cycle(paths)]
fn push_schema_paths<'a>(
    out: &mut Vec<WrittenPath<'a>>,
    entry: u32,
    schema: &'a Schema<PathExpr>,
) -> Result<(), AllocError>
    ensures { OnOk result (map written_at out.new.items ≡ map written_at out.old.items ++ map (path_at entry) (schema_paths (draft_schema_of schema.now))) }
{
    match schema {
        Schema::Define { left, right } => push_equation(out, entry, left, right),
        Schema::Constrain { left, right, .. } => push_equation(out, entry, left, right),
        Schema::Exists { left, .. } => push_des(out, entry, left),
        Schema::Member { item, set } => push_member(out, entry, item, set),
        Schema::Mark(_) => Ok(()),
        Schema::Maybe(inside) => push_paths(out, entry, inside),
        Schema::Either(branches) => {
            for branch in branches {
                push_paths(out, entry, branch)?;
            }
            Ok(())
        }
        Schema::Call { .. } => Ok(()),
    }
}

/// Appends the paths of the annotation of an item, if it has one.
fn push_option_paths<'a>(
    out: &mut Vec<WrittenPath<'a>>,
    entry: u32,
    schemata: &'a Option<Vec<Schema<PathExpr>>>,
) -> Result<(), AllocError>
    ensures { OnOk result (map written_at out.new.items ≡ map written_at out.old.items ++ map (path_at entry) (option_paths (option_map (λ v. draft_annotation_of v.items) schemata.now))) }
{
    let Some(schemata) = schemata else {
        return Ok(());
    };
    push_paths(out, entry, schemata)
}

/// Appends the paths of the right side.
#[cycle(side)]
fn push_side_paths<'a>(
    out: &mut Vec<WrittenPath<'a>>,
    entry: u32,
    side: &'a Rhs,
) -> Result<(), AllocError>
    ensures { OnOk result (map written_at out.new.items ≡ map written_at out.old.items ++ map (path_at entry) (flat_map item_paths (items_of (right_side_of side.now)))) }
{
    match side {
        Rhs::Item { schemata, .. } => push_option_paths(out, entry, schemata),
        Rhs::Row(parts) => push_sides_paths(out, entry, parts),
        Rhs::OneOf(branches) => push_sides_paths(out, entry, branches),
        Rhs::Maybe(inside) => push_side_paths(out, entry, inside),
        Rhs::Star(inside) => push_side_paths(out, entry, inside),
        Rhs::Plus(inside) => push_side_paths(out, entry, inside),
    }
}

/// Appends the paths of the right sides.
#[cycle(side)]
fn push_sides_paths<'a>(
    out: &mut Vec<WrittenPath<'a>>,
    entry: u32,
    sides: &'a [Rhs],
) -> Result<(), AllocError>
    ensures { OnOk result (map written_at out.new.items ≡ map written_at out.old.items ++ map (path_at entry) (flat_map item_paths (all_items_of (right_sides_of sides.now)))) }
{
    for side in sides {
        push_side_paths(out, entry, side)?;
    }
    Ok(())
}

/// Appends the paths of the rules.
fn push_rule_paths<'a>(
    out: &mut Vec<WrittenPath<'a>>,
    rules: &'a [DraftRule],
) -> Result<(), AllocError>
    ensures { OnOk result (map written_at out.new.items ≡ map written_at out.old.items ++ flat_map rule_paths (map rule_form rules.now)) }
{
    for rule in rules {
        push_side_paths(out, rule.entry, &rule.rhs)?;
    }
    Ok(())
}

/// Appends the paths of the readings of the lexicon.
fn push_word_paths<'a>(
    out: &mut Vec<WrittenPath<'a>>,
    entries: &'a [LexEntry],
) -> Result<(), AllocError>
    ensures { OnOk result (map written_at out.new.items ≡ map written_at out.old.items ++ flat_map word_paths (map word_form entries.now)) }
{
    for entry in entries {
        push_paths(out, entry.entry, entry.schemata.list())?;
    }
    Ok(())
}

/// All paths of the draft, those of the rules first.
fn all_paths<'a>(alloc: Global, plain: &'a Plain) -> Result<Vec<WrittenPath<'a>>, AllocError>
    ensures { IfOk result (λ v. map written_at v.items ≡ draft_paths (plain_form plain.now)) }
{
    let mut out = Vec::new(alloc);
    push_rule_paths(&mut out, plain.rules.list())?;
    push_word_paths(&mut out, plain.entries.list())?;
    Ok(out)
}

/// How the path fails, if it does.
fn fault_of(alloc: Global, written: WrittenPath, depth: u8) -> Result<Option<PathFault>, AllocError>
    requires { IsRange depth }
    ensures { IfOk result (λ o. MatchOption o (IsBadPath depth (written_at written.entry) → ⊥) (FailsSo depth (written_at written.entry))) }
{
    match paths_to(alloc, written.path, depth) {
        Ok(_) => Ok(None),
        Err(PathFault::Memory) => Err(AllocError),
        Err(fault) => Ok(Some(fault)),
    }
}

/// Of the first bad path so far and one that stands behind it, the one of the lesser entry, and the
/// first where they have one entry.
fn earlier(first: Option<BadPath>, bad: BadPath) -> BadPath
    ensures { (depth : ℕ) (xs : List PathAt) (x : PathAt) → FoundBadPath depth xs first → x.entry ≡ bad.entry → FailsSo depth x bad.fault
        → FoundBadPath depth (xs ++ x ∷ []) (Some result) }
{
    let Some(first) = first else {
        return bad;
    };
    if bad.entry < first.entry {
        return bad;
    }
    first
}

/// The first path, in written order, that has more than 256 strings or none, where a string has at
/// most `depth` attributes.
pub(crate) fn first_bad_path(
    alloc: Global,
    plain: &Plain,
    depth: u8,
) -> Result<Option<BadPath>, AllocError>
    requires { IsRange depth }
    ensures { IfOk result (FoundBadPath depth (draft_paths (plain_form plain.now))) }
{
    let paths = all_paths(alloc, plain)?;
    let mut first = None;
    for written in &paths {
        if let Some(fault) = fault_of(alloc, *written, depth)? {
            let bad = BadPath {
                entry: written.entry,
                fault,
            };
            first = Some(earlier(first, bad));
        }
    }
    Ok(first)
}
