ghost use Rattle.std.specs.Prelude.{◌≡◌, IfOk, [], ◌∷◌, map};
ghost use Rattle.std.specs.Option.{option_map};
ghost use Rattle.lfg_model.specs.Loads.{all_items_of, annotation_for, category_for, items_of, same_structure};
ghost use Rattle.lfg_model.specs.RightSides.{draft_annotation_of, right_side_of, right_sides_of};
ghost use Rattle.lfg_model.specs.TemplateRules.{calls};
ghost use Rattle.lfg_model.specs.Terms.{annotation_of};
ghost use Rattle.lfg_grammar.specs.Answers.{AnnotationAs, AreWithoutCalls, IsRange, ItemAs, ItemsAs, NoCall, written_item};
ghost use Rattle.lfg_grammar.specs.Links.{IsDefault, bare_link};

use crate::annotations::load_annotation;
use lfg_regpath::PathFault;
use lfg_terms::{Arrow, Des, Item, List, Name, PathExpr, Paths, Rhs, Schema, Val};
use std::alloc::{AllocError, Global};

/// The category of an item, `None` for the empty item.
fn category_of(cat: &Name) -> Result<Option<Name>, AllocError>
    ensures { IfOk result (λ o. o ≡ category_for cat.now) }
{
    if cat.text() == "e" {
        return Ok(None);
    }
    Ok(Some(cat.clone()?))
}

/// `^=!`
fn bare_link() -> Schema<Paths>
    ensures { result ≡ bare_link }
{
    Schema::Define {
        left: Des {
            arrow: Arrow::Up,
            path: None,
        },
        right: Val::Des(Des {
            arrow: Arrow::Down,
            path: None,
        }),
    }
}

/// The annotation of an item of this category that has none: `^=!`, or nothing for the empty item.
fn default_annotation(alloc: Global, cat: &Name) -> Result<Vec<Schema<Paths>>, AllocError>
    ensures { IfOk result (IsDefault cat.now) }
{
    let mut schemata = Vec::new(alloc);
    if cat.text() != "e" {
        schemata.push(bare_link())?;
    }
    Ok(schemata)
}

/// The annotation of an item: the one that it has, or the one of an item that has none.
fn load_or_default(
    alloc: Global,
    cat: &Name,
    schemata: &Option<Vec<Schema<PathExpr>>>,
    depth: u8,
) -> Result<Vec<Schema<Paths>>, PathFault>
    requires range { IsRange depth }
    requires no_call { NoCall (calls (annotation_for (written_item cat.now schemata.now))) }
    ensures { AnnotationAs depth (annotation_for (written_item cat.now schemata.now)) result }
{
    let Some(schemata) = schemata else {
        return Ok(default_annotation(alloc, cat)?);
    };
    load_annotation(alloc, schemata, depth)
}

/// An item with its category and its annotation.
fn load_item(
    alloc: Global,
    cat: &Name,
    schemata: &Option<Vec<Schema<PathExpr>>>,
    depth: u8,
) -> Result<Item, PathFault>
    requires range { IsRange depth }
    requires no_call { NoCall (calls (annotation_for (written_item cat.now schemata.now))) }
    ensures { ItemAs depth (written_item cat.now schemata.now) result }
{
    let schemata = load_or_default(alloc, cat, schemata, depth)?;
    Ok(Item {
        cat: category_of(cat)?,
        schemata: List::new(alloc, schemata)?,
    })
}

/// The one item of a right side that is an item.
fn one_item(
    alloc: Global,
    cat: &Name,
    schemata: &Option<Vec<Schema<PathExpr>>>,
    depth: u8,
) -> Result<Vec<Item>, PathFault>
    requires range { IsRange depth }
    requires no_calls { AreWithoutCalls (written_item cat.now schemata.now ∷ []) }
    ensures { ItemsAs depth (written_item cat.now schemata.now ∷ []) result }
{
    let mut items = Vec::new(alloc);
    items.push(load_item(alloc, cat, schemata, depth)?)?;
    Ok(items)
}

/// The items of a right side, in written order.
#[cycle(items)]
pub(crate) fn load_items(alloc: Global, side: &Rhs, depth: u8) -> Result<Vec<Item>, PathFault>
    requires range { IsRange depth }
    requires no_calls { AreWithoutCalls (items_of (right_side_of side.now)) }
    ensures { ItemsAs depth (items_of (right_side_of side.now)) result }
{
    match side {
        Rhs::Item { cat, schemata } => one_item(alloc, cat, schemata, depth),
        Rhs::Row(parts) => load_all_items(alloc, parts, depth),
        Rhs::OneOf(branches) => load_all_items(alloc, branches, depth),
        Rhs::Maybe(inside) => load_items(alloc, inside, depth),
        Rhs::Star(inside) => load_items(alloc, inside, depth),
        Rhs::Plus(inside) => load_items(alloc, inside, depth),
    }
}

/// The items of some right sides, one after the other.
#[cycle(items)]
fn load_all_items(alloc: Global, sides: &[Rhs], depth: u8) -> Result<Vec<Item>, PathFault>
    requires range { IsRange depth }
    requires no_calls { AreWithoutCalls (all_items_of (right_sides_of sides.now)) }
    ensures { ItemsAs depth (all_items_of (right_sides_of sides.now)) result }
{
    let mut items = Vec::new(alloc);
    for side in sides {
        let mut part = load_items(alloc, side, depth)?;
        items.append(&mut part)?;
    }
    Ok(items)
}
