ghost use Rattle.lfg_store.specs.Packing.{IsPacked};
ghost use Rattle.lfg_store.specs.Props.{is_packed_prop};

use crate::store::FactStore;
use lfg_choice::ChoiceSpace;
use lfg_context::{Contexts, Ctx};

/// Many readings at once: for each assignment of alternatives to choices, whether it is good, and
/// for each good one a tree and the facts of its f-structure.
///
/// `good` and the contexts of the facts were made by `contexts` and depend on the choices of `space`
/// alone. Each context of a fact lies within `good`. A choice of `space` that `contexts` has picked
/// was picked with its number of alternatives there; a place behind the end of `space`, which a
/// rewriting that was refused may have picked, was picked with two.
#[derive(Drop)]
pub struct Packed {
    pub space: ChoiceSpace,
    pub contexts: Contexts,
    pub good: Ctx,
    pub tree: FactStore,
    pub facts: FactStore,
    ghost is_packed: { IsPacked contexts space good tree facts } by { is_packed_prop contexts space good tree facts },
}
