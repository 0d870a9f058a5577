ghost use Rattle.std.specs.Prelude.{◌≡◌, IfOk, IfSome, OnOk, MatchOption, None, Some, List, [], ◌∷◌, ◌++◌, length, map};
ghost use Rattle.lfg_terms.specs.declared.draft.Template.{Template};
ghost use Rattle.lfg_model.specs.Lists.{In};
ghost use Rattle.lfg_model.specs.DraftForms.{template_form};
ghost use Rattle.lfg_model.specs.Templates.{template_named};
ghost use Rattle.lfg_templates.specs.Graphs.{place_in};
ghost use Rattle.lfg_templates.specs.Places.{ArePlaces, first_place};

use indexmap::IndexMap;
use lfg_terms::{Name, Template};
use std::alloc::{AllocError, Global};
use std::marker::Model;

/// The templates of a draft, in their order, of which the first of a name is found without a search
/// through all.
#[derive(Drop)]
pub(crate) struct Templates<'a> {
    list: &'a [Template],
    places: IndexMap<Name, usize>,
}

impl<'a> Model for Templates<'a> {
    ghost use Rattle.std.specs.Prelude.{List};
    ghost use Rattle.lfg_terms.specs.declared.draft.Template.{Template};
    ghost use Rattle.lfg_templates.specs.Places.{ArePlaces};
    ghost use Rattle.lfg_terms.specs.contracts.grammar.Schema as schema;
    ghost use Rattle.lfg_terms.specs.contracts.path_expr.PathExpr as path;
    ghost use Rattle.std.specs.Coded.{codes};

    ghost Value = { List Template };

    ghost coded = { Prim.hlevel (codes, (schema.the_row path.the_row).coded) };

    ghost view = { λ t. t.list.now };

    ghost invariant = { λ t. ArePlaces t.list.now t.places };
}

/// Puts the name of the template at this place behind those of the templates before it, where it is
/// new.
fn add_place(
    places: &mut IndexMap<Name, usize>,
    template: &Template,
    place: usize,
) -> Result<(), AllocError>
    ensures { OnOk result ((ts : List Template) → length ts ≡ place → ArePlaces ts places.old → ArePlaces (ts ++ template.now ∷ []) places.new) }
{
    if let Some(_) = places.get(&template.name) {
        return Ok(());
    }
    places.insert(template.name.clone()?, place)?;
    Ok(())
}

/// For each name the place of the first template that has it, from 0.
fn places_of(alloc: Global, templates: &[Template]) -> Result<IndexMap<Name, usize>, AllocError>
    ensures { IfOk result (λ places. ArePlaces templates.now places) }
{
    let mut places = IndexMap::new(alloc);
    for (place, template) in templates.iter().enumerate() {
        add_place(&mut places, template, place)?;
    }
    Ok(places)
}

impl<'a> Templates<'a> {
    /// These templates.
    pub(crate) fn new(alloc: Global, list: &'a [Template]) -> Result<Templates<'a>, AllocError>
        ensures { IfOk result (λ t. t ≡ list.now) }
    {
        let places = places_of(alloc, list)?;
        Ok(Templates { list, places })
    }

    /// The templates in their order.
    pub(crate) fn list(&self) -> &'a [Template]
        ensures { result.now ≡ self.now }
    {
        self.list
    }

    /// The place of the first template of this name.
    fn first_place(&self, name: &Name) -> Option<usize>
        ensures { result ≡ first_place (map template_form self.now) name.now }
    {
        self.places.get(name).copied()
    }

    /// The place of the first template of this name, or the number of templates.
    pub(crate) fn place_of(&self, name: &Name) -> usize
        ensures { result ≡ place_in (map template_form self.now) name.now }
    {
        match self.first_place(name) {
            Some(place) => place,
            None => self.list().len(),
        }
    }

    /// The first template of this name.
    pub(crate) fn named(&self, name: &Name) -> Option<&'a Template>
        ensures among { IfSome result (λ t. In t.now self.now) }
        ensures first { MatchOption result
            (template_named (map template_form self.now) name.now ≡ None)
            (λ t. template_named (map template_form self.now) name.now ≡ Some (template_form t.now)) }
    {
        match self.first_place(name) {
            Some(place) => Some(&self.list()[place]),
            None => None,
        }
    }
}
