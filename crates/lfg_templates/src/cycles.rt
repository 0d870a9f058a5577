ghost use Rattle.std.specs.Prelude.{◌≡◌, ◌<◌, IfOk, OnOk, IsTrue, List, [], ◌∷◌, ◌++◌, false, length, map};
ghost use Rattle.std.specs.Option.{option_map};
ghost use Rattle.lfg_model.specs.Lists.{In};
ghost use Rattle.lfg_model.specs.DraftForms.{TemplateForm, template_form};
ghost use Rattle.lfg_model.specs.TemplateRules.{IsCyclic, template_entry, template_name};
ghost use Rattle.lfg_templates.specs.Graphs.{place_in, row_of, graph_of, row_at, Walks, Tied, Reached};
ghost use Rattle.lfg_templates.specs.Spots.{Finds};
ghost use Rattle.lfg_templates.specs.Views.{called_of, spot_of};

use crate::calls::{Called, push_calls};
use crate::graph::Graph;
use crate::spots::{Spot, earlier};
use crate::templates::Templates;
use lfg_terms::Template;
use std::alloc::{AllocError, Global};

/// The places of the templates that are called.
fn places_of(
    alloc: Global,
    templates: &Templates<'_>,
    calls: &[Called<'_>],
) -> Result<Vec<usize>, AllocError>
    ensures { IfOk result (λ v. v.items ≡ map (λ c. place_in (map template_form templates.now) c.name.now) calls.now) }
{
    let mut out = Vec::new(alloc);
    for call in calls {
        out.push(templates.place_of(call.name))?;
    }
    Ok(out)
}

/// The places of the templates that the body of the template calls.
fn row_of(
    alloc: Global,
    templates: &Templates<'_>,
    template: &Template,
) -> Result<Vec<usize>, AllocError>
    ensures { IfOk result (λ v. v.items ≡ row_of (map template_form templates.now) (template_form template.now)) }
{
    let mut calls = Vec::new(alloc);
    push_calls(&mut calls, template.entry, template.body.list())?;
    places_of(alloc, templates, &calls)
}

/// For each template the places of those that its body calls.
fn graph_of(alloc: Global, templates: &Templates<'_>) -> Result<Graph, AllocError>
    ensures { IfOk result (λ graph. graph ≡ graph_of (map template_form templates.now)) }
{
    let list = templates.list();
    let mut out = Vec::new(alloc);
    for template in list {
        out.push(row_of(alloc, templates, template)?)?;
    }
    Graph::new(alloc, out)
}

/// The first spot so far, where the template comes behind and may call itself.
fn with_cycle<'a>(
    alloc: Global,
    templates: &Templates<'_>,
    graph: &Graph,
    first: Option<Spot<'a>>,
    template: &'a Template,
) -> Result<Option<Spot<'a>>, AllocError>
    requires graph { graph.now ≡ graph_of (map template_form templates.now) }
    requires among { In template.now templates.now }
    ensures { IfOk result (λ r. (ts : List TemplateForm)
        → Finds template_entry template_name (IsCyclic (map template_form templates.now)) ts (option_map spot_of first.entry)
        → Finds template_entry template_name (IsCyclic (map template_form templates.now)) (ts ++ template_form template.now ∷ []) (option_map spot_of r)) }
{
    let place = templates.place_of(&template.name);
    if !graph.leads_back(alloc, place)? {
        return Ok(first);
    }
    let spot = Spot {
        entry: template.entry,
        name: &template.name,
    };
    Ok(earlier(first, Some(spot)))
}

/// The first template, in written order, that calls itself, directly or through others.
pub(crate) fn first_cycle<'a>(
    alloc: Global,
    templates: &Templates<'a>,
) -> Result<Option<Spot<'a>>, AllocError>
    ensures { IfOk result (λ r. Finds template_entry template_name (IsCyclic (map template_form templates.now)) (map template_form templates.now) (option_map spot_of r)) }
{
    let list = templates.list();
    let graph = graph_of(alloc, templates)?;
    let mut first = None;
    for template in list {
        first = with_cycle(alloc, templates, &graph, first, template)?;
    }
    Ok(first)
}
