ghost use Rattle.std.specs.Prelude.{◌≡◌, ℕ, ◌+◌, ◌++◌, [], IfOk, OnOk, List, length, map, if◌then◌else◌};
ghost use Rattle.std.specs.List.{sum_by};
ghost use Rattle.lfg_context.specs.Sets.{Assignment, member, AreMade, IsMade, IsGrown};
ghost use Rattle.lfg_instant.specs.Holding.{holding};
ghost use Rattle.lfg_instant.specs.Picked.{HavePickedOf};
ghost use Rattle.lfg_instant.specs.Junctions.{placed, AreJunctions};
ghost use Rattle.lfg_instant.specs.Literals.{key_literals, key_size, IsSiteKey, listed_of};
ghost use Rattle.lfg_instant.specs.Sites.{site_key, site_of_key};
ghost use Rattle.lfg_model.specs.Lists.{In};
ghost use Rattle.lfg_model.specs.Loaded.{Loaded};
ghost use Rattle.lfg_packed.specs.Choices.{IsSite, annotation_at, choice_of};
ghost use Rattle.lfg_packed.specs.SpotFacts.{instance_at, category_at, below_of};
ghost use Rattle.lfg_packed.specs.declared.key.ChoiceKey.{ChoiceKey};
ghost use Rattle.lfg_terms.specs.declared.literal.Site.{Site};

use crate::annotation::Instance;
use crate::facts::{item_at, items_of};
use crate::junctions::{Junction, place_numbers};
use crate::places::forms;
use crate::schemata::schemata_at;
use crate::sets::site_sets;
use lfg_choice::ChoiceSpace;
use lfg_context::{Contexts, Ctx};
use lfg_packed::ChoiceKey;
use lfg_terms::{Edge, Grammar, Literal, Site, TokenForms};
use std::alloc::{AllocError, Global};

/// The item or entry of a key.
fn site_of(key: &ChoiceKey) -> Result<Site, AllocError>
    ensures { IfOk result (λ at. at ≡ site_of_key key.now) }
{
    let edge = key.edge.clone()?;
    if key.rank == 2 {
        Ok(Site::Item {
            edge,
            occ: key.item,
            at: key.from,
            to: key.to,
        })
    } else {
        Ok(Site::Entry {
            edge,
            entry: key.item,
        })
    }
}

/// The edge over which an item goes: the daughter's, or the mother's own for `e`; at an entry the
/// word's.
fn below(grammar: &Grammar, key: &ChoiceKey) -> Result<Edge, AllocError>
    ensures { IfOk result (λ edge. edge ≡ (instance_at grammar.now (site_of_key key.now)).down) }
{
    if key.rank != 2 {
        return key.edge.clone();
    }
    let items = items_of(grammar, &key.edge.cat);
    let Some(item) = item_at(items, key.item) else {
        return key.edge.clone();
    };
    let Some(cat) = &item.cat else {
        return key.edge.clone();
    };
    Ok(Edge {
        cat: cat.clone()?,
        from: key.from,
        to: key.to,
    })
}

/// Adds the literals of an item or entry, each in the meet of its set and of the picks that it
/// stands under.
#[tactic(auto, using(lfg_context::proofs::Growing::growing, crate::proofs::PickedLaws::picked))]
fn add_literals(
    alloc: Global,
    grammar: &Grammar,
    tokens: &[TokenForms],
    junctions: &[Junction],
    space: &ChoiceSpace,
    key: &ChoiceKey,
    ctx: &Ctx,
    literals: &mut Vec<(Literal, Ctx)>,
    contexts: &mut Contexts,
) -> Result<(), AllocError>
    requires loaded { Loaded grammar.now }
    requires junctions { AreJunctions grammar.now tokens.now junctions.now }
    requires space { space.now ≡ map choice_of (map placed junctions.now) }
    requires picks { HavePickedOf contexts.old space.now }
    requires key { IsSiteKey grammar.now tokens.now key.now }
    requires ctx_made { IsMade contexts.old ctx.now }
    requires made { AreMade contexts.old (λ x. x.1) literals.old.items }
    ensures each { OnOk result ((a : Assignment) → holding literals.new.items a
        ≡ holding literals.old.items a ++ (if member ctx.now a then key_literals grammar.now tokens.now (map placed junctions.now) a key.now else [])) }
    ensures count { OnOk result (length literals.new.items ≡ length literals.old.items + key_size grammar.now key.now) }
    ensures made { AreMade contexts.new (λ x. x.1) literals.new.items }
    ensures grown { IsGrown contexts.old contexts.new }
    ensures picks { HavePickedOf contexts.new space.now }
{
    let schemata = schemata_at(grammar, key);
    // A number of forms past 32 bits is taken for want of memory.
    if forms(schemata) == u32::MAX {
        return Err(AllocError);
    }
    let numbers = place_numbers(alloc, schemata)?;
    let sets = site_sets(
        alloc, grammar, tokens, junctions, space, key, &numbers, contexts,
    )?;
    let site = site_of(key)?;
    let down = below(grammar, key)?;
    let instance = Instance {
        up: &key.edge,
        down: &down,
        site: &site,
    };
    instance.push_instances(alloc, literals, schemata, ctx, &sets, 0, contexts)?;
    Ok(())
}

/// The literals of items and entries, whose sets stand beside their keys.
#[tactic(auto, using(lfg_context::proofs::Growing::growing, crate::proofs::PickedLaws::picked))]
pub(crate) fn literals_of(
    alloc: Global,
    grammar: &Grammar,
    tokens: &[TokenForms],
    junctions: &[Junction],
    space: &ChoiceSpace,
    keys: &[ChoiceKey],
    sets: &[Ctx],
    contexts: &mut Contexts,
) -> Result<Vec<(Literal, Ctx)>, AllocError>
    requires loaded { Loaded grammar.now }
    requires junctions { AreJunctions grammar.now tokens.now junctions.now }
    requires space { space.now ≡ map choice_of (map placed junctions.now) }
    requires picks { HavePickedOf contexts.old space.now }
    requires keys { (key : ChoiceKey) → In key keys.now → IsSiteKey grammar.now tokens.now key }
    requires len { length sets.now ≡ length keys.now }
    requires made { AreMade contexts.old (λ x. x) sets.now }
    ensures each { IfOk result (λ literals. (a : Assignment) → holding literals.items a
        ≡ listed_of (key_literals grammar.now tokens.now (map placed junctions.now) a) keys.now sets.now a) }
    ensures count { IfOk result (λ literals. length literals.items ≡ sum_by (key_size grammar.now) keys.now) }
    ensures made { IfOk result (λ literals. AreMade contexts.new (λ x. x.1) literals.items) }
    ensures grown { IsGrown contexts.old contexts.new }
    ensures picks { HavePickedOf contexts.new space.now }
{
    let mut literals = Vec::new(alloc);
    for (place, key) in keys.iter().enumerate() {
        add_literals(
            alloc,
            grammar,
            tokens,
            junctions,
            space,
            key,
            &sets[place],
            &mut literals,
            contexts,
        )?;
    }
    Ok(literals)
}
