ghost use Rattle.std.specs.Prelude.{◌≡◌, ℕ, [], Some, IfNone, IfSome, IfOk, IfErr, OnOk, OnErr, length, map, slice_get};
ghost use Rattle.lfg_context.specs.Sets.{arity_of, AreMade, IsGrown};
ghost use Rattle.lfg_model.specs.Charts.{IsChart};
ghost use Rattle.lfg_model.specs.Derive.{edge};
ghost use Rattle.lfg_model.specs.Lists.{In};
ghost use Rattle.lfg_model.specs.Loaded.{Loaded};
ghost use Rattle.lfg_packed.specs.Choices.{choice_of};
ghost use Rattle.lfg_packed.specs.Counts.{IsLiteralCount};
ghost use Rattle.lfg_instant.specs.Holding.{beside};
ghost use Rattle.lfg_instant.specs.Instants.{AreSpaceOf, AreLiteralsOf, AreFactsOf, IsWithin, IsInstantFault};
ghost use Rattle.lfg_instant.specs.Junctions.{placed, AreJunctions};
ghost use Rattle.lfg_instant.specs.Outlines.{IsOutline, IsReachedTable};
ghost use Rattle.lfg_instant.specs.Picked.{HavePickedOf};

use crate::fault::InstantFault;
use crate::layout::{Layout, check_size, layout_of};
use crate::literals::literals_of;
use crate::picks::push_choices;
use crate::reached::contexts_of;
use crate::taken::{step_picks, word_picks};
use crate::ways::Outline;
use lfg_chart::Chart;
use lfg_choice::ChoiceSpace;
use lfg_context::{Contexts, Ctx};
use lfg_terms::{Edge, Fact, Grammar, Literal, TokenForms};
use std::alloc::{AllocError, Global};

/// The literals and the tree facts of a sentence, each with the set of the assignments whose
/// derivation has it.
///
/// A literal stands in the list once for each item or entry and each way of resolving its annotation
/// that gives it. A fact of a tree stands there once; the facts are in order.
#[derive(Drop)]
pub struct Instances {
    pub literals: Vec<(Literal, Ctx)>,
    pub tree: Vec<(Fact, Ctx)>,
}

/// Facts beside their sets.
fn facts_beside(alloc: Global, facts: &[Fact], sets: &[Ctx]) -> Result<Vec<(Fact, Ctx)>, AllocError>
    requires { length sets.now ≡ length facts.now }
    ensures { IfOk result (λ pairs. pairs.items ≡ beside facts.now sets.now) }
{
    let mut pairs = Vec::new(alloc);
    for (place, fact) in facts.iter().enumerate() {
        pairs.push((fact.clone()?, sets[place].share()?))?;
    }
    Ok(pairs)
}

/// The place of the edge of the whole sentence among the edges of its chart, if it is there.
///
/// # Errors
///
/// For want of memory; and where the number of tokens is past 32 bits.
fn root_place(
    grammar: &Grammar,
    tokens: &[TokenForms],
    chart: &Chart,
) -> Result<Option<usize>, AllocError>
    ensures found { IfOk result (λ place. IfSome place (λ i. slice_get chart.now.edges i ≡ Some (edge grammar.now.root 0 (length tokens.now)))) }
    ensures absent { IfOk result (λ place. IfNone place (¬ In (edge grammar.now.root 0 (length tokens.now)) chart.now.edges)) }
{
    let Ok(to) = u32::try_from(tokens.len()) else {
        return Err(AllocError);
    };
    let root = Edge {
        cat: grammar.root.clone()?,
        from: 0,
        to,
    };
    Ok(chart.place_of_edge(&root))
}

/// The sets of all edges, points, items, entries and tree facts of a sentence whose root's edge has
/// this place.
#[tactic(auto, using(lfg_context::proofs::Growing::growing, crate::proofs::PickedLaws::picked))]
fn table_of(
    alloc: Global,
    outline: &Outline,
    layout: &Layout,
    space: &ChoiceSpace,
    root: usize,
    contexts: &mut Contexts,
) -> Result<Vec<Ctx>, AllocError>
    requires outline { IsOutline outline.now.grammar.now outline.now.tokens.now outline.now.chart.now layout.now.lists.items layout.now.steps.items layout.now.words.items outline.now.keys.now outline.now.facts.now }
    requires junctions { AreJunctions outline.now.grammar.now outline.now.tokens.now layout.now.junctions.items }
    requires space { space.now ≡ map choice_of (map placed layout.now.junctions.items) }
    requires picks { HavePickedOf contexts.old space.now }
    requires root { slice_get outline.now.chart.now.edges root ≡ Some (edge outline.now.grammar.now.root 0 (length outline.now.tokens.now)) }
    ensures made { IfOk result (λ table. AreMade contexts.new (λ x. x) table.items) }
    ensures grown { IsGrown contexts.old contexts.new }
    ensures picks { HavePickedOf contexts.new space.now }
    ensures exact { IfOk result (λ table. IsReachedTable outline.now.grammar.now outline.now.tokens.now (map placed layout.now.junctions.items) outline.now.chart.now layout.now.lists.items outline.now.keys.now outline.now.facts.now table.items) }
{
    let grammar = outline.grammar;
    let tokens = outline.tokens;
    let junctions = layout.junctions.as_slice();
    let steps = step_picks(
        alloc,
        grammar,
        tokens,
        junctions,
        space,
        &layout.steps,
        contexts,
    )?;
    let words = word_picks(
        alloc,
        grammar,
        tokens,
        junctions,
        space,
        &layout.words,
        contexts,
    )?;
    let table = contexts_of(
        alloc,
        outline,
        &layout.lists,
        &layout.steps,
        &layout.words,
        junctions,
        &steps,
        &words,
        root,
        contexts,
    )?;
    Ok(table)
}

/// The literals and tree facts of a sentence, by the sets of all that it has.
#[tactic(auto, using(lfg_context::proofs::Growing::growing, crate::proofs::PickedLaws::picked))]
fn instances_by(
    alloc: Global,
    outline: &Outline,
    layout: &Layout,
    space: &ChoiceSpace,
    root: usize,
    table: &[Ctx],
    contexts: &mut Contexts,
) -> Result<Instances, AllocError>
    requires outline { IsOutline outline.now.grammar.now outline.now.tokens.now outline.now.chart.now layout.now.lists.items layout.now.steps.items layout.now.words.items outline.now.keys.now outline.now.facts.now }
    requires junctions { AreJunctions outline.now.grammar.now outline.now.tokens.now layout.now.junctions.items }
    requires space { space.now ≡ map choice_of (map placed layout.now.junctions.items) }
    requires picks { HavePickedOf contexts.old space.now }
    requires root { slice_get outline.now.chart.now.edges root ≡ Some (edge outline.now.grammar.now.root 0 (length outline.now.tokens.now)) }
    requires table { IsReachedTable outline.now.grammar.now outline.now.tokens.now (map placed layout.now.junctions.items) outline.now.chart.now layout.now.lists.items outline.now.keys.now outline.now.facts.now table.now }
    requires made { AreMade contexts.old (λ x. x) table.now }
    ensures literals { IfOk result (λ it. AreLiteralsOf outline.now.grammar.now outline.now.tokens.now it.literals.items) }
    ensures facts { IfOk result (λ it. AreFactsOf outline.now.grammar.now outline.now.tokens.now it.tree.items) }
    ensures count { IfOk result (λ it. IsLiteralCount outline.now.grammar.now outline.now.tokens.now (length it.literals.items)) }
    ensures literals_made { IfOk result (λ it. AreMade contexts.new (λ x. x.1) it.literals.items) }
    ensures facts_made { IfOk result (λ it. AreMade contexts.new (λ x. x.1) it.tree.items) }
    ensures grown { IsGrown contexts.old contexts.new }
    ensures picks { HavePickedOf contexts.new space.now }
{
    let _ = root;
    let nodes = outline.chart.edges().len() + outline.chart.points().len();
    let (_, others) = table.split_at(nodes);
    let (sites, facts) = others.split_at(outline.keys.len());
    let literals = literals_of(
        alloc,
        outline.grammar,
        outline.tokens,
        &layout.junctions,
        space,
        outline.keys,
        sites,
        contexts,
    )?;
    let tree = facts_beside(alloc, outline.facts, facts)?;
    Ok(Instances { literals, tree })
}

/// The literals and tree facts of a sentence whose choices are those of the space.
#[tactic(auto, using(lfg_context::proofs::Growing::growing, crate::proofs::PickedLaws::picked))]
fn instances_of(
    alloc: Global,
    outline: &Outline,
    layout: &Layout,
    space: &ChoiceSpace,
    contexts: &mut Contexts,
) -> Result<Instances, AllocError>
    requires outline { IsOutline outline.now.grammar.now outline.now.tokens.now outline.now.chart.now layout.now.lists.items layout.now.steps.items layout.now.words.items outline.now.keys.now outline.now.facts.now }
    requires junctions { AreJunctions outline.now.grammar.now outline.now.tokens.now layout.now.junctions.items }
    requires space { space.now ≡ map choice_of (map placed layout.now.junctions.items) }
    requires picks { HavePickedOf contexts.old space.now }
    ensures literals { IfOk result (λ it. AreLiteralsOf outline.now.grammar.now outline.now.tokens.now it.literals.items) }
    ensures facts { IfOk result (λ it. AreFactsOf outline.now.grammar.now outline.now.tokens.now it.tree.items) }
    ensures count { IfOk result (λ it. IsLiteralCount outline.now.grammar.now outline.now.tokens.now (length it.literals.items)) }
    ensures literals_made { IfOk result (λ it. AreMade contexts.new (λ x. x.1) it.literals.items) }
    ensures facts_made { IfOk result (λ it. AreMade contexts.new (λ x. x.1) it.tree.items) }
    ensures grown { IsGrown contexts.old contexts.new }
    ensures picks { HavePickedOf contexts.new space.now }
{
    let root = match root_place(outline.grammar, outline.tokens, outline.chart)? {
        Some(root) => root,
        None => {
            return Ok(Instances {
                literals: Vec::new(alloc),
                tree: Vec::new(alloc),
            });
        }
    };
    let table = table_of(alloc, outline, layout, space, root, contexts)?;
    let instances = instances_by(alloc, outline, layout, space, root, &table, contexts)?;
    Ok(instances)
}

/// Puts the choices of a sentence into an empty space, and makes its literals and tree facts.
#[tactic(auto, using(lfg_context::proofs::Growing::growing, crate::proofs::PickedLaws::picked))]
fn fill(
    alloc: Global,
    grammar: &Grammar,
    tokens: &[TokenForms],
    chart: &Chart,
    layout: &Layout,
    space: &mut ChoiceSpace,
    contexts: &mut Contexts,
) -> Result<Instances, AllocError>
    requires outline { IsOutline grammar.now tokens.now chart.now layout.now.lists.items layout.now.steps.items layout.now.words.items layout.now.keys.items layout.now.facts.items }
    requires junctions { AreJunctions grammar.now tokens.now layout.now.junctions.items }
    requires empty { space.old ≡ [] }
    requires unpicked { (c : ℕ) → arity_of contexts.old c ≡ 0 }
    ensures literals { IfOk result (λ it. AreLiteralsOf grammar.now tokens.now it.literals.items) }
    ensures facts { IfOk result (λ it. AreFactsOf grammar.now tokens.now it.tree.items) }
    ensures count { IfOk result (λ it. IsLiteralCount grammar.now tokens.now (length it.literals.items)) }
    ensures literals_made { IfOk result (λ it. AreMade contexts.new (λ x. x.1) it.literals.items) }
    ensures facts_made { IfOk result (λ it. AreMade contexts.new (λ x. x.1) it.tree.items) }
    ensures choices { OnOk result (AreSpaceOf grammar.now tokens.now space.new) }
    ensures grown { IsGrown contexts.old contexts.new }
    ensures picks { OnOk result (HavePickedOf contexts.new space.new) }
{
    if layout.junctions.len() >= u32::MAX as usize {
        return Err(AllocError);
    }
    push_choices(&layout.junctions, space)?;
    let outline = Outline {
        grammar,
        tokens,
        chart,
        keys: &layout.keys,
        facts: &layout.facts,
    };
    let instances = instances_of(alloc, &outline, layout, space, contexts)?;
    Ok(instances)
}

/// Puts the choices of a sentence into the space, and gives each of its literals and each fact of its
/// trees with the assignments whose derivation has it.
///
/// The chart is that of this grammar and these tokens; the space is empty, and the contexts have
/// picked nothing. The literals that hold at an assignment are those of the derivation that it picks,
/// each as often as there, and the facts those of its tree (the literals of a derivation are the
/// f-description of Kaplan and Bresnan 1982, annotation by annotation). No derivation is listed.
///
/// # Errors
///
/// `TooLarge`, just where there are more than `max` literals, choices or facts of trees; `count` is
/// then `max` + 1, and no choice was put into the space. `Memory` for want of memory, and where a
/// number is past 32 bits. After each refusal the space is empty, and the contexts serve no other
/// space.
#[tactic(auto, using(lfg_context::proofs::Growing::growing))]
pub fn instantiate(
    alloc: Global,
    grammar: &Grammar,
    tokens: &[TokenForms],
    chart: &Chart,
    space: &mut ChoiceSpace,
    contexts: &mut Contexts,
    max: u32,
) -> Result<Instances, InstantFault>
    requires loaded { Loaded grammar.now }
    requires chart { IsChart grammar.now tokens.now chart.now.edges chart.now.forks }
    requires empty { space.old ≡ [] }
    requires unpicked { (c : ℕ) → arity_of contexts.old c ≡ 0 }
    ensures literals { IfOk result (λ it. AreLiteralsOf grammar.now tokens.now it.literals.items) }
    ensures facts { IfOk result (λ it. AreFactsOf grammar.now tokens.now it.tree.items) }
    ensures count { IfOk result (λ it. IsLiteralCount grammar.now tokens.now (length it.literals.items)) }
    ensures choices { OnOk result (AreSpaceOf grammar.now tokens.now space.new) }
    ensures picks { OnOk result (HavePickedOf contexts.new space.new) }
    ensures literals_made { IfOk result (λ it. AreMade contexts.new (λ x. x.1) it.literals.items) }
    ensures facts_made { IfOk result (λ it. AreMade contexts.new (λ x. x.1) it.tree.items) }
    ensures within { OnOk result (IsWithin grammar.now tokens.now max) }
    ensures fault { IfErr result (IsInstantFault grammar.now tokens.now max) }
    ensures refused { OnErr result (space.new ≡ []) }
    ensures grown { IsGrown contexts.old contexts.new }
{
    let layout = layout_of(alloc, grammar, tokens, chart)?;
    check_size(grammar, tokens, chart, &layout, max)?;
    match fill(alloc, grammar, tokens, chart, &layout, space, contexts) {
        Ok(instances) => Ok(instances),
        Err(_) => {
            *space = ChoiceSpace::new(alloc);
            Err(InstantFault::Memory)
        }
    }
}
