ghost use Rattle.std.specs.Prelude.{◌≡◌, ◌<◌, ◌+◌, ◌++◌, Some, IfOk, IfSome, OnOk, length, map, slice_get};
ghost use Rattle.lfg_context.specs.Sets.{IsGrown, HasSamePicks, AreMade};
ghost use Rattle.lfg_model.specs.Charts.{points_of};
ghost use Rattle.lfg_model.specs.Derive.{edge};
ghost use Rattle.lfg_instant.specs.Junctions.{placed, AreJunctions};
ghost use Rattle.lfg_instant.specs.Outlines.{IsOutline, IsReachedTable};
ghost use Rattle.lfg_instant.specs.Ways.{ArePicks, AreStepPicks, AreWordPicks};

use crate::flow::flow;
use crate::junctions::Junction;
use crate::passages::passages_of;
use crate::steps::{Step, Word};
use crate::ways::Outline;
use lfg_context::{Contexts, Ctx};
use lfg_terms::List;
use std::alloc::{AllocError, Global};

/// Adds sets to some others.
fn add_sets(sets: &[Ctx], picks: &mut Vec<Ctx>) -> Result<(), AllocError>
    ensures { OnOk result (picks.new.items ≡ picks.old.items ++ sets.now) }
{
    for set in sets {
        picks.push(set.share()?)?;
    }
    Ok(())
}

/// The picks of passages: all assignments, then the sets of steps and of words.
fn picks_of(
    alloc: Global,
    step_picks: &[Ctx],
    word_picks: &[Ctx],
    contexts: &Contexts,
) -> Result<Vec<Ctx>, AllocError>
    requires steps { AreMade contexts.now (λ x. x) step_picks.now }
    requires words { AreMade contexts.now (λ x. x) word_picks.now }
    ensures picks { IfOk result (λ picks. ArePicks step_picks.now word_picks.now picks.items) }
    ensures made { IfOk result (λ picks. AreMade contexts.now (λ x. x) picks.items) }
{
    let mut picks = Vec::new(alloc);
    picks.push(contexts.yes())?;
    add_sets(step_picks, &mut picks)?;
    add_sets(word_picks, &mut picks)?;
    Ok(picks)
}

/// How many places there are.
fn place_count(outline: &Outline) -> Option<usize>
    ensures fit { IfSome result (λ places. places < 18446744073709551616) }
    ensures sum { IfSome result (λ places. places ≡ length outline.now.chart.now.edges + length (points_of outline.now.chart.now.forks) + length outline.now.keys.now + length outline.now.facts.now) }
{
    let edges = outline.chart.edges().len();
    let points = outline.chart.points().len();
    let nodes = edges.checked_add(points)?;
    let sites = nodes.checked_add(outline.keys.len())?;
    sites.checked_add(outline.facts.len())
}

/// The contexts of all edges, then of all points, of the items and entries by their keys, and of the
/// facts of trees: in which assignments each is reached. The sets of steps and words say in which
/// assignments each is taken, and `root` is the place of the root's edge.
///
/// # Errors
///
/// For want of memory, and where the places need more than 64 bits.
#[tactic(auto, using(lfg_context::proofs::Growing::growing))]
pub(crate) fn contexts_of(
    alloc: Global,
    outline: &Outline,
    lists: &[List<u32>],
    steps: &[Step],
    words: &[Word],
    junctions: &[Junction],
    step_picks: &[Ctx],
    word_picks: &[Ctx],
    root: usize,
    contexts: &mut Contexts,
) -> Result<Vec<Ctx>, AllocError>
    requires outline { IsOutline outline.now.grammar.now outline.now.tokens.now outline.now.chart.now lists.now steps.now words.now outline.now.keys.now outline.now.facts.now }
    requires junctions { AreJunctions outline.now.grammar.now outline.now.tokens.now junctions.now }
    requires step_picks { AreStepPicks outline.now.grammar.now outline.now.tokens.now (map placed junctions.now) steps.now step_picks.now }
    requires word_picks { AreWordPicks outline.now.grammar.now outline.now.tokens.now (map placed junctions.now) words.now word_picks.now }
    requires steps_made { AreMade contexts.old (λ x. x) step_picks.now }
    requires words_made { AreMade contexts.old (λ x. x) word_picks.now }
    requires root { slice_get outline.now.chart.now.edges root ≡ Some (edge outline.now.grammar.now.root 0 (length outline.now.tokens.now)) }
    ensures made { IfOk result (λ table. AreMade contexts.new (λ x. x) table.items) }
    ensures grown { IsGrown contexts.old contexts.new }
    ensures picks { HasSamePicks contexts.old contexts.new }
    ensures exact { IfOk result (λ table. IsReachedTable outline.now.grammar.now outline.now.tokens.now (map placed junctions.now) outline.now.chart.now lists.now outline.now.keys.now outline.now.facts.now table.items) }
{
    let _ = lists;
    let _ = junctions;
    let Some(places) = place_count(outline) else {
        return Err(AllocError);
    };
    let picks = picks_of(alloc, step_picks, word_picks, contexts)?;
    let passages = passages_of(alloc, outline, steps, words)?;
    flow(alloc, places, root, &passages, &picks, contexts)
}
