ghost use Rattle.std.specs.Prelude.{◌≡◌, ◌≤◌, IfOk, IfErr, OnOk, length};
ghost use Rattle.lfg_model.specs.Loaded.{Loaded};
ghost use Rattle.lfg_parse.specs.Packs.{Packs, HaveNoNewNode, UnpacksToReadings, IsParseWithin, IsParseFault};

use crate::charted::charted;
use crate::fault::ParseFault;
use crate::judging::judge;
use lfg_choice::ChoiceSpace;
use lfg_context::Contexts;
use lfg_instant::instantiate;
use lfg_store::Packed;
use lfg_terms::{Grammar, TokenForms};
use std::alloc::Global;

/// The packed parse of a sentence: its choices, the assignments whose derivation the grammar assigns to
/// it, and the tree and the f-structure of each, as facts with the assignments at which they stand.
///
/// `tokens` are at most 64. No derivation and no reading is listed (contexted facts after Maxwell and
/// Kaplan 1989).
///
/// # Errors
///
/// `TooLarge`, just where the parse count is above the grammar's limit on facts; `count` is then the
/// limit and 1. `Memory` for want of memory.
#[tactic(auto, using(crate::proofs::Closures::closures))]
pub fn parse(alloc: Global, grammar: &Grammar, tokens: &[TokenForms]) -> Result<Packed, ParseFault>
    requires loaded { Loaded grammar.now }
    requires tokens { length tokens.now ≤ 64 }
    ensures packs { IfOk result (Packs grammar.now tokens.now) }
    ensures readings { IfOk result (UnpacksToReadings grammar.now tokens.now) }
    ensures plain { IfOk result (λ packed. HaveNoNewNode packed.facts) }
    ensures within { OnOk result (IsParseWithin grammar.now tokens.now grammar.now.maxfacts) }
    ensures fault { IfErr result (IsParseFault grammar.now tokens.now) }
{
    let chart = charted(alloc, grammar, tokens)?;
    let mut space = ChoiceSpace::new(alloc);
    let mut contexts = Contexts::new(alloc);
    let instances = instantiate(
        alloc,
        grammar,
        tokens,
        &chart,
        &mut space,
        &mut contexts,
        grammar.maxfacts,
    )?;
    let judged = judge(alloc, grammar, tokens, &chart, &instances, &mut contexts)?;
    if judged.facts.len() > grammar.maxfacts {
        return Err(ParseFault::TooLarge {
            count: grammar.maxfacts + 1,
        });
    }
    Ok(Packed {
        space,
        contexts,
        good: judged.good,
        tree: judged.tree,
        facts: judged.facts,
    })
}
