ghost use Rattle.std.specs.Prelude.{◌≡◌, ℕ, IfOk, IfErr, List, map};
ghost use Rattle.lfg_terms.specs.Order.{name_cmp};
ghost use Rattle.lfg_model.specs.DraftForms.{PlainForm, plain_form};
ghost use Rattle.lfg_model.specs.Loads.{Assembles, draft_paths};
ghost use Rattle.lfg_grammar.specs.Answers.{FailsIn, IsRange, SomeBad, path_of_entry};
ghost use Rattle.lfg_grammar.specs.Halves.{IsSideFault};
ghost use Rattle.lfg_grammar.specs.Parts.{IsWithoutCalls, ArePartsOf, PartsAs, IsPathFault};
ghost use Rattle.lfg_grammar.specs.Read.{AreRead};

use crate::bad_paths::first_bad_path;
use crate::categories::categories_of;
use crate::faults::path_fault;
use crate::rules::{Half, load_halves, with_graphs};
use crate::settings::Settings;
use crate::words::load_words;
use lfg_model::GrammarFault;
use lfg_regpath::PathFault;
use lfg_terms::{Grammar, Lex, List, Plain};
use std::alloc::Global;

/// The rules and the words of a grammar, each path replaced by its strings.
#[derive(Drop)]
pub(crate) struct Parts {
    pub(crate) rules: Vec<Half>,
    pub(crate) words: Vec<Lex>,
}

/// The rules and the words of the draft.
pub(crate) fn load_parts(alloc: Global, plain: &Plain, depth: u8) -> Result<Parts, PathFault>
    requires range { IsRange depth }
    requires no_calls { IsWithoutCalls plain.now }
    ensures { PartsAs depth (plain_form plain.now) result }
{
    let rules = load_halves(alloc, plain.rules.list(), depth)?;
    let words = load_words(alloc, plain.entries.list(), depth)?;
    Ok(Parts { rules, words })
}

/// The fault of the first path that fails, or want of memory.
fn first_fault(alloc: Global, plain: &Plain, depth: u8) -> GrammarFault
    requires range { IsRange depth }
    requires some { SomeBad depth (map path_of_entry (draft_paths (plain_form plain.now))) }
    ensures { IsPathFault depth (plain_form plain.now) result }
{
    match first_bad_path(alloc, plain, depth) {
        Ok(Some(bad)) => path_fault(bad.entry, bad.fault),
        Ok(None) => unreachable!(),
        Err(_) => GrammarFault::Memory,
    }
}

/// The fault of a draft of which a path fails, or want of memory.
pub(crate) fn bad_path(alloc: Global, plain: &Plain, depth: u8, fault: PathFault) -> GrammarFault
    requires range { IsRange depth }
    requires fails { FailsIn depth (map path_of_entry (draft_paths (plain_form plain.now))) fault }
    ensures { IsPathFault depth (plain_form plain.now) result }
{
    match fault {
        PathFault::TooManyPaths => first_fault(alloc, plain, depth),
        PathFault::NoPath => first_fault(alloc, plain, depth),
        PathFault::Memory => GrammarFault::Memory,
    }
}

/// The grammar of these settings and parts.
///
/// # Errors
///
/// The fault of the first rule that has no graph, or want of memory.
pub(crate) fn assemble(
    alloc: Global,
    settings: Settings,
    parts: Parts,
) -> Result<Grammar, GrammarFault>
    ensures grammar { (p : PlainForm) → AreRead p.settings settings → ArePartsOf settings.depth p parts → IfOk result (Assembles p) }
    ensures fault { (p : PlainForm) → ArePartsOf settings.depth p parts → IfErr result (IsSideFault p.rules) }
{
    let rules = with_graphs(alloc, parts.rules)?;
    let words = parts.words;
    let cats = categories_of(alloc, &settings.root, &rules, &words)?;
    Ok(Grammar {
        root: settings.root,
        governable: settings.governable,
        gensize: settings.gensize,
        maxfacts: settings.maxfacts,
        cats: List::new(alloc, cats)?,
        rules: List::new(alloc, rules)?,
        lexicon: List::new(alloc, words)?,
    })
}
