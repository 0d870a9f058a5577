ghost use Rattle.std.specs.Prelude.{◌≡◌, ℕ, List, ◌+◌, ◌*◌, ◌^◌, ◌≤◌, IfOk, IfErr, length};
ghost use Rattle.lfg_chart.specs.Numbers.{item_total};
ghost use Rattle.lfg_model.specs.Charts.{IsChart};
ghost use Rattle.lfg_model.specs.Loads.{Loads};
ghost use Rattle.lfg_token.specs.Words.{tokens};
ghost use Rattle.lfg_rows.specs.Faults.{IsChartFault};

use crate::fault::ChartFault;
use lfg_chart::{Chart, chart};
use lfg_grammar::load_grammar;
use lfg_model::laws::loaded_grammars_keep_the_conditions;
use lfg_terms::{Grammar, Steps, TokenForms};
use lfg_token::sentence;
use std::alloc::Global;
use std::sync::ledger::Ledger;

/// The grammar of a file, the tokens of a line, and the chart of the line by the grammar.
#[derive(Drop)]
pub struct Charted {
    pub grammar: Grammar,
    pub tokens: Vec<TokenForms>,
    pub chart: Chart,
}

/// The grammar of the file, or its fault.
fn grammar_of(alloc: Global, file: &[u8]) -> Result<Grammar, ChartFault>
    requires { length file.now ≤ 4194304 }
    ensures loads { IfOk result (Loads file.now) }
    ensures fault { (line : List ℕ) → IfErr result (IsChartFault file.now line) }
{
    match load_grammar(alloc, file) {
        Ok(grammar) => Ok(grammar),
        Err(fault) => Err(ChartFault::Grammar { fault }),
    }
}

/// The tokens of the line, or their fault.
fn tokens_of(alloc: Global, line: &str) -> Result<Vec<TokenForms>, ChartFault>
    requires { length line.now ≤ 4194304 }
    ensures tokens { IfOk result (λ v. v.items ≡ tokens line.now) }
    ensures within { IfOk result (λ v. length v.items ≤ 64) }
    ensures fault { (file : List ℕ) → IfErr result (IsChartFault file line.now) }
{
    match sentence(alloc, line) {
        Ok(tokens) => Ok(tokens),
        Err(fault) => Err(ChartFault::Sentence { fault }),
    }
}

/// The chart of a line by the grammar of a grammar file, with the grammar and the tokens.
///
/// `file` is the whole file and `line` the line's text, each of at most 4,194,304 bytes.
///
/// # Errors
///
/// `Grammar` with the fault for which the file is not loaded; else `Sentence` with the fault of the
/// line; else `Memory` for want of memory.
pub fn chart_of<L: Ledger>(
    alloc: Global,
    file: &[u8],
    line: &str,
    steps: &mut Steps<L>,
) -> Result<Charted, ChartFault>
    requires file { length file.now ≤ 4194304 }
    requires line { length line.now ≤ 4194304 }
    ensures grammar { IfOk result (λ it. Loads file.now it.grammar) }
    ensures tokens { IfOk result (λ it. it.tokens.items ≡ tokens line.now) }
    ensures chart { IfOk result (λ it. IsChart it.grammar it.tokens.items it.chart.edges it.chart.forks) }
    ensures steps { IfOk result (λ it. steps.new ≤ steps.old + (4 * (length it.tokens.items + 1) ^ 3) * (item_total it.grammar + 1) ^ 2) }
    ensures fault { IfErr result (IsChartFault file.now line.now) }
{
    let grammar = match grammar_of(alloc, file) {
        Ok(grammar) => grammar,
        Err(fault) => return Err(fault),
    };
    let tokens = match tokens_of(alloc, line) {
        Ok(tokens) => tokens,
        Err(fault) => return Err(fault),
    };
    loaded_grammars_keep_the_conditions();
    let chart = chart(alloc, &grammar, &tokens, steps)?;
    Ok(Charted {
        grammar,
        tokens,
        chart,
    })
}
