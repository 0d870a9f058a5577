ghost use Rattle.std.specs.Prelude.{◌≡◌, ◌<◌, ◌≤◌, IfOk, length};
ghost use Rattle.lfg_model.specs.Charts.{IsChart};
ghost use Rattle.lfg_model.specs.Loaded.{Loaded};

use lfg_chart::{Chart, chart};
use lfg_terms::{Grammar, Steps, TokenForms};
use std::alloc::{AllocError, Global};
use std::marker::Brand;
use std::sync::ledger::{Blank, Ledger};

/// The chart of a sentence, with this counter of steps.
fn counted<K: Ledger>(
    alloc: Global,
    grammar: &Grammar,
    tokens: &[TokenForms],
    blank: Blank,
) -> Result<Chart, AllocError>
    requires name { blank.name ≡ K.name }
    requires parts { blank.parts ≡ K.parts }
    requires some { 0 < blank.parts }
    requires loaded { Loaded grammar.now }
    requires tokens { length tokens.now ≤ 64 }
    ensures chart { IfOk result (λ it. IsChart grammar.now tokens.now it.edges it.forks) }
{
    let chart = chart(alloc, grammar, tokens, &mut Steps::<K>::new(blank))?;
    Ok(chart)
}

/// The chart of a sentence.
pub(crate) fn charted(
    alloc: Global,
    grammar: &Grammar,
    tokens: &[TokenForms],
) -> Result<Chart, AllocError>
    requires loaded { Loaded grammar.now }
    requires tokens { length tokens.now ≤ 64 }
    ensures chart { IfOk result (λ it. IsChart grammar.now tokens.now it.edges it.forks) }
{
    let chart = counted::<Brand>(alloc, grammar, tokens, Blank::new(1))?;
    Ok(chart)
}
