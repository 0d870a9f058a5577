ghost use Rattle.std.specs.Prelude.{IfOk};
ghost use Rattle.lfg_model.specs.Loads.{HasWords};
ghost use Rattle.lfg_grammar.specs.Found.{FoundFirst};

use crate::categories::push_words;
use lfg_terms::{Grammar, Name};
use std::alloc::{AllocError, Global};

/// The place, from 0, of the first rule whose category has words too, if there is one.
pub(crate) fn first_both(alloc: Global, grammar: &Grammar) -> Result<Option<usize>, AllocError>
    ensures { IfOk result (FoundFirst (HasWords grammar.now) grammar.now.rules) }
{
    let mut cats: Vec<Name> = Vec::new(alloc);
    push_words(&mut cats, grammar.lexicon.list())?;
    cats.sort()?;
    let rules = grammar.rules.list();
    for i in 0..rules.len() {
        if cats.binary_search(&rules[i].cat).is_ok() {
            return Ok(Some(i));
        }
    }
    Ok(None)
}
