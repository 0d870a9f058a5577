ghost use Rattle.std.specs.Prelude.{IfOk, map};
ghost use Rattle.lfg_model.specs.DraftForms.{word_form};
ghost use Rattle.lfg_model.specs.Lists.{In};
ghost use Rattle.lfg_model.specs.RightSides.{draft_annotation_of};
ghost use Rattle.lfg_model.specs.TemplateRules.{calls};
ghost use Rattle.lfg_grammar.specs.Answers.{IsRange, NoCall, WordAs, WordsAs};
ghost use Rattle.lfg_terms.specs.declared.draft.LexEntry.{LexEntry};

use crate::annotations::load_annotation;
use lfg_regpath::PathFault;
use lfg_terms::{Lex, LexEntry, List};
use std::alloc::Global;

/// A reading of a word with its annotation.
fn load_word(alloc: Global, word: &LexEntry, depth: u8) -> Result<Lex, PathFault>
    requires range { IsRange depth }
    requires no_call { NoCall (calls (draft_annotation_of word.now.schemata)) }
    ensures { WordAs depth (word_form word.now) result }
{
    let schemata = load_annotation(alloc, word.schemata.list(), depth)?;
    Ok(Lex {
        form: word.form.clone()?,
        cat: word.cat.clone()?,
        schemata: List::new(alloc, schemata)?,
    })
}

/// The readings of all words, in written order.
pub(crate) fn load_words(
    alloc: Global,
    words: &[LexEntry],
    depth: u8,
) -> Result<Vec<Lex>, PathFault>
    requires range { IsRange depth }
    requires no_call { (w : LexEntry) → In w words.now → NoCall (calls (draft_annotation_of w.schemata)) }
    ensures { WordsAs depth (map word_form words.now) result }
{
    let mut out = Vec::new(alloc);
    for word in words {
        out.push(load_word(alloc, word, depth)?)?;
    }
    Ok(out)
}
