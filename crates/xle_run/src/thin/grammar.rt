ghost use Rattle.std.specs.Prelude.{◌≡◌, ◌++◌, ◌∷◌, [], IfOk, OnOk, None, map};
ghost use Rattle.std.specs.List.{flat_map};
ghost use Rattle.lfg_terms.specs.Order.{name_cmp};
ghost use Rattle.lfg_model.specs.Lists.{Lists};
ghost use Rattle.lfg_model.specs.Thin.{Gives, IsCategory, item_of, last_of, lex_of_entry, link, next_from, one_string, row_graph, rule_of_phrase, schema_of_equation};
ghost use Rattle.xle_run.specs.Drafts.{daughter_view, draft_view, entry_view, equation_view, phrase_view};
ghost use Rattle.xle_run.specs.Categories.{phrase_cats, all_cats};

use crate::thin::draft::{Daughter, Draft, Entry, Equation, Phrase};
use lfg_terms::{
    Arrow, Des, Grammar, Graph, Item, Lex, List, Name, Path, Paths, Rule, Schema, Val,
};
use std::alloc::{AllocError, Global};

/// The most category nodes of a generated tree where the grammar does not say it.
const GENSIZE: u32 = 60;

/// The limit of a sentence's counts where the grammar does not say it.
const MAXFACTS: u32 = 200_000;

/// The path expression whose only string is this.
fn one_path(alloc: Global, names: Vec<Name>) -> Result<Paths, AllocError>
    ensures { IfOk result (λ p. Some p ≡ one_string names.items) }
{
    let path = Path::new(alloc, names)?;
    Paths::new(alloc, vec![in alloc; path]?)
}

/// The schema that links a daughter to its mother: `^=!`, or `(^ A)=!` for the function A.
fn link_of(alloc: Global, function: &Option<Name>) -> Result<Schema<Paths>, AllocError>
    ensures { IfOk result (λ s. s ≡ link function.now) }
{
    let path = match function {
        Some(function) => Some(one_path(alloc, vec![in alloc; function.clone()?]?)?),
        None => None,
    };
    Ok(Schema::Define {
        left: Des {
            arrow: Arrow::Up,
            path,
        },
        right: Val::Des(Des {
            arrow: Arrow::Down,
            path: None,
        }),
    })
}

/// The item of a daughter.
fn item_of(alloc: Global, daughter: &Daughter) -> Result<Item, AllocError>
    ensures { IfOk result (λ i. i ≡ item_of (daughter_view daughter.now)) }
{
    let link = link_of(alloc, &daughter.function)?;
    Ok(Item {
        cat: Some(daughter.cat.clone()?),
        schemata: List::new(alloc, vec![in alloc; link]?)?,
    })
}

/// The items of daughters.
fn items_of(alloc: Global, daughters: &[Daughter]) -> Result<Vec<Item>, AllocError>
    ensures { IfOk result (λ v. v.items ≡ map item_of (map daughter_view daughters.now)) }
{
    let mut items = Vec::new(alloc);
    for daughter in daughters {
        items.push(item_of(alloc, daughter)?)?;
    }
    Ok(items)
}

/// For each of so many items in a row the items that may follow it: the next one alone.
fn next_lists(alloc: Global, size: u32) -> Result<Vec<List<u32>>, AllocError>
    ensures { IfOk result (λ v. v.items ≡ next_from 1 size) }
{
    let mut next = Vec::new(alloc);
    if size == 0 {
        return Ok(next);
    }
    for number in 1..size {
        next.push(List::new(alloc, vec![in alloc; number + 1]?)?)?;
    }
    next.push(List::new(alloc, Vec::new(alloc))?)?;
    Ok(next)
}

/// For each of so many items in a row whether it may end the row: the last one may.
fn last_flags(alloc: Global, size: u32) -> Result<Vec<bool>, AllocError>
    ensures { IfOk result (λ v. v.items ≡ last_of size) }
{
    let mut last = Vec::new(alloc);
    if size == 0 {
        return Ok(last);
    }
    for _number in 1..size {
        last.push(false)?;
    }
    last.push(true)?;
    Ok(last)
}

/// The graph of so many items in a row, numbered from 1. More than a `u32` can number are taken for
/// more than the memory holds.
#[tactic(auto, unfolding(lfg_model::specs::Thin::row_graph))]
fn row_graph(alloc: Global, size: usize) -> Result<Graph, AllocError>
    ensures { IfOk result (λ g. g ≡ row_graph size) }
{
    let Ok(size) = u32::try_from(size) else {
        return Err(AllocError);
    };
    let next = next_lists(alloc, size)?;
    let last = last_flags(alloc, size)?;
    Ok(Graph {
        size,
        first: List::new(alloc, vec![in alloc; 1u32]?)?,
        next: List::new(alloc, next)?,
        last: List::new(alloc, last)?,
    })
}

/// The rule of a phrase: its daughters in a row.
fn rule_of(alloc: Global, phrase: &Phrase) -> Result<Rule, AllocError>
    ensures { IfOk result (λ r. r ≡ rule_of_phrase (phrase_view phrase.now)) }
{
    let items = items_of(alloc, &phrase.daughters)?;
    let graph = row_graph(alloc, phrase.daughters.len())?;
    Ok(Rule {
        cat: phrase.cat.clone()?,
        items: List::new(alloc, items)?,
        graph,
    })
}

/// The rules of phrases.
fn rules_of(alloc: Global, phrases: &[Phrase]) -> Result<Vec<Rule>, AllocError>
    ensures { IfOk result (λ v. v.items ≡ map rule_of_phrase (map phrase_view phrases.now)) }
{
    let mut rules = Vec::new(alloc);
    for phrase in phrases {
        rules.push(rule_of(alloc, phrase)?)?;
    }
    Ok(rules)
}

/// The equation as a schema.
fn schema_of(alloc: Global, equation: &Equation) -> Result<Schema<Paths>, AllocError>
    ensures { IfOk result (λ s. s ≡ schema_of_equation (equation_view equation.now)) }
{
    let names = copies_of(alloc, &equation.path)?;
    let path = one_path(alloc, names)?;
    Ok(Schema::Define {
        left: Des {
            arrow: Arrow::Up,
            path: Some(path),
        },
        right: Val::Atom(equation.atom.clone()?),
    })
}

/// The same names.
fn copies_of(alloc: Global, names: &[Name]) -> Result<Vec<Name>, AllocError>
    ensures { IfOk result (λ v. v.items ≡ names.now) }
{
    let mut copies = Vec::new(alloc);
    for name in names {
        copies.push(name.clone()?)?;
    }
    Ok(copies)
}

/// The schemata of equations.
fn schemata_of(alloc: Global, equations: &[Equation]) -> Result<Vec<Schema<Paths>>, AllocError>
    ensures { IfOk result (λ v. v.items ≡ map schema_of_equation (map equation_view equations.now)) }
{
    let mut schemata = Vec::new(alloc);
    for equation in equations {
        schemata.push(schema_of(alloc, equation)?)?;
    }
    Ok(schemata)
}

/// The lexicon entry with its equations.
fn lex_of(alloc: Global, entry: &Entry) -> Result<Lex, AllocError>
    ensures { IfOk result (λ x. x ≡ lex_of_entry (entry_view entry.now)) }
{
    let schemata = schemata_of(alloc, &entry.equations)?;
    Ok(Lex {
        form: entry.form.clone()?,
        cat: entry.cat.clone()?,
        schemata: List::new(alloc, schemata)?,
    })
}

/// The lexicon of entries.
fn lexicon_of(alloc: Global, entries: &[Entry]) -> Result<Vec<Lex>, AllocError>
    ensures { IfOk result (λ v. v.items ≡ map lex_of_entry (map entry_view entries.now)) }
{
    let mut lexicon = Vec::new(alloc);
    for entry in entries {
        lexicon.push(lex_of(alloc, entry)?)?;
    }
    Ok(lexicon)
}

/// Appends the category of a phrase and those of its daughters.
fn push_phrase(cats: &mut Vec<Name>, phrase: &Phrase) -> Result<(), AllocError>
    ensures { OnOk result (cats.new.items ≡ cats.old.items ++ phrase_cats (phrase_view phrase.now)) }
{
    cats.push(phrase.cat.clone()?)?;
    for daughter in &phrase.daughters {
        cats.push(daughter.cat.clone()?)?;
    }
    Ok(())
}

/// Appends the categories of phrases and of their daughters.
fn push_phrases(cats: &mut Vec<Name>, phrases: &[Phrase]) -> Result<(), AllocError>
    ensures { OnOk result (cats.new.items ≡ cats.old.items ++ flat_map phrase_cats (map phrase_view phrases.now)) }
{
    for phrase in phrases {
        push_phrase(cats, phrase)?;
    }
    Ok(())
}

/// Appends the categories of words.
fn push_words(cats: &mut Vec<Name>, entries: &[Entry]) -> Result<(), AllocError>
    ensures { OnOk result (cats.new.items ≡ cats.old.items ++ map (λ x. x.cat) (map entry_view entries.now)) }
{
    for entry in entries {
        cats.push(entry.cat.clone()?)?;
    }
    Ok(())
}

/// The categories of the draft as they come.
fn all_cats(alloc: Global, draft: &Draft) -> Result<Vec<Name>, AllocError>
    ensures { IfOk result (λ v. v.items ≡ all_cats (draft_view draft.now)) }
{
    let mut cats = vec![in alloc; draft.root.clone()?]?;
    push_phrases(&mut cats, &draft.phrases)?;
    push_words(&mut cats, &draft.entries)?;
    Ok(cats)
}

/// All categories of the draft in the order of their bytes, each once.
fn categories_of(alloc: Global, draft: &Draft) -> Result<Vec<Name>, AllocError>
    ensures { IfOk result (λ v. Lists name_cmp (IsCategory (draft_view draft.now)) v.items) }
{
    let mut cats = all_cats(alloc, draft)?;
    cats.sort()?;
    cats.dedup();
    Ok(cats)
}

/// The grammar that the draft says.
pub(crate) fn grammar_of(alloc: Global, draft: &Draft) -> Result<Grammar, AllocError>
    ensures { IfOk result (λ g. Gives (draft_view draft.now) g) }
{
    let rules = rules_of(alloc, &draft.phrases)?;
    let lexicon = lexicon_of(alloc, &draft.entries)?;
    let cats = categories_of(alloc, draft)?;
    Ok(Grammar {
        root: draft.root.clone()?,
        governable: List::new(alloc, Vec::new(alloc))?,
        gensize: GENSIZE,
        maxfacts: MAXFACTS,
        cats: List::new(alloc, cats)?,
        rules: List::new(alloc, rules)?,
        lexicon: List::new(alloc, lexicon)?,
    })
}
