ghost use Rattle.std.specs.Prelude.{◌≡◌, ◌++◌, IfOk, OnOk};
ghost use Rattle.std.specs.List.{flat_map};
ghost use Rattle.lfg_terms.specs.Order.{name_cmp};
ghost use Rattle.lfg_terms.specs.declared.grammar.Grammar.{Grammar};
ghost use Rattle.lfg_model.specs.Lists.{Lists};
ghost use Rattle.lfg_model.specs.Loads.{IsCategoryOf};
ghost use Rattle.lfg_grammar.specs.Categories.{item_cats, rule_cats, word_cats, all_cats};

use lfg_terms::{Item, Lex, Name, Rule};
use std::alloc::{AllocError, Global};

/// Appends the categories of the items.
fn push_items(cats: &mut Vec<Name>, items: &[Item]) -> Result<(), AllocError>
    ensures { OnOk result (cats.new.items ≡ cats.old.items ++ flat_map item_cats items.now) }
{
    for item in items {
        if let Some(cat) = &item.cat {
            cats.push(cat.clone()?)?;
        }
    }
    Ok(())
}

/// Appends the category of the rule and those of its items.
fn push_rule(cats: &mut Vec<Name>, rule: &Rule) -> Result<(), AllocError>
    ensures { OnOk result (cats.new.items ≡ cats.old.items ++ rule_cats rule.now) }
{
    cats.push(rule.cat.clone()?)?;
    push_items(cats, rule.items.list())
}

/// Appends the categories of the rules and of their items.
fn push_rules(cats: &mut Vec<Name>, rules: &[Rule]) -> Result<(), AllocError>
    ensures { OnOk result (cats.new.items ≡ cats.old.items ++ flat_map rule_cats rules.now) }
{
    for rule in rules {
        push_rule(cats, rule)?;
    }
    Ok(())
}

/// Appends the categories of the words.
pub(crate) fn push_words(cats: &mut Vec<Name>, lexicon: &[Lex]) -> Result<(), AllocError>
    ensures { OnOk result (cats.new.items ≡ cats.old.items ++ word_cats lexicon.now) }
{
    for word in lexicon {
        cats.push(word.cat.clone()?)?;
    }
    Ok(())
}

/// The categories as they come.
fn all_cats(
    alloc: Global,
    root: &Name,
    rules: &[Rule],
    lexicon: &[Lex],
) -> Result<Vec<Name>, AllocError>
    ensures { IfOk result (λ v. v.items ≡ all_cats root.now rules.now lexicon.now) }
{
    let mut cats = vec![in alloc; root.clone()?]?;
    push_rules(&mut cats, rules)?;
    push_words(&mut cats, lexicon)?;
    Ok(cats)
}

/// All categories of the grammar with this root, these rules and these words, in the order of their
/// bytes, each once.
pub(crate) fn categories_of(
    alloc: Global,
    root: &Name,
    rules: &[Rule],
    lexicon: &[Lex],
) -> Result<Vec<Name>, AllocError>
    ensures { (g : Grammar) → g.root ≡ root.now → g.rules ≡ rules.now → g.lexicon ≡ lexicon.now
        → IfOk result (λ v. Lists name_cmp (IsCategoryOf g) v.items) }
{
    let mut cats = all_cats(alloc, root, rules, lexicon)?;
    cats.sort()?;
    cats.dedup();
    Ok(cats)
}
