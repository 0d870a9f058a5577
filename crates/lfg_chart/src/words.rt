ghost use Rattle.std.specs.Prelude.{◌≡◌, ◌↔◌, ℕ, ◌+◌, ◌≤◌, ◌<◌, IsTrue, Some, length, slice_get};
ghost use Rattle.std.specs.List.Sorted.{IsStrictlySortedBy};
ghost use Rattle.lfg_chart.specs.Tables.{HasRows, Holds};
ghost use Rattle.lfg_chart.specs.Words.{AreWords, Extends, IsWord, IsWordAt};
ghost use Rattle.lfg_model.specs.Lists.{In};
ghost use Rattle.lfg_terms.specs.Order.{name_cmp};
ghost use Rattle.lfg_terms.specs.declared.grammar.Lex.{Lex};

use crate::links::{RuleLinks, number_of};
use crate::places::Places;
use crate::table::{Row, Table};
use lfg_terms::{Lex, Name, TokenForms};

/// Whether the token has the form.
fn has_form(token: &TokenForms, form: &Name) -> bool
    ensures { IsTrue result ↔ In form.now token.now.forms }
{
    token.forms.list().contains(form)
}

/// Lets the category of an entry cover a token, if the token has the entry's form.
fn add_word(
    rules: &[Option<RuleLinks>],
    cats: &[Name],
    lex: &Lex,
    token: &TokenForms,
    at: usize,
    table: &mut Table,
)
    requires rows { HasRows rules.now table.old }
    requires length { length rules.now ≡ length cats.now }
    requires ordered { IsStrictlySortedBy name_cmp cats.now }
    requires known { In lex.now.cat cats.now }
    requires few { table.old.size ≤ 128 }
    requires within { at + 1 < table.old.size }
    ensures rows { HasRows rules.now table.new }
    ensures words { Extends table.old table.new (IsWord cats.now lex.now token.now at) }
{
    if has_form(token, &lex.form) {
        let cat = number_of(cats, &lex.cat);
        table.add(Row::Whole { cat }, at, Places::one(at + 1));
    }
}

/// Lets the categories of entries cover a token that has the entry's form.
fn add_words_at(
    rules: &[Option<RuleLinks>],
    cats: &[Name],
    lexicon: &[Lex],
    token: &TokenForms,
    at: usize,
    table: &mut Table,
)
    requires rows { HasRows rules.now table.old }
    requires length { length rules.now ≡ length cats.now }
    requires ordered { IsStrictlySortedBy name_cmp cats.now }
    requires known { (lex : Lex) → In lex lexicon.now → In lex.cat cats.now }
    requires few { table.old.size ≤ 128 }
    requires within { at + 1 < table.old.size }
    ensures rows { HasRows rules.now table.new }
    ensures words { Extends table.old table.new (IsWordAt cats.now lexicon.now token.now at) }
{
    for lex in lexicon {
        add_word(rules, cats, lex, token, at, table);
    }
}

/// Lets the categories of entries cover the tokens that have the entry's form.
pub(crate) fn add_words(
    rules: &[Option<RuleLinks>],
    cats: &[Name],
    lexicon: &[Lex],
    tokens: &[TokenForms],
    table: &mut Table,
)
    requires rows { HasRows rules.now table.old }
    requires length { length rules.now ≡ length cats.now }
    requires ordered { IsStrictlySortedBy name_cmp cats.now }
    requires known { (lex : Lex) → In lex lexicon.now → In lex.cat cats.now }
    requires few { table.old.size ≤ 128 }
    requires within { length tokens.now + 1 ≡ table.old.size }
    ensures rows { HasRows rules.now table.new }
    ensures words { Extends table.old table.new (AreWords cats.now lexicon.now tokens.now (length tokens.now)) }
{
    for (at, token) in tokens.iter().enumerate() {
        add_words_at(rules, cats, lexicon, token, at, table);
    }
}
