ghost use Rattle.std.specs.Prelude.{◌≡◌, ◌<◌, IfOk, IfSome, MatchOption, None, Some, length};
ghost use Rattle.std.specs.List.{list_all};
ghost use Rattle.std.specs.Char.{is_ascii_digit};
ghost use Rattle.lfg_model.specs.EntryNotation.{all_names, at_least_one, is_category, is_name, is_names_key, is_number_key, is_pairs_key, names_at, one_name, one_such, pair_first, pairs_at, put_pair, setting_of, some_pairs, words_of};
ghost use Rattle.lfg_notation.specs.Reading.{Gives};
ghost use Rattle.lfg_notation.specs.Views.{named};

use crate::fault::Refusal;
use lfg_model::Lexeme;
use lfg_terms::{List, Name, Setting};
use std::alloc::{AllocError, Global};

/// The names in front, as many as there are, and what is behind them.
pub(crate) fn names_at(
    alloc: Global,
    lexemes: &[Lexeme],
) -> Result<(Vec<Name>, &[Lexeme]), AllocError>
    ensures { IfOk result (λ x. named x.0.items x.1.now ≡ names_at lexemes.now) }
{
    let mut names = Vec::new(alloc);
    let mut rest = lexemes;
    while let [Lexeme::Word(name), behind @ ..] = rest {
        names.push(name.clone()?)?;
        rest = behind;
    }
    Ok((names, rest))
}

/// Whether the name is not that of the empty item.
pub(crate) fn is_category(name: &Name) -> bool
    ensures { result ≡ is_category name.now }
{
    name.text() != "e"
}

/// The name that stands there alone.
fn one_name(lexemes: &[Lexeme]) -> Option<&Name>
    ensures { MatchOption result (one_name lexemes.now ≡ None) (λ name. one_name lexemes.now ≡ Some name.now) }
{
    match lexemes {
        [Lexeme::Word(name)] => Some(name),
        _ => None,
    }
}

/// The category that stands there alone.
fn category_alone(alloc: Global, lexemes: &[Lexeme]) -> Result<Vec<Name>, Refusal>
    ensures { Gives (λ v. v.items) result (one_such is_category lexemes.now) }
{
    let Some(name) = one_name(lexemes) else {
        return Err(Refusal::Form);
    };
    if !is_category(name) {
        return Err(Refusal::Form);
    }
    Ok(vec![in alloc; name.clone()?]?)
}

/// Whether the name is made of ASCII digits.
fn is_number(name: &Name) -> bool
    ensures { result ≡ list_all is_ascii_digit name.now }
{
    name.text()
        .as_bytes()
        .iter()
        .all(|byte| byte.is_ascii_digit())
}

/// The number that stands there alone.
fn number_alone(alloc: Global, lexemes: &[Lexeme]) -> Result<Vec<Name>, Refusal>
    ensures { Gives (λ v. v.items) result (one_such (list_all is_ascii_digit) lexemes.now) }
{
    let Some(name) = one_name(lexemes) else {
        return Err(Refusal::Form);
    };
    if !is_number(name) {
        return Err(Refusal::Form);
    }
    Ok(vec![in alloc; name.clone()?]?)
}

/// The name of this text, which stands there alone.
fn word_alone(alloc: Global, text: &str, lexemes: &[Lexeme]) -> Result<Vec<Name>, Refusal>
    ensures { Gives (λ v. v.items) result (one_such (is_name text.now) lexemes.now) }
{
    let Some(name) = one_name(lexemes) else {
        return Err(Refusal::Form);
    };
    if name.text() != text {
        return Err(Refusal::Form);
    }
    Ok(vec![in alloc; name.clone()?]?)
}

/// The names that stand there, of which there is one at least.
fn names_alone(alloc: Global, lexemes: &[Lexeme]) -> Result<Vec<Name>, Refusal>
    ensures { Gives (λ v. v.items) result (all_names (names_at lexemes.now)) }
{
    let (names, rest) = names_at(alloc, lexemes)?;
    if !rest.is_empty() {
        return Err(Refusal::Form);
    }
    some_names(names)
}

/// The names, if there is one.
fn some_names(names: Vec<Name>) -> Result<Vec<Name>, Refusal>
    ensures { Gives (λ v. v.items) result (at_least_one names.items) }
{
    if names.is_empty() {
        Err(Refusal::Form)
    } else {
        Ok(names)
    }
}

/// The pair behind an opening bracket, `NAME NAME)`, and what is behind it.
fn pair_at(lexemes: &[Lexeme]) -> Option<(&Name, &Name, &[Lexeme])>
    ensures read { MatchOption result (pair_first lexemes.now ≡ None)
        (λ x. pair_first lexemes.now ≡ put_pair x.0.now x.1.now (pairs_at x.2.now)) }
    ensures shorter { IfSome result (λ x. length x.2.now < length lexemes.now) }
{
    match lexemes {
        [
            Lexeme::Word(first),
            Lexeme::Word(second),
            Lexeme::Close,
            rest @ ..,
        ] => Some((first, second, rest)),
        _ => None,
    }
}

/// The names in the pairs that stand there.
fn pairs_at(alloc: Global, lexemes: &[Lexeme]) -> Result<Vec<Name>, Refusal>
    ensures { Gives (λ v. v.items) result (pairs_at lexemes.now) }
{
    let mut names = Vec::new(alloc);
    let mut rest = lexemes;
    while let [Lexeme::Open, behind @ ..] = rest {
        let Some((first, second, behind)) = pair_at(behind) else {
            return Err(Refusal::Form);
        };
        names.push(first.clone()?)?;
        names.push(second.clone()?)?;
        rest = behind;
    }
    if rest.is_empty() {
        Ok(names)
    } else {
        Err(Refusal::Form)
    }
}

/// The names in the pairs that stand there, of which there is one at least.
fn pairs_alone(alloc: Global, lexemes: &[Lexeme]) -> Result<Vec<Name>, Refusal>
    ensures { Gives (λ v. v.items) result (some_pairs lexemes.now) }
{
    let names = pairs_at(alloc, lexemes)?;
    some_names(names)
}

/// Whether a number stands behind the key.
fn is_number_key(key: &Name) -> bool
    ensures { result ≡ is_number_key key.now }
{
    let key = key.text();
    key == "UNCERTAINTYDEPTH" || (key == "GENSIZE" || key == "MAXFACTS")
}

/// Whether names stand behind the key.
fn is_names_key(key: &Name) -> bool
    ensures { result ≡ is_names_key key.now }
{
    let key = key.text();
    key == "GOVERNABLERELATIONS" || key == "SEMANTICFUNCTIONS"
}

/// Whether pairs of names stand behind the key.
fn is_pairs_key(key: &Name) -> bool
    ensures { result ≡ is_pairs_key key.now }
{
    let key = key.text();
    key == "RULES" || (key == "TEMPLATES" || key == "LEXENTRIES")
}

/// The words behind the key.
fn words_of(alloc: Global, key: &Name, lexemes: &[Lexeme]) -> Result<Vec<Name>, Refusal>
    ensures { Gives (λ v. v.items) result (words_of key.now lexemes.now) }
{
    if key.text() == "ROOTCAT" {
        return category_alone(alloc, lexemes);
    }
    if is_number_key(key) {
        return number_alone(alloc, lexemes);
    }
    if is_names_key(key) {
        return names_alone(alloc, lexemes);
    }
    if is_pairs_key(key) {
        return pairs_alone(alloc, lexemes);
    }
    if key.text() == "EPSILON" {
        return word_alone(alloc, "e", lexemes);
    }
    if key.text() == "CHARACTERENCODING" {
        return word_alone(alloc, "utf-8", lexemes);
    }
    Err(Refusal::Form)
}

/// The setting that the entry of this number is.
pub(crate) fn setting_of(alloc: Global, number: u32, lexemes: &[Lexeme]) -> Result<Setting, Refusal>
    ensures { Gives (λ s. s) result (setting_of number lexemes.now) }
{
    let [Lexeme::Word(key), rest @ ..] = lexemes else {
        return Err(Refusal::Form);
    };
    let words = words_of(alloc, key, rest)?;
    Ok(Setting {
        entry: number,
        key: key.clone()?,
        words: List::new(alloc, words)?,
    })
}
