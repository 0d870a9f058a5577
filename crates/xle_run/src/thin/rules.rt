ghost use Rattle.std.specs.Prelude.{◌≡◌, ◌<◌, ◌≤◌, IfOk, IfSome, length, map};
ghost use Rattle.std.specs.Option.{option_copied};
ghost use Rattle.lfg_model.specs.ThinText.{Row, is_nothing, daughter_at, behind_annotation, behind_arrow, IsDaughter, IsPhrase, IsEnded};
ghost use Rattle.xle_run.specs.Reading.{Reads, Found, FoundAt};
ghost use Rattle.xle_run.specs.Drafts.{daughter_view, phrase_view};

use crate::thin::cutting::up_to_stop;
use crate::thin::draft::{Daughter, Phrase};
use lfg_model::Lexeme;
use lfg_terms::Name;
use std::alloc::{AllocError, Global};

/// A daughter with copies of these names.
fn daughter_of(cat: &Name, function: Option<&Name>) -> Result<Daughter, AllocError>
    ensures cat { IfOk result (λ x. x.cat ≡ cat.now) }
    ensures function { IfOk result (λ x. x.function ≡ option_copied function.entry) }
{
    let function = match function {
        Some(function) => Some(function.clone()?),
        None => None,
    };
    Ok(Daughter {
        cat: cat.clone()?,
        function,
    })
}

/// The daughter, and what is behind the end of its annotation: a semicolon, or the end of the entry.
fn behind_annotation(daughter: Daughter, rest: &[Lexeme]) -> Option<(Daughter, &[Lexeme])>
    ensures read { Reads (λ x behind. (daughter_view x, behind.now)) result (behind_annotation (daughter_view daughter) rest.now) }
    ensures shorter { IfSome result (λ x. length x.1.now ≤ length rest.now) }
{
    match rest {
        [] => Some((daughter, rest)),
        [Lexeme::Semicolon, behind @ ..] => Some((daughter, behind)),
        _ => None,
    }
}

/// The item in front, and what is behind it: `NAME`, `NAME: ^=!;` or `NAME: (^ NAME)=!;`, where
/// the semicolon may be absent behind the last item.
#[tactic(auto, unfolding(lfg_model::specs::ThinText::daughter_at))]
fn daughter_at(items: &[Lexeme]) -> Result<Option<(Daughter, &[Lexeme])>, AllocError>
    ensures read { IfOk result (λ o. Reads (λ x rest. (daughter_view x, rest.now)) o (daughter_at items.now)) }
    ensures shorter { IfOk result (λ o. IfSome o (λ x. length x.1.now < length items.now)) }
{
    match items {
        [
            Lexeme::Word(cat),
            Lexeme::Colon,
            Lexeme::Up,
            Lexeme::Equals,
            Lexeme::Down,
            rest @ ..,
        ] => Ok(behind_annotation(daughter_of(cat, None)?, rest)),
        [
            Lexeme::Word(cat),
            Lexeme::Colon,
            Lexeme::Open,
            Lexeme::Up,
            Lexeme::Word(function),
            Lexeme::Close,
            Lexeme::Equals,
            Lexeme::Down,
            rest @ ..,
        ] => Ok(behind_annotation(daughter_of(cat, Some(function))?, rest)),
        [Lexeme::Word(_), Lexeme::Colon, ..] => Ok(None),
        [Lexeme::Word(cat), rest @ ..] => Ok(Some((daughter_of(cat, None)?, rest))),
        _ => Ok(None),
    }
}

/// The items of a rule.
fn daughters_of(alloc: Global, items: &[Lexeme]) -> Result<Option<Vec<Daughter>>, AllocError>
    ensures { IfOk result (λ o. Found (λ v. map daughter_view v.items) (Row is_nothing IsDaughter items.now) o) }
{
    let mut daughters = Vec::new(alloc);
    let mut rest = items;
    while !rest.is_empty() {
        let Some((daughter, behind)) = daughter_at(rest)? else {
            return Ok(None);
        };
        daughters.push(daughter)?;
        rest = behind;
    }
    Ok(Some(daughters))
}

/// The category of a rule, and the items behind its arrow.
fn behind_arrow(entry: &[Lexeme]) -> Option<(&Name, &[Lexeme])>
    ensures { Reads (λ cat items. (cat.now, items.now)) result (behind_arrow entry.now) }
{
    match entry {
        [Lexeme::Word(cat), Lexeme::Arrow, items @ ..] => Some((cat, items)),
        _ => None,
    }
}

/// The rule `NAME --> ITEM ..`, which has one item at least.
fn phrase_of(alloc: Global, entry: &[Lexeme]) -> Result<Option<Phrase>, AllocError>
    ensures { IfOk result (λ o. Found phrase_view (IsPhrase entry.now) o) }
{
    let Some((cat, items)) = behind_arrow(entry) else {
        return Ok(None);
    };
    let Some(daughters) = daughters_of(alloc, items)? else {
        return Ok(None);
    };
    if daughters.is_empty() {
        return Ok(None);
    }
    let cat = cat.clone()?;
    Ok(Some(Phrase { cat, daughters }))
}

/// The rule in front, and what is behind its stop.
pub(crate) fn phrase_at(
    alloc: Global,
    lexemes: &[Lexeme],
) -> Result<Option<(Phrase, &[Lexeme])>, AllocError>
    ensures read { IfOk result (λ o. FoundAt phrase_view (IsEnded IsPhrase) lexemes.now o) }
    ensures shorter { IfOk result (λ o. IfSome o (λ x. length x.1.now < length lexemes.now)) }
{
    let Some((entry, behind)) = up_to_stop(lexemes) else {
        return Ok(None);
    };
    match phrase_of(alloc, entry)? {
        Some(phrase) => Ok(Some((phrase, behind))),
        None => Ok(None),
    }
}
