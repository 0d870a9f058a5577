ghost use Rattle.std.specs.Prelude.{◌≡◌, ◌<◌, ◌≤◌, IfOk, IfSome, length, map};
ghost use Rattle.lfg_model.specs.ThinText.{Row, is_entry_end, names_at, value_at, equation_at, behind_star, IsEquation, IsEntry, IsEnded};
ghost use Rattle.xle_run.specs.Reading.{Reads, Found, FoundAt};
ghost use Rattle.xle_run.specs.Drafts.{equation_view, entry_view, heading_view, named};

use crate::thin::cutting::up_to_stop;
use crate::thin::draft::{Entry, Equation};
use lfg_model::Lexeme;
use lfg_terms::Name;
use std::alloc::{AllocError, Global};

/// The names in front, and what is behind them.
fn names_at(alloc: Global, lexemes: &[Lexeme]) -> Result<(Vec<Name>, &[Lexeme]), AllocError>
    ensures read { IfOk result (λ r. named r.0.items r.1.now ≡ names_at lexemes.now) }
    ensures shorter { IfOk result (λ r. length r.1.now ≤ length lexemes.now) }
{
    let mut names = Vec::new(alloc);
    let mut rest = lexemes;
    while let [Lexeme::Word(name), behind @ ..] = rest {
        names.push(name.clone()?)?;
        rest = behind;
    }
    Ok((names, rest))
}

/// The equation of these names with `)=NAME` behind them, and what is behind it.
fn value_at(path: Vec<Name>, rest: &[Lexeme]) -> Result<Option<(Equation, &[Lexeme])>, AllocError>
    ensures read { IfOk result (λ o. Reads (λ x behind. (equation_view x, behind.now)) o (value_at (named path.items rest.now))) }
    ensures shorter { IfOk result (λ o. IfSome o (λ x. length x.1.now < length rest.now)) }
{
    let [
        Lexeme::Close,
        Lexeme::Equals,
        Lexeme::Word(atom),
        behind @ ..,
    ] = rest
    else {
        return Ok(None);
    };
    if path.is_empty() {
        return Ok(None);
    }
    let atom = atom.clone()?;
    Ok(Some((Equation { path, atom }, behind)))
}

/// The equation `(^ NAME ..)=NAME` in front, and what is behind it.
#[tactic(auto, unfolding(lfg_model::specs::ThinText::equation_at))]
fn equation_at(
    alloc: Global,
    lexemes: &[Lexeme],
) -> Result<Option<(Equation, &[Lexeme])>, AllocError>
    ensures read { IfOk result (λ o. Reads (λ x rest. (equation_view x, rest.now)) o (equation_at lexemes.now)) }
    ensures shorter { IfOk result (λ o. IfSome o (λ x. length x.1.now < length lexemes.now)) }
{
    let [Lexeme::Open, Lexeme::Up, rest @ ..] = lexemes else {
        return Ok(None);
    };
    let (path, rest) = names_at(alloc, rest)?;
    value_at(path, rest)
}

/// Whether this ends an entry: nothing, or a semicolon alone.
fn is_entry_end(lexemes: &[Lexeme]) -> bool
    ensures { result ≡ is_entry_end lexemes.now }
{
    matches!(lexemes, [] | [Lexeme::Semicolon])
}

/// The equations of an entry, behind which a semicolon may stand.
fn equations_of(alloc: Global, lexemes: &[Lexeme]) -> Result<Option<Vec<Equation>>, AllocError>
    ensures { IfOk result (λ o. Found (λ v. map equation_view v.items) (Row is_entry_end IsEquation lexemes.now) o) }
{
    let mut equations = Vec::new(alloc);
    let mut rest = lexemes;
    while !is_entry_end(rest) {
        let Some((equation, behind)) = equation_at(alloc, rest)? else {
            return Ok(None);
        };
        equations.push(equation)?;
        rest = behind;
    }
    Ok(Some(equations))
}

/// The form and the category of a word.
#[derive(Drop)]
struct Heading<'a> {
    form: &'a Name,
    cat: &'a Name,
}

/// The form and the category of a word, and the equations behind its star.
fn behind_star(entry: &[Lexeme]) -> Option<(Heading, &[Lexeme])>
    ensures { Reads (λ head rest. (heading_view head, rest.now)) result (behind_star entry.now) }
{
    match entry {
        [
            Lexeme::Word(form),
            Lexeme::Word(cat),
            Lexeme::Star,
            equations @ ..,
        ] => Some((Heading { form, cat }, equations)),
        _ => None,
    }
}

/// The word `FORM CATEGORY * EQUATION ..`.
fn entry_of(alloc: Global, entry: &[Lexeme]) -> Result<Option<Entry>, AllocError>
    ensures { IfOk result (λ o. Found entry_view (IsEntry entry.now) o) }
{
    let Some((heading, rest)) = behind_star(entry) else {
        return Ok(None);
    };
    let Some(equations) = equations_of(alloc, rest)? else {
        return Ok(None);
    };
    let form = heading.form.clone()?;
    let cat = heading.cat.clone()?;
    Ok(Some(Entry {
        form,
        cat,
        equations,
    }))
}

/// The word in front, and what is behind its stop.
pub(crate) fn entry_at(
    alloc: Global,
    lexemes: &[Lexeme],
) -> Result<Option<(Entry, &[Lexeme])>, AllocError>
    ensures read { IfOk result (λ o. FoundAt entry_view (IsEnded IsEntry) lexemes.now o) }
    ensures shorter { IfOk result (λ o. IfSome o (λ x. length x.1.now < length lexemes.now)) }
{
    let Some((entry, behind)) = up_to_stop(lexemes) else {
        return Ok(None);
    };
    match entry_of(alloc, entry)? {
        Some(entry) => Ok(Some((entry, behind))),
        None => Ok(None),
    }
}
