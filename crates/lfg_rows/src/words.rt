//! Words of lines, with the forms that they offer to the lexicon.

use lfg_terms::TokenForms;
use lfg_token::sentence;
use std::alloc::Global;
use std::process::Abort;
use std::test::Fail;

/// The tokens, each with its forms.
fn forms_text(alloc: Global, tokens: &[TokenForms]) -> Result<String, Fail> {
    let mut text = String::new(alloc);
    for token in tokens {
        text.push_str(token.text.text())?;
        for form in token.forms.list() {
            text.push(' ')?;
            text.push_str(form.text())?;
        }
        text.push('|')?;
    }
    Ok(text)
}

/// The tokens of the line with their forms, or its fault.
fn shown(rt: &impl Abort, alloc: Global, line: &str) -> Result<String, Fail> {
    assert!(rt; line.len() <= 4_194_304);
    match sentence(alloc, line) {
        Ok(tokens) => forms_text(alloc, &tokens),
        Err(fault) => Ok(format!(in alloc; "{fault}")?),
    }
}

/// How many tokens a line with this many words has, or its fault.
fn counted(rt: &impl Abort, alloc: Global, words: usize) -> Result<String, Fail> {
    let mut line = String::new(alloc);
    for _word in 0..words {
        line.push_str("w ")?;
    }
    assert!(rt; line.len() <= 4_194_304);
    match sentence(alloc, line.as_str()) {
        Ok(tokens) => {
            let count = tokens.len();
            Ok(format!(in alloc; "{count}")?)
        }
        Err(fault) => Ok(format!(in alloc; "{fault}")?),
    }
}

#[test]
fn only_a_first_capital_has_a_second_form(rt: HostRuntime) -> Result<(), Fail> {
    for (line, wanted) in [
        ("The man", "The The the|man man|"),
        ("man The", "man man|The The|"),
        ("", ""),
    ] {
        let seen = shown(&rt, rt.alloc(), line)?;
        assert_eq!(rt; seen.as_str(), wanted);
    }
    Ok(())
}

#[test]
fn sixty_five_words_are_too_many(rt: HostRuntime) -> Result<(), Fail> {
    for (words, wanted) in [(64, "64"), (65, "65 tokens, more than 64")] {
        let seen = counted(&rt, rt.alloc(), words)?;
        assert_eq!(rt; seen.as_str(), wanted);
    }
    Ok(())
}
