ghost use Rattle.std.specs.Prelude.{◌≡◌, IfOk, MatchOption, length, map};
ghost use Rattle.std.specs.List.{list_all};
ghost use Rattle.std.specs.Str.Lines.{lines};
ghost use Rattle.lfg_model.specs.ThinText.{is_letter, is_sentence_byte, is_word, is_thin_line, token_of, words, ThinSentences};

use lfg_terms::{List, Name, TokenForms};
use std::alloc::{AllocError, Global};

/// The length of the longest thin sentence file, in bytes.
const LONGEST: usize = 65_536;

/// The most words of a line.
const MOST_WORDS: usize = 64;

/// Whether the byte is an ASCII lower-case letter.
fn is_letter(byte: u8) -> bool
    ensures { result ≡ is_letter byte }
{
    matches!(byte, b'a'..=b'z')
}

/// Whether the byte is a letter, a space or a line feed.
fn is_sentence_byte(byte: u8) -> bool
    ensures { result ≡ is_sentence_byte byte }
{
    byte == b'\n' || byte == b' ' || is_letter(byte)
}

/// Whether all bytes are letters, spaces or line feeds.
fn has_sentence_bytes(bytes: &[u8]) -> bool
    ensures { result ≡ list_all is_sentence_byte bytes.now }
{
    bytes.iter().all(|byte| is_sentence_byte(*byte))
}

/// Whether all bytes are letters.
fn has_letters(bytes: &[u8]) -> bool
    ensures { result ≡ list_all is_letter bytes.now }
{
    bytes.iter().all(|byte| is_letter(*byte))
}

/// Whether the text is one or more ASCII lower-case letters.
fn is_word(text: &str) -> bool
    ensures { result ≡ is_word text.now }
{
    !text.is_empty() && has_letters(text.as_bytes())
}

/// Whether words stand between the spaces of a line.
fn are_words(line: &str) -> bool
    ensures { result ≡ list_all is_word (words line.now) }
{
    line.split(' ').all(|word| is_word(word))
}

/// How many parts the spaces of a line make.
fn word_count(line: &str) -> usize
    ensures { result ≡ length (words line.now) }
{
    line.split(' ').count()
}

/// Whether the line is empty or has from 1 to 64 words.
fn is_thin_line(line: &str) -> bool
    ensures { result ≡ is_thin_line line.now }
{
    line.is_empty() || (are_words(line) && word_count(line) <= MOST_WORDS)
}

/// Whether each line is so.
fn has_thin_lines(text: &str) -> bool
    ensures { result ≡ list_all is_thin_line (lines text.now) }
{
    text.lines().all(|line| is_thin_line(line))
}

/// The text of a thin sentence file, or `None` where the file is not thin. In a thin file each
/// line is empty or has words of ASCII lower-case letters, with one space between two.
pub(crate) fn thin_text(bytes: &[u8]) -> Option<&str>
    ensures { MatchOption result (¬ ThinSentences bytes.now) (λ text. (text.now ≡ bytes.now) × ThinSentences bytes.now) }
{
    if bytes.len() > LONGEST || !has_sentence_bytes(bytes) {
        return None;
    }
    let Ok(text) = str::from_utf8(bytes) else {
        return None;
    };
    if has_thin_lines(text) {
        Some(text)
    } else {
        None
    }
}

/// A word with itself as its only form.
fn token_of(alloc: Global, word: &str) -> Result<TokenForms, AllocError>
    ensures { IfOk result (λ token. token ≡ token_of word.now) }
{
    let text = Name::new(alloc, word)?;
    let form = text.clone()?;
    Ok(TokenForms {
        text,
        forms: List::new(alloc, vec![in alloc; form]?)?,
    })
}

/// What stands between the spaces of a line.
fn split_words(alloc: Global, line: &str) -> Result<Vec<&str>, AllocError>
    ensures { IfOk result (λ v. map (λ x. x.now) v.items ≡ words line.now) }
{
    line.split(' ').collect(alloc)
}

/// The words of a line, each with itself as its only form.
///
/// # Errors
///
/// Only for want of memory.
pub(crate) fn words_of(alloc: Global, line: &str) -> Result<Vec<TokenForms>, AllocError>
    ensures { IfOk result (λ tokens. tokens.items ≡ map token_of (words line.now)) }
{
    let words = split_words(alloc, line)?;
    tokens_of(alloc, &words)
}

/// Words with themselves as their only forms.
fn tokens_of(alloc: Global, words: &[&str]) -> Result<Vec<TokenForms>, AllocError>
    ensures { IfOk result (λ tokens. tokens.items ≡ map token_of (map (λ x. x.now) words.now)) }
{
    let mut tokens = Vec::new(alloc);
    for word in words {
        tokens.push(token_of(alloc, word)?)?;
    }
    Ok(tokens)
}
