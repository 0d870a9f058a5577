ghost use Rattle.std.specs.Prelude.{◌≡◌, ◌≤◌, IfOk, length, map};
ghost use Rattle.lfg_token.specs.Words.{is_white, pieces};

use std::alloc::{AllocError, Global};
use unicode_segmentation::UnicodeSegmentation;

/// Whether all characters of a text are white space.
fn is_white(text: &str) -> bool
    ensures { result ≡ is_white text.now }
{
    text.chars().all(|c| c.is_whitespace())
}

/// How many tokens a line has. Takes no memory.
pub(crate) fn piece_count(line: &str) -> usize
    ensures count { result ≡ length (pieces line.now) }
    ensures len { result ≤ length line.now }
{
    line.split_word_bounds()
        .filter(|piece| !is_white(piece))
        .count()
}

/// The texts of the tokens of a line, in order.
pub(crate) fn pieces_of(alloc: Global, line: &str) -> Result<Vec<&str>, AllocError>
    ensures { IfOk result (λ v. map (λ x. x.now) v.items ≡ pieces line.now) }
{
    line.split_word_bounds()
        .filter(|piece| !is_white(piece))
        .collect(alloc)
}
