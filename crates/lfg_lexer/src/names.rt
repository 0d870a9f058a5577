ghost use Rattle.std.specs.Prelude.{◌≡◌, IfOk};
ghost use Rattle.std.specs.String.{string_bytes};
ghost use Rattle.lfg_model.specs.Pieces.{is_plain, char_at, joined_at, name_on};
ghost use Rattle.lfg_lexer.specs.Seen.{Reads, added, pair};

use std::alloc::AllocError;

/// Whether the character stands in a name for itself.
pub(crate) fn is_plain(c: char) -> bool
    ensures { result ≡ is_plain c }
{
    c.is_ascii_alphanumeric() || c == '_' || (c > '\u{7f}' && !c.is_whitespace())
}

/// The name character in front, and what is behind it.
pub(crate) fn char_at(chars: &[char]) -> Option<(char, &[char])>
    ensures { Reads (λ c rest. (c, rest.now)) result (char_at chars.now) }
{
    match chars {
        [c, rest @ ..] if is_plain(*c) => Some((*c, rest)),
        ['`', c, rest @ ..] if *c != '\n' => Some((*c, rest)),
        _ => None,
    }
}

/// The name character behind a hyphen in front, and what is behind it.
fn joined_at(chars: &[char]) -> Option<(char, &[char])>
    ensures { Reads (λ c rest. (c, rest.now)) result (joined_at chars.now) }
{
    match chars {
        ['-', rest @ ..] => char_at(rest),
        _ => None,
    }
}

/// Appends the rest of a name, behind its first character, and answers what is behind the name.
pub(crate) fn name_on<'a>(text: &mut String, chars: &'a [char]) -> Result<&'a [char], AllocError>
    ensures { IfOk result (λ rest. added (string_bytes text.old) (name_on chars.now)
        ≡ pair (string_bytes text.new) rest.now) }
{
    let mut rest = chars;
    loop {
        let Some((c, behind)) = char_at(rest) else {
            let Some((c, behind)) = joined_at(rest) else {
                return Ok(rest);
            };
            text.push('-')?;
            text.push(c)?;
            rest = behind;
            continue;
        };
        text.push(c)?;
        rest = behind;
    }
}
