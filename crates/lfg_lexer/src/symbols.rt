ghost use Rattle.std.specs.Prelude.{◌≡◌, MatchOption, map, Some, None};
ghost use Rattle.lfg_model.specs.Pieces.{behind, goes_on, symbols, symbol_in, equal_c_at, symbol_at};
ghost use Rattle.lfg_lexer.specs.Seen.{Reads};

use crate::names::is_plain;

/// The symbols but `=c`, a longer one before those that begin it.
const SYMBOLS: [&str; 31] = [
    "----", "-->", "==>", "?=>", ":=", "::", "~=", "=", "~", "^", "!", "$", "@", "(", ")", "[",
    "]", "{", "}", "<", ">", "|", "'", "*", "+", "-", ",", ";", ":", ".", "%",
];

/// What is behind the text, where it stands in front.
fn behind<'a>(text: &[u8], chars: &'a [char]) -> Option<&'a [char]>
    ensures { MatchOption result (behind text.now chars.now ≡ None)
        (λ rest. behind text.now chars.now ≡ Some rest.now) }
{
    let mut text = text;
    let mut chars = chars;
    while let [b, text_rest @ ..] = text {
        let [c, chars_rest @ ..] = chars else {
            return None;
        };
        if *b as u32 != *c as u32 {
            return None;
        }
        text = text_rest;
        chars = chars_rest;
    }
    Some(chars)
}

/// Whether a name character, a hyphen or a backquote is in front.
fn goes_on(chars: &[char]) -> bool
    ensures { result ≡ goes_on chars.now }
{
    match chars {
        [c, ..] => is_plain(*c) || *c == '-' || *c == '`',
        [] => false,
    }
}

/// The first of the symbols that stands in front, and what is behind it.
fn symbol_in<'a>(symbols: &[&'static str], chars: &'a [char]) -> Option<(&'static str, &'a [char])>
    ensures { Reads (λ s rest. (s.now, rest.now)) result
        (symbol_in (map (λ s. s.now) symbols.now) chars.now) }
{
    for symbol in symbols {
        if let Some(rest) = behind(symbol.as_bytes(), chars) {
            return Some((symbol, rest));
        }
    }
    None
}

/// What is behind `=c`, which is read only where nothing goes on behind the `c`.
fn equal_c_at(chars: &[char]) -> Option<&[char]>
    ensures { MatchOption result (equal_c_at chars.now ≡ None)
        (λ rest. equal_c_at chars.now ≡ Some rest.now) }
{
    match chars {
        ['=', 'c', rest @ ..] if !goes_on(rest) => Some(rest),
        _ => None,
    }
}

/// The first symbol of the list that stands in front, and what is behind it.
#[tactic(auto, unfolding(lfg_model::specs::Pieces::symbols))]
fn listed_symbol_at(chars: &[char]) -> Option<(&'static str, &[char])>
    ensures { Reads (λ s rest. (s.now, rest.now)) result (symbol_in symbols chars.now) }
{
    symbol_in(&SYMBOLS, chars)
}

/// The longest symbol in front, and what is behind it.
pub(crate) fn symbol_at(chars: &[char]) -> Option<(&'static str, &[char])>
    ensures { Reads (λ s rest. (s.now, rest.now)) result (symbol_at chars.now) }
{
    match equal_c_at(chars) {
        Some(rest) => Some(("=c", rest)),
        None => listed_symbol_at(chars),
    }
}
