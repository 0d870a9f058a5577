ghost use Rattle.std.specs.Prelude.{◌≡◌, ◌≤◌, IfOk, length};
ghost use Rattle.std.specs.Str.{chars};
ghost use Rattle.lfg_model.specs.Tokens.{width};

use std::alloc::{AllocError, Global};

/// The characters of a text.
pub(crate) fn chars_of(alloc: Global, text: &str) -> Result<Vec<char>, AllocError>
    ensures { IfOk result (λ v. v.items ≡ chars text.now) }
{
    text.chars().collect(alloc)
}

/// How many bytes the characters take.
pub(crate) fn width(chars: &[char]) -> u32
    requires { length chars.now ≤ 4194304 }
    ensures { result ≡ width chars.now }
{
    let mut sum = 0;
    for c in chars {
        sum += c.len_utf8() as u32;
    }
    sum
}
