ghost use Rattle.std.specs.Prelude.{◌≡◌, ◌++◌, IfOk, OnOk, encode_utf8};
ghost use Rattle.std.specs.Char.{to_ascii_lowercase};
ghost use Rattle.std.specs.Str.{chars};
ghost use Rattle.lfg_token.specs.Words.{lowered, token_of, first_token};

use lfg_terms::{List, Name, TokenForms};
use std::alloc::{AllocError, Global};

/// The name of a character in lower case, if it is an ASCII letter, and of what is behind it.
fn lowered(alloc: Global, first: char, rest: &str) -> Result<Name, AllocError>
    ensures { IfOk result (λ form. form ≡ encode_utf8 (to_ascii_lowercase first) ++ rest.now) }
{
    let mut form = String::new(alloc);
    form.push(first.to_ascii_lowercase())?;
    form.push_str(rest)?;
    Name::new(alloc, form.as_str())
}

/// Appends the text with its first letter in lower case, if that is an ASCII capital.
fn push_lowered(alloc: Global, forms: &mut Vec<Name>, text: &str) -> Result<(), AllocError>
    ensures { OnOk result (forms.new.items ≡ forms.old.items ++ lowered (chars text.now)) }
{
    let mut rest = text.chars();
    let Some(first) = rest.next() else {
        return Ok(());
    };
    if first.is_ascii_uppercase() {
        forms.push(lowered(alloc, first, rest.as_str())?)?;
    }
    Ok(())
}

/// A token with its text as its only form.
pub(crate) fn token_of(alloc: Global, text: &str) -> Result<TokenForms, AllocError>
    ensures { IfOk result (λ token. token ≡ token_of text.now) }
{
    let text = Name::new(alloc, text)?;
    let form = text.clone()?;
    Ok(TokenForms {
        text,
        forms: List::new(alloc, vec![in alloc; form]?)?,
    })
}

/// The first token of a sentence, which may have a second form.
pub(crate) fn first_token(alloc: Global, text: &str) -> Result<TokenForms, AllocError>
    ensures { IfOk result (λ token. token ≡ first_token text.now) }
{
    let name = Name::new(alloc, text)?;
    let mut forms = vec![in alloc; name.clone()?]?;
    push_lowered(alloc, &mut forms, text)?;
    Ok(TokenForms {
        text: name,
        forms: List::new(alloc, forms)?,
    })
}
