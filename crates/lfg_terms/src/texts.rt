ghost use Rattle.std.specs.Prelude.{◌≡◌, ◌++◌, ◌∷◌, [], List, ℕ, ◌<◌, ◌^◌, IfOk, OnOk, OnErr, length, take, decimal};
ghost use Rattle.lfg_terms.specs.Texts.{colon, name_text, edge_text, byte_text, is_bare, IsPlaced, Keeps};
ghost use Rattle.lfg_terms.specs.declared.node.Edge.{Edge};

use crate::name::Name;
use crate::node::Edge;
use std::alloc::{AllocError, Global};

/// Whether the byte is written without a backquote, between these two.
fn is_bare(before: Option<u8>, byte: u8, after: Option<u8>) -> bool
    ensures { result ≡ is_bare before byte after }
{
    match byte {
        b'0'..=b'9' | b'A'..=b'Z' | b'a'..=b'z' | b'_' | 128..=191 => true,
        b'-' => match (before, after) {
            (Some(left), Some(right)) => left != b'-' && right != b'-',
            _ => false,
        },
        _ => false,
    }
}

/// The name as notation writes it: a backquote stands before each character that would not be
/// read as a part of the name by itself. Distinct names have distinct texts.
///
/// # Errors
///
/// Only for want of memory.
pub fn name_text(alloc: Global, name: &Name) -> Result<Vec<u8>, AllocError>
    ensures value { IfOk result (λ text. text.items ≡ name_text name.now) }
    ensures distinct { IfOk result (λ text. (other : List ℕ) → name_text other ≡ text.items → other ≡ name.now) }
{
    let mut text = Vec::new(alloc);
    push_name(&mut text, name)?;
    Ok(text)
}

/// Appends the byte of a name that stands between these two.
fn push_byte(
    text: &mut Vec<u8>,
    before: Option<u8>,
    byte: u8,
    after: Option<u8>,
) -> Result<(), AllocError>
    ensures ok { OnOk result (text.new.items ≡ text.old.items ++ byte_text before byte after) }
    ensures err { OnErr result (Keeps text.old.items text.new.items) }
{
    if !is_bare(before, byte, after) {
        text.push(b'`')?;
    }
    text.push(byte)?;
    Ok(())
}

/// Appends the name's text, as `name_text` gives it.
///
/// # Errors
///
/// Only for want of memory. What stood in `text` then still stands at its front.
pub fn push_name(text: &mut Vec<u8>, name: &Name) -> Result<(), AllocError>
    ensures ok { OnOk result (text.new.items ≡ text.old.items ++ name_text name.now) }
    ensures err { OnErr result (Keeps text.old.items text.new.items) }
{
    let bytes = name.text().as_bytes();
    let mut before = None;
    for i in 0..bytes.len() {
        let byte = bytes[i];
        push_byte(text, before, byte, bytes.get(i + 1).copied())?;
        before = Some(byte);
    }
    Ok(())
}

/// Appends the number in decimal digits, without leading zeros.
///
/// # Errors
///
/// Only for want of memory. What stood in `text` then still stands at its front.
pub fn push_number(alloc: Global, text: &mut Vec<u8>, number: u64) -> Result<(), AllocError>
    ensures ok { OnOk result (text.new.items ≡ text.old.items ++ decimal number) }
    ensures err { OnErr result (Keeps text.old.items text.new.items) }
{
    text.extend_from_slice(number.to_string(alloc)?.as_bytes())
}

/// Appends a place between tokens behind a colon.
fn push_place(alloc: Global, text: &mut Vec<u8>, place: u32) -> Result<(), AllocError>
    ensures ok { OnOk result (text.new.items ≡ text.old.items ++ colon ∷ decimal place) }
    ensures err { OnErr result (Keeps text.old.items text.new.items) }
{
    text.push(b':')?;
    push_number(alloc, text, place as u64)
}

/// Appends the edge's text, as `edge_text` gives it.
///
/// # Errors
///
/// Only for want of memory. What stood in `text` then still stands at its front.
pub fn push_edge(alloc: Global, text: &mut Vec<u8>, edge: &Edge) -> Result<(), AllocError>
    ensures ok { OnOk result (text.new.items ≡ text.old.items ++ edge_text edge.now) }
    ensures placed { OnOk result (IsPlaced edge.now) }
    ensures err { OnErr result (Keeps text.old.items text.new.items) }
{
    push_name(text, &edge.cat)?;
    push_place(alloc, text, edge.from)?;
    push_place(alloc, text, edge.to)
}

/// The edge as facts show it: the category's text, the start and the end, with colons between.
/// Distinct edges have distinct texts.
///
/// # Errors
///
/// Only for want of memory.
pub fn edge_text(alloc: Global, edge: &Edge) -> Result<Vec<u8>, AllocError>
    ensures value { IfOk result (λ text. text.items ≡ edge_text edge.now) }
    ensures placed { OnOk result (IsPlaced edge.now) }
    ensures distinct { IfOk result (λ text. (other : Edge) → IsPlaced other → edge_text other ≡ text.items → other ≡ edge.now) }
{
    let mut text = Vec::new(alloc);
    push_edge(alloc, &mut text, edge)?;
    Ok(text)
}
