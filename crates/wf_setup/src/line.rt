//! Printed lines, in bytes.

ghost use Rattle.std.specs.Prelude.{◌≡◌, ◌∷◌, IfOk, decimal, string_bytes};
ghost use Rattle.wf_model.specs.Refusals.{line, whole};
ghost use Rattle.wf_setup.specs.Words.{texts_of};

use std::alloc::{AllocError, Global};
use wf_model::Bytes;

/// Words, parted by blanks, and a line feed.
pub fn line(alloc: Global, first: &[u8], others: &[&[u8]]) -> Result<Bytes, AllocError>
    ensures { IfOk result (λ b. b ≡ line (first.now ∷ texts_of others.now)) }
{
    let mut text = Vec::from_slice(alloc, first)?;
    for word in others {
        text.push(b' ')?;
        text.extend_from_slice(word)?;
    }
    text.push(b'\n')?;
    Ok(Bytes::from_vec(text))
}

/// A number in decimal digits.
pub fn number(alloc: Global, number: u32) -> Result<String, AllocError>
    ensures { IfOk result (λ t. string_bytes t ≡ decimal number) }
{
    format!(in alloc; "{number}")
}

/// The place of a byte in decimal digits.
pub fn place(alloc: Global, at: u64) -> Result<String, AllocError>
    ensures { IfOk result (λ t. string_bytes t ≡ decimal at) }
{
    format!(in alloc; "{at}")
}

/// A number in decimal digits, with `-` in front where it is below 0.
pub fn whole(alloc: Global, number: i128) -> Result<String, AllocError>
    ensures { IfOk result (λ t. string_bytes t ≡ whole number) }
{
    format!(in alloc; "{number}")
}
