//! Quoted texts.

ghost use Rattle.std.specs.Prelude.{◌≡◌, ◌≢◌, ◌≤◌, IfOk, IfSome, length};
ghost use Rattle.wf_model.specs.NamelistTokens.{quoted};

use std::alloc::{AllocError, Global};
use wf_model::Bytes;

/// The text whose opening quote stands before these bytes, and how many bytes it takes with its
/// closing quote; none where its line leaves it open. A doubled quote is one quote of the text.
pub(crate) fn quoted(
    alloc: Global,
    quote: u8,
    bytes: &[u8],
) -> Result<Option<(Bytes, usize)>, AllocError>
    requires { quote ≢ 10 }
    ensures text { IfOk result (λ t. t ≡ quoted quote bytes.now) }
    ensures bound { IfOk result (λ t. IfSome t (λ x. x.1 ≤ length bytes.now)) }
{
    let mut text = Vec::new(alloc);
    let mut at = 0;
    while at < bytes.len() {
        let byte = bytes[at];
        if byte == b'\n' {
            return Ok(None);
        }
        if byte != quote {
            text.push(byte)?;
            at += 1;
        } else if at + 1 < bytes.len() && bytes[at + 1] == quote {
            text.push(byte)?;
            at += 2;
        } else {
            return Ok(Some((Bytes::from_vec(text), at + 1)));
        }
    }
    Ok(None)
}
