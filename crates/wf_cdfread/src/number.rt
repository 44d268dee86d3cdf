//! Bytes, numbers and names at a place.

ghost use Rattle.std.specs.Prelude.{◌≡◌, ◌<◌, ◌^◌, IfOk, length};
ghost use Rattle.wf_model.specs.CdfRead.{raw, number, count, padded_bytes, name, kind};
ghost use Rattle.wf_model.specs.Reading.{Gives};
ghost use Rattle.wf_cdfread.specs.Faults.{fault_of};

use crate::error::HeaderError;
use std::alloc::Global;
use wf_model::{Bytes, CdfError};

/// The greatest count, length or rank.
const MOST: u32 = 2_147_483_647;

/// So many bytes, and the place behind them.
pub(crate) fn raw(bytes: &[u8], at: usize, size: usize) -> Result<(&[u8], usize), HeaderError>
    ensures value { Gives (λ x. (x.0.now, x.1)) fault_of result (raw size bytes.now at) }
    ensures length { IfOk result (λ x. length x.0.now ≡ size) }
{
    let end = bytes.len();
    if end < at || end - at < size {
        return Err(HeaderError::Fault(CdfError::Truncated { at: end as u64 }));
    }
    let (_, rest) = bytes.split_at(at);
    let (front, _) = rest.split_at(size);
    Ok((front, at + size))
}

/// A number of one byte.
pub(crate) fn byte(bytes: &[u8], at: usize) -> Result<(u8, usize), HeaderError>
    ensures { Gives (λ x. x) fault_of result (number 1 bytes.now at) }
{
    let (front, next) = raw(bytes, at, 1)?;
    Ok((front[0], next))
}

/// A number of four bytes, the highest first.
pub(crate) fn word(bytes: &[u8], at: usize) -> Result<(u32, usize), HeaderError>
    ensures { Gives (λ x. x) fault_of result (number 4 bytes.now at) }
{
    let (front, next) = raw(bytes, at, 4)?;
    let word = u32::from_be_bytes([front[0], front[1], front[2], front[3]]);
    Ok((word, next))
}

/// A number of eight bytes, the highest first.
pub(crate) fn long(bytes: &[u8], at: usize) -> Result<(u64, usize), HeaderError>
    ensures { Gives (λ x. x) fault_of result (number 8 bytes.now at) }
{
    let (front, next) = raw(bytes, at, 8)?;
    let long = u64::from_be_bytes([
        front[0], front[1], front[2], front[3], front[4], front[5], front[6], front[7],
    ]);
    Ok((long, next))
}

/// A count, a length or a rank.
pub(crate) fn count(bytes: &[u8], at: usize) -> Result<(u32, usize), HeaderError>
    ensures value { Gives (λ x. x) fault_of result (count bytes.now at) }
    ensures limit { IfOk result (λ x. x.0 < 2 ^ 31) }
{
    let (count, next) = word(bytes, at)?;
    if count > MOST {
        return Err(HeaderError::Fault(CdfError::Overlong { at: at as u64 }));
    }
    Ok((count, next))
}

/// A type: byte, char, short, int, float and double are 1 to 6.
pub(crate) fn kind(bytes: &[u8], at: usize) -> Result<(u8, usize), HeaderError>
    ensures { Gives (λ x. x) fault_of result (kind bytes.now at) }
{
    let (kind, next) = word(bytes, at)?;
    if kind < 1 || 6 < kind {
        return Err(HeaderError::Fault(CdfError::BadType { at: at as u64 }));
    }
    Ok((kind as u8, next))
}

/// So many bytes, and what fills them up to a multiple of four, which may be anything.
pub(crate) fn padded_bytes(
    alloc: Global,
    bytes: &[u8],
    at: usize,
    size: usize,
) -> Result<(Bytes, usize), HeaderError>
    requires { size < 2 ^ 40 }
    ensures { Gives (λ x. x) fault_of result (padded_bytes size bytes.now at) }
{
    let (padded, next) = raw(bytes, at, (size + 3) / 4 * 4)?;
    let (front, _) = padded.split_at(size);
    Ok((Bytes::from_vec(Vec::from_slice(alloc, front)?), next))
}

/// A name: its length and its bytes.
pub(crate) fn name(alloc: Global, bytes: &[u8], at: usize) -> Result<(Bytes, usize), HeaderError>
    ensures { Gives (λ x. x) fault_of result (name bytes.now at) }
{
    let (size, next) = count(bytes, at)?;
    padded_bytes(alloc, bytes, next, size as usize)
}
