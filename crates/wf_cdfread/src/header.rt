//! The header at the front of a file.

ghost use Rattle.std.specs.Prelude.{◌≡◌, [], IfOk, IfErr};
ghost use Rattle.wf_model.specs.CdfRead.{letters, version_byte, record_count, header_at, HeaderAt};
ghost use Rattle.wf_model.specs.Reading.{Fails, Gives};
ghost use Rattle.wf_cdfread.specs.Faults.{fault_of};
ghost use Rattle.wf_cdfread.specs.Parts.{letter, magic, front, header_by_parts};

use crate::error::HeaderError;
use crate::number::{byte, word};
use crate::part::{att_list, dim_list, var_list};
use std::alloc::Global;
use wf_model::{CdfError, Header};

/// One letter of those at the front.
fn letter(bytes: &[u8], at: usize, wanted: u8) -> Result<(u8, usize), HeaderError>
    ensures { Gives (λ x. x) fault_of result (letter wanted bytes.now at) }
{
    let (found, next) = byte(bytes, at)?;
    if found != wanted {
        return Err(HeaderError::Fault(CdfError::NotCdf));
    }
    Ok((found, next))
}

/// The letters at the front: the place behind them.
fn letters(bytes: &[u8], at: usize) -> Result<usize, HeaderError>
    ensures { Gives (λ next. ([], next)) fault_of result (letters magic bytes.now at) }
{
    let (_, next) = letter(bytes, at, b'C')?;
    let (_, next) = letter(bytes, next, b'D')?;
    let (_, next) = letter(bytes, next, b'F')?;
    Ok(next)
}

/// Version 1 or 2.
fn version(bytes: &[u8], at: usize) -> Result<(u8, usize), HeaderError>
    ensures { Gives (λ x. x) fault_of result (version_byte bytes.now at) }
{
    let (version, next) = byte(bytes, at)?;
    if version != 1 && version != 2 {
        return Err(HeaderError::Fault(CdfError::Version));
    }
    Ok((version, next))
}

/// The number of records. All ones is the streaming form, which is not read.
fn record_count(bytes: &[u8], at: usize) -> Result<(u32, usize), HeaderError>
    ensures { Gives (λ x. x) fault_of result (record_count bytes.now at) }
{
    let (numrecs, next) = word(bytes, at)?;
    if numrecs == u32::MAX {
        return Err(HeaderError::Fault(CdfError::Streaming));
    }
    Ok((numrecs, next))
}

/// The version and the number of records, behind the letters.
#[tactic(auto, unfolding(crate::specs::Parts::front))]
fn front(bytes: &[u8], at: usize) -> Result<((u8, u32), usize), HeaderError>
    ensures { Gives (λ x. x) fault_of result (front bytes.now at) }
{
    let next = letters(bytes, at)?;
    let (version, next) = version(bytes, next)?;
    let (numrecs, end) = record_count(bytes, next)?;
    Ok(((version, numrecs), end))
}

/// The header, and the place of the first byte behind it.
fn header_by_parts(alloc: Global, bytes: &[u8], at: usize) -> Result<(Header, usize), HeaderError>
    ensures { Gives (λ x. x) fault_of result (header_by_parts bytes.now at) }
{
    let ((version, numrecs), next) = front(bytes, at)?;
    let (dims, next) = dim_list(alloc, bytes, next)?;
    let (atts, next) = att_list(alloc, bytes, next)?;
    let (vars, end) = var_list(alloc, bytes, next, version, dims.as_slice())?;
    let header = Header {
        version,
        numrecs,
        dims,
        atts,
        vars,
    };
    Ok((header, end))
}

/// The header at the front of a file's bytes.
///
/// It takes versions 1 and 2, any begin, a list of count 0 with its tag or with tag 0, and
/// attributes of any type. It ignores vsize and what padding holds, and names of dimensions may be
/// the same. The format is the netCDF classic one's. The error is the first in reading order, or
/// want of memory.
#[tactic(auto, using(crate::proofs::HeaderParts::header_at_parts))]
pub fn read_header(alloc: Global, bytes: &[u8]) -> Result<Header, HeaderError>
    ensures header { IfOk result (λ h. HeaderAt bytes.now h) }
    ensures fault { IfErr result (λ e. Fails (fault_of e) (header_at bytes.now)) }
{
    let (header, _) = header_by_parts(alloc, bytes, 0)?;
    Ok(header)
}
