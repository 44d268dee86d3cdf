//! The parts of a header: lists, dimensions, attributes and variables.
//!
//! A list grows by the items that were read of it, each of four bytes or more: its count
//! reserves nothing.

ghost use Rattle.std.specs.Prelude.{◌≡◌, ◌<◌, ◌≤◌, ◌^◌, IfOk, length, true, false};
ghost use Rattle.wf_model.specs.CdfRead.{list_size, dims, att, items, atts, dim_number};
ghost use Rattle.wf_model.specs.CdfRead.{dim_numbers, var};
ghost use Rattle.wf_model.specs.Reading.{Gives};
ghost use Rattle.wf_model.specs.Sizes.{type_size};
ghost use Rattle.wf_cdfread.specs.Faults.{fault_of};
ghost use Rattle.wf_cdfread.specs.Parts.{dim, begin_number, dim_list, att_list, var_list};

use crate::error::HeaderError;
use crate::number::{count, kind, long, name, padded_bytes, word};
use crate::size::type_size;
use std::alloc::Global;
use wf_model::{Att, CdfError, Dim, List, Var};

const DIMENSIONS: u32 = 10;

const VARIABLES: u32 = 11;

const ATTRIBUTES: u32 = 12;

/// The number of items of a list with this tag. An empty list may have tag 0.
fn list_size(bytes: &[u8], at: usize, tag: u32) -> Result<(u32, usize), HeaderError>
    ensures { Gives (λ x. x) fault_of result (list_size tag bytes.now at) }
{
    let (found, next) = word(bytes, at)?;
    if found == tag {
        return count(bytes, next);
    }
    if found != 0 {
        return Err(HeaderError::Fault(CdfError::BadTag { at: at as u64 }));
    }
    let (size, end) = word(bytes, next)?;
    if size != 0 {
        return Err(HeaderError::Fault(CdfError::BadTag { at: at as u64 }));
    }
    Ok((0, end))
}

/// A dimension. Only one may be the record's, which has length 0.
fn dim(
    alloc: Global,
    bytes: &[u8],
    at: usize,
    has_record: bool,
) -> Result<(Dim, usize), HeaderError>
    ensures { Gives (λ x. x) fault_of result (dim has_record bytes.now at) }
{
    let (name, next) = name(alloc, bytes, at)?;
    let (len, end) = count(bytes, next)?;
    if len == 0 && has_record {
        return Err(HeaderError::Fault(CdfError::BadDim { at: next as u64 }));
    }
    Ok((Dim { name, len }, end))
}

/// So many dimensions.
fn dims(
    alloc: Global,
    bytes: &[u8],
    at: usize,
    count: u32,
) -> Result<(List<Dim>, usize), HeaderError>
    ensures { Gives (λ x. x) fault_of result (dims count false bytes.now at) }
{
    let mut dims = Vec::new(alloc);
    let mut next = at;
    let mut has_record = false;
    for _ in 0..count {
        let (dim, end) = dim(alloc, bytes, next, has_record)?;
        has_record = has_record || dim.len == 0;
        dims.push(dim)?;
        next = end;
    }
    Ok((List::from_vec(dims), next))
}

/// The list of dimensions.
#[tactic(auto, unfolding(crate::specs::Parts::dim_list))]
pub(crate) fn dim_list(
    alloc: Global,
    bytes: &[u8],
    at: usize,
) -> Result<(List<Dim>, usize), HeaderError>
    ensures { Gives (λ x. x) fault_of result (dim_list bytes.now at) }
{
    let (count, next) = list_size(bytes, at, DIMENSIONS)?;
    dims(alloc, bytes, next, count)
}

/// An attribute: name, type, count and values.
fn att(alloc: Global, bytes: &[u8], at: usize) -> Result<(Att, usize), HeaderError>
    ensures { Gives (λ x. x) fault_of result (att bytes.now at) }
{
    let (name, next) = name(alloc, bytes, at)?;
    let (kind, next) = kind(bytes, next)?;
    let (count, next) = count(bytes, next)?;
    let size = count as usize * usize::from(type_size(kind));
    let (bytes, end) = padded_bytes(alloc, bytes, next, size)?;
    let att = Att {
        name,
        kind,
        count,
        bytes,
    };
    Ok((att, end))
}

/// So many attributes.
fn atts_of(
    alloc: Global,
    bytes: &[u8],
    at: usize,
    count: u32,
) -> Result<(List<Att>, usize), HeaderError>
    ensures { Gives (λ x. x) fault_of result (items att count bytes.now at) }
{
    let mut atts = Vec::new(alloc);
    let mut next = at;
    for _ in 0..count {
        let (att, end) = att(alloc, bytes, next)?;
        atts.push(att)?;
        next = end;
    }
    Ok((List::from_vec(atts), next))
}

/// A list of attributes.
fn atts(alloc: Global, bytes: &[u8], at: usize) -> Result<(List<Att>, usize), HeaderError>
    ensures { Gives (λ x. x) fault_of result (atts bytes.now at) }
{
    let (count, next) = list_size(bytes, at, ATTRIBUTES)?;
    atts_of(alloc, bytes, next, count)
}

/// The list of the file's attributes.
#[tactic(auto, unfolding(crate::specs::Parts::att_list))]
pub(crate) fn att_list(
    alloc: Global,
    bytes: &[u8],
    at: usize,
) -> Result<(List<Att>, usize), HeaderError>
    ensures { Gives (λ x. x) fault_of result (att_list bytes.now at) }
{
    atts(alloc, bytes, at)
}

/// The number of a dimension, below their count. The record dimension may only be the `first`.
fn dim_number(
    bytes: &[u8],
    at: usize,
    dims: &[Dim],
    first: bool,
) -> Result<(u32, usize), HeaderError>
    ensures { Gives (λ x. x) fault_of result (dim_number dims.now first bytes.now at) }
{
    let (number, next) = word(bytes, at)?;
    match dims.get(number as usize) {
        Some(dim) if first || dim.len != 0 => Ok((number, next)),
        _ => Err(HeaderError::Fault(CdfError::BadDim { at: at as u64 })),
    }
}

/// The numbers of a variable's dimensions.
fn dim_numbers(
    alloc: Global,
    bytes: &[u8],
    at: usize,
    dims: &[Dim],
    rank: u32,
) -> Result<(List<u32>, usize), HeaderError>
    ensures { Gives (λ x. x) fault_of result (dim_numbers dims.now true rank bytes.now at) }
{
    let mut numbers = Vec::new(alloc);
    let mut next = at;
    for i in 0..rank {
        let (number, end) = dim_number(bytes, next, dims, i == 0)?;
        numbers.push(number)?;
        next = end;
    }
    Ok((List::from_vec(numbers), next))
}

/// A begin: four bytes in version 1, and eight in version 2.
fn begin(bytes: &[u8], at: usize, version: u8) -> Result<(u64, usize), HeaderError>
    ensures { Gives (λ x. x) fault_of result (begin_number version bytes.now at) }
{
    if version == 1 {
        let (begin, next) = word(bytes, at)?;
        Ok((u64::from(begin), next))
    } else {
        long(bytes, at)
    }
}

/// A variable: name, rank, dimensions, attributes, type, size and begin.
fn var(
    alloc: Global,
    bytes: &[u8],
    at: usize,
    version: u8,
    dims: &[Dim],
) -> Result<(Var, usize), HeaderError>
    ensures { Gives (λ x. x) fault_of result (var version dims.now bytes.now at) }
{
    let (name, next) = name(alloc, bytes, at)?;
    let (rank, next) = count(bytes, next)?;
    let (dims, next) = dim_numbers(alloc, bytes, next, dims, rank)?;
    let (atts, next) = atts(alloc, bytes, next)?;
    let (kind, next) = kind(bytes, next)?;
    let (vsize, next) = word(bytes, next)?;
    let (begin, end) = begin(bytes, next, version)?;
    let var = Var {
        name,
        dims,
        atts,
        kind,
        vsize,
        begin,
    };
    Ok((var, end))
}

/// So many variables.
fn vars(
    alloc: Global,
    bytes: &[u8],
    at: usize,
    version: u8,
    dims: &[Dim],
    count: u32,
) -> Result<(List<Var>, usize), HeaderError>
    ensures { Gives (λ x. x) fault_of result (items (var version dims.now) count bytes.now at) }
{
    let mut vars = Vec::new(alloc);
    let mut next = at;
    for _ in 0..count {
        let (var, end) = var(alloc, bytes, next, version, dims)?;
        vars.push(var)?;
        next = end;
    }
    Ok((List::from_vec(vars), next))
}

/// The list of variables.
#[tactic(auto, unfolding(crate::specs::Parts::var_list))]
pub(crate) fn var_list(
    alloc: Global,
    bytes: &[u8],
    at: usize,
    version: u8,
    dims: &[Dim],
) -> Result<(List<Var>, usize), HeaderError>
    ensures { Gives (λ x. x) fault_of result (var_list version dims.now bytes.now at) }
{
    let (count, next) = list_size(bytes, at, VARIABLES)?;
    vars(alloc, bytes, next, version, dims, count)
}
