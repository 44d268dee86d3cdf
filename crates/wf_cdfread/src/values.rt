//! The values of a variable in a record.

ghost use Rattle.std.specs.Prelude.{◌≡◌, ◌+◌, ◌*◌, ◌/◌, ◌%◌, ◌^◌, ◌<◌, [], ◌∷◌, IfOk, IfErr};
ghost use Rattle.std.specs.Prelude.{length, find, Ok, Some, ◌&&◌, nat_lt};
ghost use Rattle.std.specs.Option.{option_copied};
ghost use Rattle.std.specs.Str.{bytes_eq};
ghost use Rattle.wf_model.specs.CdfRead.{has_name, slab_bytes_of, chars_at, slab_at, ints};
ghost use Rattle.wf_model.specs.Reading.{Fails, Gives};
ghost use Rattle.wf_model.specs.Sizes.{is_record_var, lengths, rest_of, product, type_size};
ghost use Rattle.wf_model.specs.Sizes.{record_size};
ghost use Rattle.wf_cdf.specs.Capped.{capped};
ghost use Rattle.wf_cdfread.specs.Faults.{slab_fault_of};
ghost use Rattle.wf_cdfread.specs.Parts.{part_at};

use crate::error::ValuesError;
use crate::size::{
    all_but_first, begins_with_record, have_lengths, product, record_size, type_size,
};
use byteorder::{BigEndian, ByteOrder};
use std::alloc::{AllocError, Global};
use wf_model::cdf_type::{CHAR, INT};
use wf_model::{Header, SlabError, Var};

/// The first variable of this name.
fn find_var<'a>(vars: &'a [Var], name: &[u8]) -> Option<&'a Var>
    ensures { option_copied result ≡ find (has_name name.now) vars.now }
{
    vars.iter().find(|var| var.name.as_slice() == name)
}

/// Whether the file has a slab of this variable and shape in a record.
fn has_slab(header: &Header, var: &Var, shape: &[u32], rec: u32) -> bool
    ensures { result ≡ (is_record_var header.now.dims var.now && (bytes_eq (lengths header.now.dims
        (rest_of var.now.dims)) shape.now && nat_lt rec header.now.numrecs)) }
{
    let dims = header.dims.as_slice();
    let numbers = var.dims.as_slice();
    begins_with_record(dims, numbers)
        && (have_lengths(dims, all_but_first(numbers), shape) && rec < header.numrecs)
}

/// So many bytes from a place on, each number at most the greatest of 128 bits.
fn part(bytes: &[u8], at: u128, size: u128) -> Result<&[u8], SlabError>
    ensures value { Gives (λ x. x.now) Some result (part_at bytes.now at size) }
    ensures bound { length bytes.now < 2 ^ 64 }
{
    let end = bytes.len();
    if (end as u128) < at.saturating_add(size) {
        return Err(SlabError::Truncated { at: end as u64 });
    }
    let (_, rest) = bytes.split_at(at as usize);
    let (front, _) = rest.split_at(size as usize);
    Ok(front)
}

/// Where a variable's slab in a record begins.
#[tactic(auto, using(crate::proofs::SlabSizes::capped_place))]
fn place_of(header: &Header, var: &Var, rec: u32) -> u128
    ensures { result ≡ capped (var.now.begin + rec * record_size header.now) }
{
    u128::from(var.begin).saturating_add(record_size(header).saturating_mul(u128::from(rec)))
}

/// The bytes of a slab of this type and shape.
#[tactic(auto, using(wf_cdf::proofs::CappedSums::capped_mul))]
fn size_of_slab(shape: &[u32], kind: u8) -> u128
    ensures { result ≡ capped (product shape.now * type_size kind) }
{
    product(shape).saturating_mul(u128::from(type_size(kind)))
}

/// The bytes of a variable's slab of this type and shape in a record.
fn slab_part<'a>(
    bytes: &'a [u8],
    header: &Header,
    var: &Var,
    kind: u8,
    shape: &[u32],
    rec: u32,
) -> Result<&'a [u8], SlabError>
    ensures value { Gives (λ x. x.now) Some result (part_at bytes.now
        (var.now.begin + rec * record_size header.now) (product shape.now * type_size kind)) }
    ensures length { IfOk result (λ x. length x.now ≡ product shape.now * type_size kind) }
{
    part(bytes, place_of(header, var, rec), size_of_slab(shape, kind))
}

/// The bytes of a variable in a record, counted from 0, of this type: 2 for char, 4 for int. They
/// are found and not read as numbers, and no memory is taken. All else is as for [`slab`].
pub fn find_slab<'a>(
    bytes: &'a [u8],
    header: &Header,
    name: &[u8],
    kind: u8,
    shape: &[u32],
    rec: u32,
) -> Result<&'a [u8], SlabError>
    ensures value { Gives (λ x. x.now) Some result (slab_bytes_of bytes.now header.now
        (find (has_name name.now) header.now.vars) kind shape.now rec) }
    ensures length { IfOk result (λ x. length x.now ≡ product shape.now * type_size kind) }
{
    let Some(var) = find_var(header.vars.as_slice(), name) else {
        return Err(SlabError::NoVariable);
    };
    if var.kind != kind {
        return Err(SlabError::WrongType);
    }
    if !has_slab(header, var, shape, rec) {
        return Err(SlabError::WrongShape);
    }
    slab_part(bytes, header, var, kind, shape, rec)
}

/// Reads whole numbers of four bytes each, the highest first, into all of `values`.
fn read_numbers(bytes: &[u8], values: &mut [i32])
    requires { length bytes.now ≡ 4 * length values.old }
    ensures { values.new ≡ ints (length values.old) bytes.now }
{
    BigEndian::read_i32_into(bytes, values);
}

/// The whole numbers of four bytes each, the highest first.
fn numbers(alloc: Global, bytes: &[u8]) -> Result<Vec<i32>, AllocError>
    requires { length bytes.now % 4 ≡ 0 }
    ensures { IfOk result (λ v. v.items ≡ ints (length bytes.now / 4) bytes.now) }
{
    let mut values = vec![in alloc; 0; bytes.len() / 4]?;
    read_numbers(bytes, &mut values);
    Ok(values)
}

/// The numbers of an int variable in a record, counted from 0. The header is the one that was read
/// of the same bytes, and the shape holds the lengths of the variable's dimensions behind the
/// record's, the slowest first.
///
/// The variable is the first of that name. Errors, the first of them: `NoVariable`; `WrongType`
/// where it is not of type int; `WrongShape` where its first dimension is not the record dimension,
/// its other lengths differ from the shape, or the record is not below the header's numrecs;
/// `Truncated` where the slab ends past the file. The places are those of the netCDF classic
/// format: begin, and the record's number times the size of all record variables. Numbers are
/// reserved once their bytes are found in the file.
#[tactic(auto, unfolding(wf_model::specs::CdfRead::slab_at))]
pub fn slab(
    alloc: Global,
    bytes: &[u8],
    header: &Header,
    name: &[u8],
    shape: &[u32],
    rec: u32,
) -> Result<Vec<i32>, ValuesError>
    ensures values { IfOk result
        (λ v. slab_at bytes.now header.now name.now shape.now rec ≡ Ok v.items) }
    ensures fault { IfErr result
        (λ e. Fails (slab_fault_of e) (slab_at bytes.now header.now name.now shape.now rec)) }
{
    let found = find_slab(bytes, header, name, INT, shape, rec)?;
    Ok(numbers(alloc, found)?)
}

/// The characters of a char variable in a record, counted from 0: its one dimension behind the
/// record's has this length. All else is as for `slab`, and `WrongType` comes where the variable is
/// not of type char.
#[tactic(auto, unfolding(wf_model::specs::CdfRead::chars_at))]
pub fn chars(
    alloc: Global,
    bytes: &[u8],
    header: &Header,
    name: &[u8],
    length: u32,
    rec: u32,
) -> Result<Vec<u8>, ValuesError>
    ensures chars { IfOk result
        (λ v. chars_at bytes.now header.now name.now length rec ≡ Ok v.items) }
    ensures fault { IfErr result
        (λ e. Fails (slab_fault_of e) (chars_at bytes.now header.now name.now length rec)) }
{
    let found = find_slab(bytes, header, name, CHAR, &[length], rec)?;
    Ok(Vec::from_slice(alloc, found)?)
}
