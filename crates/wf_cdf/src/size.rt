ghost use Rattle.std.specs.Prelude.{◌≡◌, ◌<◌, ◌^◌, All, length, filter, sum_by, not, ◌==◌};
ghost use Rattle.std.specs.Prelude.{if◌then◌else◌};
ghost use Rattle.wf_model.specs.Bytes.{header_bytes};
ghost use Rattle.wf_model.specs.Sizes.{type_size, rest_of, begins_with_record, is_record_var};
ghost use Rattle.wf_model.specs.Sizes.{lengths, product, slab_dims, slab_size, padded_size};
ghost use Rattle.wf_model.specs.Sizes.{rounded, record_size, fixed_size, file_size};
ghost use Rattle.wf_model.specs.SoundHeader.{IsKind, IsSoundVar, IsSoundHeader};
ghost use Rattle.wf_cdf.specs.Capped.{capped};

use crate::length::header_length;
use wf_model::{Dim, Header, Var};

// The sizes are counted by saturating sums and products, so that each is the least of the exact
// number and the greatest of its type.

/// The bytes of a number of a type: byte, char, short, int, float and double are 1 to 6.
pub(crate) fn type_size(kind: u8) -> u32
    requires { IsKind kind }
    ensures { result ≡ type_size kind }
{
    match kind {
        1 | 2 => 1,
        3 => 2,
        4 | 5 => 4,
        _ => 8,
    }
}

/// Whether the first of these dimensions is the record dimension, which has length 0.
pub(crate) fn begins_with_record(dims: &[Dim], numbers: &[u32]) -> bool
    requires { All (λ n. n < length dims.now) numbers.now }
    ensures { result ≡ begins_with_record dims.now numbers.now }
{
    match numbers {
        [] => false,
        [first, ..] => dims[*first as usize].len == 0,
    }
}

/// The product of the lengths of these dimensions.
#[tactic(auto, using(crate::proofs::CappedSums::capped_small, crate::proofs::Sizes::capped_product_more))]
fn product(dims: &[Dim], numbers: &[u32]) -> u128
    requires { All (λ n. n < length dims.now) numbers.now }
    ensures { result ≡ capped (product (lengths dims.now numbers.now)) }
{
    let mut product = 1u128;
    for number in numbers {
        product = product.saturating_mul(u128::from(dims[*number as usize].len));
    }
    product
}

/// All of these dimensions but the first.
#[tactic(auto, using(crate::proofs::Sizes::rest_of_drop))]
pub(crate) fn all_but_first(numbers: &[u32]) -> &[u32]
    ensures { result.now ≡ rest_of numbers.now }
{
    if numbers.is_empty() {
        numbers
    } else {
        &numbers[1..]
    }
}

/// The dimensions of a variable but for the record dimension.
fn slab_dims<'a>(dims: &[Dim], var: &'a Var) -> &'a [u32]
    requires { All (λ n. n < length dims.now) var.now.dims }
    ensures value { result.now ≡ slab_dims dims.now var.now }
    ensures within { All (λ n. n < length dims.now) result.now }
{
    let numbers = var.dims.as_slice();
    if begins_with_record(dims, numbers) {
        all_but_first(numbers)
    } else {
        numbers
    }
}

/// The bytes of a variable, or of one record of a record variable.
#[tactic(auto, using(crate::proofs::CappedSums::capped_mul))]
fn slab_size(dims: &[Dim], var: &Var) -> u128
    requires { IsSoundVar dims.now var.now }
    ensures { result ≡ capped (slab_size dims.now var.now) }
{
    product(dims, slab_dims(dims, var)).saturating_mul(u128::from(type_size(var.kind)))
}

/// Up to a multiple of four.
#[tactic(auto, using(crate::proofs::CappedSums::capped_padding))]
fn rounded(size: u128) -> u128
    ensures { result ≡ capped (rounded size) }
{
    size.saturating_add((4 - size % 4) % 4)
}

/// The same with its padding.
#[tactic(auto, using(crate::proofs::CappedSums::capped_rounded))]
pub(crate) fn padded_size(dims: &[Dim], var: &Var) -> u128
    requires { IsSoundVar dims.now var.now }
    ensures { result ≡ capped (padded_size dims.now var.now) }
{
    rounded(slab_size(dims, var))
}

/// What the variables of a file need: all fixed ones with their padding, and those of one record
/// with and without it.
#[derive(Clone, Copy)]
struct DataSizes {
    fixed: u128,
    record_vars: usize,
    padded: u128,
    unpadded: u128,
}

#[tactic(auto, using(crate::proofs::CappedSums::capped_small))]
fn data_sizes(dims: &[Dim], vars: &[Var]) -> DataSizes
    requires { All (IsSoundVar dims.now) vars.now }
    ensures fixed { result.fixed ≡ capped
        (sum_by (padded_size dims.now) (filter (λ v. not (is_record_var dims.now v)) vars.now)) }
    ensures record_vars { result.record_vars ≡ length (filter (is_record_var dims.now) vars.now) }
    ensures padded { result.padded
        ≡ capped (sum_by (padded_size dims.now) (filter (is_record_var dims.now) vars.now)) }
    ensures unpadded { result.unpadded
        ≡ capped (sum_by (slab_size dims.now) (filter (is_record_var dims.now) vars.now)) }
{
    let mut fixed = 0u128;
    let mut record_vars = 0;
    let mut padded = 0u128;
    let mut unpadded = 0u128;
    for var in vars {
        let size = padded_size(dims, var);
        if begins_with_record(dims, var.dims.as_slice()) {
            record_vars += 1;
            padded = padded.saturating_add(size);
            unpadded = unpadded.saturating_add(slab_size(dims, var));
        } else {
            fixed = fixed.saturating_add(size);
        }
    }
    DataSizes {
        fixed,
        record_vars,
        padded,
        unpadded,
    }
}

/// The bytes of one record. A lone record variable has no padding: the format leaves it out for a
/// byte, char or short, and the other types' sizes are multiples of four.
fn record_size(sizes: &DataSizes) -> u128
    ensures { result
        ≡ (if sizes.now.record_vars == 1 then sizes.now.unpadded else sizes.now.padded) }
{
    if sizes.record_vars == 1 {
        sizes.unpadded
    } else {
        sizes.padded
    }
}

/// The bytes of a file's header, of its fixed variables and of one record.
#[derive(Clone, Copy)]
pub(crate) struct FileSizes {
    pub(crate) header: u128,
    pub(crate) fixed: u128,
    pub(crate) one_record: u128,
}

#[tactic(auto, using(crate::proofs::Sizes::capped_record_size))]
pub(crate) fn file_sizes(header: &Header) -> FileSizes
    requires { IsSoundHeader header.now }
    ensures header { result.header ≡ capped (length (header_bytes header.now)) }
    ensures fixed { result.fixed ≡ capped (fixed_size header.now) }
    ensures one_record { result.one_record ≡ capped (record_size header.now) }
{
    let sizes = data_sizes(header.dims.as_slice(), header.vars.as_slice());
    FileSizes {
        header: header_length(header),
        fixed: sizes.fixed,
        one_record: record_size(&sizes),
    }
}

/// The bytes of a file with so many records, counted as at least one.
#[tactic(auto, using(crate::proofs::Sizes::capped_file_size))]
pub(crate) fn file_size(header: &Header, sizes: &FileSizes, records: u32) -> u128
    requires header { sizes.now.header ≡ capped (length (header_bytes header.now)) }
    requires fixed { sizes.now.fixed ≡ capped (fixed_size header.now) }
    requires one_record { sizes.now.one_record ≡ capped (record_size header.now) }
    ensures { result ≡ capped (file_size header.now records) }
{
    let records = u128::from(records.max(1)).saturating_mul(sizes.one_record);
    sizes
        .header
        .saturating_add(sizes.fixed)
        .saturating_add(records)
}
