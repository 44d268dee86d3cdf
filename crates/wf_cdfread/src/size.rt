//! How many bytes variables and records have. Numbers of 128 bits stay at their greatest value once
//! they reach it.

ghost use Rattle.std.specs.Prelude.{◌≡◌, ◌≤◌, length, filter, sum_by, ◌==◌, if◌then◌else◌};
ghost use Rattle.std.specs.Str.{bytes_eq};
ghost use Rattle.wf_model.specs.Sizes.{type_size, dim_of, rest_of, begins_with_record};
ghost use Rattle.wf_model.specs.Sizes.{is_record_var, lengths, product, slab_dims, slab_size};
ghost use Rattle.wf_model.specs.Sizes.{padded_size, rounded, record_size};
ghost use Rattle.wf_cdf.specs.Capped.{capped};

use wf_model::{Dim, Header, Var};

/// The bytes of a number of a type: byte, char, short, int, float and double are 1 to 6.
pub(crate) fn type_size(kind: u8) -> u8
    ensures exact { result ≡ type_size kind }
    ensures few { result ≤ 8 }
{
    match kind {
        1 | 2 => 1,
        3 => 2,
        4 | 5 => 4,
        6 => 8,
        _ => 0,
    }
}

/// The length of a dimension, and 1 where there is none of that number.
fn length_of(dims: &[Dim], number: u32) -> u32
    ensures { result ≡ (dim_of dims.now number).len }
{
    match dims.get(number as usize) {
        Some(dim) => dim.len,
        None => 1,
    }
}

/// Whether the first of these dimensions is the record dimension, which has length 0.
pub(crate) fn begins_with_record(dims: &[Dim], numbers: &[u32]) -> bool
    ensures { result ≡ begins_with_record dims.now numbers.now }
{
    match numbers {
        [] => false,
        [first, ..] => length_of(dims, *first) == 0,
    }
}

/// All of these dimensions but the first.
#[tactic(auto, using(wf_cdf::proofs::Sizes::rest_of_drop))]
pub(crate) fn all_but_first(numbers: &[u32]) -> &[u32]
    ensures { result.now ≡ rest_of numbers.now }
{
    if numbers.is_empty() {
        numbers
    } else {
        &numbers[1..]
    }
}

/// Whether these dimensions have these lengths.
pub(crate) fn have_lengths(dims: &[Dim], numbers: &[u32], wanted: &[u32]) -> bool
    ensures { result ≡ bytes_eq (lengths dims.now numbers.now) wanted.now }
{
    if numbers.len() != wanted.len() {
        return false;
    }
    for (i, length) in wanted.iter().enumerate() {
        if length_of(dims, numbers[i]) != *length {
            return false;
        }
    }
    true
}

/// The product of these lengths.
#[tactic(auto, using(wf_cdf::proofs::CappedSums::capped_small, crate::proofs::SlabSizes::capped_product_more))]
pub(crate) fn product(lengths: &[u32]) -> u128
    ensures { result ≡ capped (product lengths.now) }
{
    let mut product = 1u128;
    for length in lengths {
        product = product.saturating_mul(u128::from(*length));
    }
    product
}

/// The product of the lengths of these dimensions.
#[tactic(auto, using(wf_cdf::proofs::CappedSums::capped_small, crate::proofs::SlabSizes::capped_lengths_more))]
fn product_of(dims: &[Dim], numbers: &[u32]) -> u128
    ensures { result ≡ capped (product (lengths dims.now numbers.now)) }
{
    let mut product = 1u128;
    for number in numbers {
        product = product.saturating_mul(u128::from(length_of(dims, *number)));
    }
    product
}

/// The dimensions of a variable but for the record dimension.
fn slab_dims<'a>(dims: &[Dim], var: &'a Var) -> &'a [u32]
    ensures { result.now ≡ slab_dims dims.now var.now }
{
    let numbers = var.dims.as_slice();
    if begins_with_record(dims, numbers) {
        all_but_first(numbers)
    } else {
        numbers
    }
}

/// The bytes of a variable, or of one record of a record variable.
#[tactic(auto, using(wf_cdf::proofs::CappedSums::capped_mul))]
fn slab_size(dims: &[Dim], var: &Var) -> u128
    ensures { result ≡ capped (slab_size dims.now var.now) }
{
    product_of(dims, slab_dims(dims, var)).saturating_mul(u128::from(type_size(var.kind)))
}

/// Up to a multiple of four.
#[tactic(auto, using(wf_cdf::proofs::CappedSums::capped_padding))]
fn rounded(size: u128) -> u128
    ensures { result ≡ capped (rounded size) }
{
    size.saturating_add((4 - size % 4) % 4)
}

/// The same with its padding.
#[tactic(auto, using(wf_cdf::proofs::CappedSums::capped_rounded))]
fn padded_size(dims: &[Dim], var: &Var) -> u128
    ensures { result ≡ capped (padded_size dims.now var.now) }
{
    rounded(slab_size(dims, var))
}

/// What one record needs: how many variables it has, and their bytes with and without padding.
#[derive(Clone, Copy)]
struct RecordSizes {
    vars: usize,
    padded: u128,
    unpadded: u128,
}

#[tactic(auto, using(wf_cdf::proofs::CappedSums::capped_small))]
fn record_sizes(dims: &[Dim], vars: &[Var]) -> RecordSizes
    ensures vars { result.vars ≡ length (filter (is_record_var dims.now) vars.now) }
    ensures padded { result.padded
        ≡ capped (sum_by (padded_size dims.now) (filter (is_record_var dims.now) vars.now)) }
    ensures unpadded { result.unpadded
        ≡ capped (sum_by (slab_size dims.now) (filter (is_record_var dims.now) vars.now)) }
{
    let mut record_vars = 0;
    let mut padded = 0u128;
    let mut unpadded = 0u128;
    for var in vars {
        if begins_with_record(dims, var.dims.as_slice()) {
            record_vars += 1;
            padded = padded.saturating_add(padded_size(dims, var));
            unpadded = unpadded.saturating_add(slab_size(dims, var));
        }
    }
    RecordSizes {
        vars: record_vars,
        padded,
        unpadded,
    }
}

/// The bytes of one record. A lone record variable has no padding: the format leaves it out for a
/// byte, char or short, and the other types' sizes are multiples of four.
#[tactic(auto, using(wf_cdf::proofs::Sizes::capped_record_size))]
pub(crate) fn record_size(header: &Header) -> u128
    ensures { result ≡ capped (record_size header.now) }
{
    let sizes = record_sizes(header.dims.as_slice(), header.vars.as_slice());
    if sizes.vars == 1 {
        sizes.unpadded
    } else {
        sizes.padded
    }
}
