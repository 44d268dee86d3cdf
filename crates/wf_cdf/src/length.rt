ghost use Rattle.std.specs.Prelude.{◌≡◌, ◌<◌, ◌^◌, length, ◌==◌, if◌then◌else◌};
ghost use Rattle.wf_model.specs.Bytes.{name_bytes, padded, att_bytes, dim_bytes, var_bytes};
ghost use Rattle.wf_model.specs.Bytes.{list_bytes, header_bytes};
ghost use Rattle.wf_cdf.specs.Capped.{capped};

use crate::padding::padding_of;
use wf_model::{Att, Dim, Header, Var};

// How many bytes the parts of a header have. The lengths of lists are counted by saturating sums,
// so that each is the least of the exact number and the greatest of its type.

/// The bytes of a text and its padding.
fn padded_length(text: &[u8]) -> u128
    ensures exact { result ≡ length (padded text.now) }
    ensures fits { result < 2 ^ 65 }
{
    text.len() as u128 + padding_of(text.len()) as u128
}

fn name_length(name: &[u8]) -> u128
    ensures exact { result ≡ length (name_bytes name.now) }
    ensures fits { result < 2 ^ 66 }
{
    4 + padded_length(name)
}

fn dim_length(dim: &Dim) -> u128
    ensures exact { result ≡ length (dim_bytes dim.now) }
    ensures fits { result < 2 ^ 67 }
{
    name_length(dim.name.as_slice()) + 4
}

#[tactic(auto, using(crate::proofs::CappedSums::capped_small, crate::proofs::Lengths::length_list_bytes, crate::proofs::Lengths::capped_items_more))]
fn dims_length(dims: &[Dim]) -> u128
    ensures { result ≡ capped (length (list_bytes 10 dim_bytes dims.now)) }
{
    let mut total = 8u128;
    for dim in dims {
        total = total.saturating_add(dim_length(dim));
    }
    total
}

fn att_length(att: &Att) -> u128
    ensures exact { result ≡ length (att_bytes att.now) }
    ensures fits { result < 2 ^ 67 }
{
    name_length(att.name.as_slice()) + 8 + padded_length(att.bytes.as_slice())
}

#[tactic(auto, using(crate::proofs::CappedSums::capped_small, crate::proofs::Lengths::length_list_bytes, crate::proofs::Lengths::capped_items_more))]
fn atts_length(atts: &[Att]) -> u128
    ensures { result ≡ capped (length (list_bytes 12 att_bytes atts.now)) }
{
    let mut total = 8u128;
    for att in atts {
        total = total.saturating_add(att_length(att));
    }
    total
}

/// A begin has four bytes in version 1, and eight in version 2.
fn begin_length(version: u8) -> u128
    ensures { result ≡ (if version == 1 then 4 else 8) }
{
    if version == 1 { 4 } else { 8 }
}

#[tactic(auto, using(crate::proofs::CappedSums::capped_add_left, crate::proofs::Lengths::length_var_bytes))]
fn var_length(version: u8, var: &Var) -> u128
    ensures { result ≡ capped (length (var_bytes version var.now)) }
{
    let shape = 4 + 4 * var.dims.as_slice().len() as u128;
    let ends = 8 + begin_length(version);
    (name_length(var.name.as_slice()) + shape + ends).saturating_add(atts_length(
        var.atts.as_slice(),
    ))
}

#[tactic(auto, using(crate::proofs::CappedSums::capped_small, crate::proofs::Lengths::length_list_bytes, crate::proofs::Lengths::capped_items_more_capped))]
fn vars_length(version: u8, vars: &[Var]) -> u128
    ensures { result ≡ capped (length (list_bytes 11 (var_bytes version) vars.now)) }
{
    let mut total = 8u128;
    for var in vars {
        total = total.saturating_add(var_length(version, var));
    }
    total
}

/// The bytes of a header, which depend on no begin and no vsize.
#[tactic(auto, using(crate::proofs::CappedSums::capped_add, crate::proofs::CappedSums::capped_add_right, crate::proofs::Lengths::length_header_bytes))]
pub(crate) fn header_length(header: &Header) -> u128
    ensures { result ≡ capped (length (header_bytes header.now)) }
{
    let dims = dims_length(header.dims.as_slice());
    let atts = atts_length(header.atts.as_slice());
    let vars = vars_length(header.version, header.vars.as_slice());
    dims.saturating_add(atts)
        .saturating_add(vars)
        .saturating_add(8)
}
