ghost use Rattle.std.specs.Prelude.{◌≡◌, ◌+◌, ◌-◌, ◌^◌, ◌<◌, ◌↔◌, All, length, min, filter, sum_by};
ghost use Rattle.std.specs.Prelude.{not, OnOk, OnErr, IfOk, IfErr, IsErr};
ghost use Rattle.wf_model.specs.Bytes.{header_bytes};
ghost use Rattle.wf_model.specs.Sizes.{is_record_var, padded_size, fixed_size, record_vars};
ghost use Rattle.wf_model.specs.Sizes.{file_size, most_bytes};
ghost use Rattle.wf_model.specs.Headers.{vsize_of, placed_var, placed_from, placed};
ghost use Rattle.wf_model.specs.SoundHeader.{IsSoundVar, IsSoundHeader, BeginsFit};

use crate::size::{begins_with_record, file_size, file_sizes, padded_size};
use crate::too_long::TooLong;
use wf_model::{Dim, Header, Var};

/// The most bytes that a file may have: offsets are 32-bit numbers in version 1, and this project's
/// limit is 2 to the 40 bytes in version 2.
fn most_bytes(version: u8) -> u128
    ensures { result ≡ most_bytes version }
{
    if version == 1 {
        2_147_483_644
    } else {
        1_099_511_627_776
    }
}

/// How a size is told in 32 bits: above 4,294,967,292 by the greatest number.
fn vsize_of(size: u64) -> u32
    ensures { result ≡ vsize_of size }
{
    if size > 4_294_967_292 {
        u32::MAX
    } else {
        size as u32
    }
}

/// Sets a variable's vsize and begin.
fn place_var(var: &mut Var, size: u64, begin: u64)
    ensures { var.new ≡ record var.old { vsize = vsize_of size; begin = begin } }
{
    var.vsize = vsize_of(size);
    var.begin = begin;
}

/// The padded size of a variable that has fewer than 2 to the 64 bytes.
#[tactic(auto, using(crate::proofs::CappedSums::capped_small))]
fn small_size(dims: &[Dim], var: &Var) -> u64
    requires sound { IsSoundVar dims.now var.now }
    requires small { padded_size dims.now var.now < 2 ^ 64 }
    ensures { result ≡ padded_size dims.now var.now }
{
    padded_size(dims, var) as u64
}

/// Places fixed variables from `fixed` on, and record variables from `moving` on, each of the two
/// in order.
fn place_each(dims: &[Dim], vars: &mut [Var], mut fixed: u64, mut moving: u64)
    requires each { All (IsSoundVar dims.now) vars.old }
    requires fixed { fixed + sum_by (padded_size dims.now)
        (filter (λ v. not (is_record_var dims.now v)) vars.old) < 2 ^ 63 }
    requires moving { moving
        + sum_by (padded_size dims.now) (filter (is_record_var dims.now) vars.old) < 2 ^ 63 }
    ensures { vars.new ≡ placed_from dims.now fixed moving vars.old }
{
    for var in vars.iter_mut() {
        let size = small_size(dims, var);
        if begins_with_record(dims, var.dims.as_slice()) {
            place_var(var, size, moving);
            moving += size;
        } else {
            place_var(var, size, fixed);
            fixed += size;
        }
    }
}

/// Places the variables of a header whose data end below 2 to the 63.
fn place_all(header: &mut Header, fixed: u64, moving: u64)
    requires sound { IsSoundHeader header.old }
    requires fixed { fixed ≡ length (header_bytes header.old) }
    requires moving { moving ≡ fixed + fixed_size header.old }
    requires end { moving + sum_by (padded_size header.old.dims) (record_vars header.old) < 2 ^ 63 }
    ensures { header.new ≡ placed header.old }
{
    place_each(
        header.dims.as_slice(),
        header.vars.as_mut_slice(),
        fixed,
        moving,
    );
}

/// Sets vsize and begin of each variable of a header, and gives the header's length in bytes: data
/// begins there.
///
/// Fixed variables stand first and then record variables, each of the two in order, and each padded
/// to a multiple of four; vsize is the padded size, or 4,294,967,295 where it is above
/// 4,294,967,292 (netCDF classic format). The file with `records` records, counted as at least one,
/// may have 2,147,483,644 bytes in version 1 and 2 to the 40 in version 2 (this project's limits);
/// the header is unchanged where it would have more.
pub fn place_vars(header: &mut Header, records: u32) -> Result<u64, TooLong>
    requires { IsSoundHeader header.old }
    ensures placed { OnOk result (header.new ≡ placed header.old) }
    ensures length { IfOk result (λ n. n ≡ length (header_bytes header.old)) }
    ensures same_length { OnOk result
        (length (header_bytes header.new) ≡ length (header_bytes header.old)) }
    ensures sound { OnOk result (IsSoundHeader header.new) }
    ensures begins { OnOk result (BeginsFit header.new) }
    ensures too_long { IsErr result
        ↔ (most_bytes header.old.version < file_size header.old records) }
    ensures bytes { IfErr result (λ e. e.bytes ≡ min (file_size header.old records) (2 ^ 128 - 1)) }
    ensures unchanged { OnErr result (header.new ≡ header.old) }
{
    let sizes = file_sizes(header);
    let bytes = file_size(header, &sizes, records);
    if bytes > most_bytes(header.version) {
        return Err(TooLong { bytes });
    }
    let fixed = sizes.header as u64;
    place_all(header, fixed, fixed + sizes.fixed as u64);
    Ok(fixed)
}
