//! The cells of the memories of all patches.

ghost use Rattle.std.specs.Prelude.{◌≡◌, ◌+◌, ◌-◌, ◌*◌, ◌^◌, ◌<◌, ◌≤◌, ◌==◌, length, pos, ◌+ℤ◌};
ghost use Rattle.std.specs.Prelude.{◌-ℤ◌, if◌then◌else◌};
ghost use Rattle.std.specs.Int.{int_max, int_min};
ghost use Rattle.wf_model.specs.Patches.{size_of};
ghost use Rattle.wf_model.specs.Reads.{margin_of};
ghost use Rattle.wf_model.specs.Counts.{memory_cells};
ghost use Rattle.wf_layout.specs.Cells.{domain_cells, level_cells, patch_cells, side};

use wf_margin::margin;
use wf_model::extents::points;
use wf_model::{Domain, Field, Plan};
use wf_rect::block;

/// How domains are cut: how far a memory goes beyond its patch, and the patches in x and in y.
#[derive(Clone, Copy)]
pub(crate) struct Cut {
    pub margin: u32,
    pub nproc_x: u32,
    pub nproc_y: u32,
}

/// The last block has the extra points too.
fn extra_of_block(p: u32, n: u32, more: u32) -> u32
    requires { p < n }
    ensures value { result ≡ (if p + 1 == n then more else 0) }
    ensures most { result ≤ more }
{
    if p + 1 == n { more } else { 0 }
}

/// Where the memory begins: so far before the block's first point, and not below 1 where the
/// direction isn't periodic.
fn low_end(periodic: bool, first: u32, margin: u32) -> i64
    ensures { result ≡ (if periodic then pos (first + 1) -ℤ pos margin
        else int_max (pos 1) (pos (first + 1) -ℤ pos margin)) }
{
    let low = i64::from(first) + 1 - i64::from(margin);
    if periodic { low } else { low.max(1) }
}

/// Where it ends, without that number.
fn high_end(periodic: bool, points: u64, last: u64, margin: u32) -> i64
    requires points { points ≤ 2 ^ 33 }
    requires last { last ≤ 2 ^ 33 }
    ensures { result ≡ (if periodic then pos last +ℤ pos margin
        else int_min (pos points +ℤ pos 1) (pos last +ℤ pos margin)) }
{
    let high = last as i64 + i64::from(margin);
    if periodic {
        high
    } else {
        high.min(points as i64 + 1)
    }
}

/// How many numbers there are from `low` up to `high`.
fn size(low: i64, high: i64) -> u64
    ensures { result ≡ size_of (record { low = low; high = high }) }
{
    if low < high {
        (i128::from(high) - i128::from(low)) as u64
    } else {
        0
    }
}

/// The cells in a direction of the memory of block `p` of `n`, where `end` is the direction's
/// e_we or e_sn.
fn side(periodic: bool, staggered: bool, margin: u32, p: u32, n: u32, end: u32) -> u64
    requires { p < n }
    ensures value { result ≡ side periodic staggered margin p n end }
    ensures few { result ≤ 2 ^ 34 }
{
    let own = end.saturating_sub(1);
    let all = points(end, staggered, periodic);
    let (first, last) = block(p, n, own);
    let last = u64::from(last) + 1 + u64::from(extra_of_block(p, n, all - own));
    let low = low_end(periodic, first, margin);
    let high = high_end(periodic, u64::from(all), last, margin);
    size(low, high)
}

/// The cells of a level in the memory of a patch of a domain.
fn level_cells(domain: &Domain, cut: Cut, patch: u32, field: &Field) -> u128
    requires { patch < cut.nproc_x * cut.nproc_y }
    ensures value { result ≡ level_cells domain.now cut patch field.now }
    ensures few { result ≤ 2 ^ 100 }
{
    let row = patch / cut.nproc_x;
    let column = patch % cut.nproc_x;
    let height = side(
        domain.periodic_y,
        field.stag_y,
        cut.margin,
        row,
        cut.nproc_y,
        domain.jde,
    );
    let width = side(
        domain.periodic_x,
        field.stag_x,
        cut.margin,
        column,
        cut.nproc_x,
        domain.ide,
    );
    u128::from(field.nz) * (u128::from(height) * u128::from(width))
}

/// The cells of the memory of a patch of a domain.
fn patch_cells(fields: &[Field], domain: &Domain, cut: Cut, patch: u32) -> u128
    requires patch { patch < cut.nproc_x * cut.nproc_y }
    requires levels { length fields.now ≤ 64 }
    ensures value { result ≡ patch_cells fields.now domain.now cut patch }
    ensures few { result ≤ 2 ^ 106 }
{
    let mut total = 0u128;
    for field in fields {
        total += level_cells(domain, cut, patch, field);
    }
    total
}

/// The cells of all patches of a domain.
fn domain_cells(fields: &[Field], cut: Cut, domain: &Domain) -> u128
    requires patches { cut.nproc_x * cut.nproc_y ≤ 256 }
    requires levels { length fields.now ≤ 64 }
    ensures value { result ≡ domain_cells fields.now cut domain.now }
    ensures few { result ≤ 2 ^ 114 }
{
    let mut total = 0u128;
    for patch in 0..cut.nproc_x * cut.nproc_y {
        total += patch_cells(fields, domain, cut, patch);
    }
    total
}

/// The cells of the memories of all patches of all domains.
pub(crate) fn memory_cells(plan: &Plan, nproc_x: u32, nproc_y: u32) -> u128
    requires patches { nproc_x * nproc_y ≤ 256 }
    requires domains { length plan.now.domains ≤ 8 }
    requires levels { length plan.now.fields ≤ 64 }
    requires margin { margin_of plan.now ≤ 12 }
    ensures { result ≡ memory_cells plan.now (record { in_x = nproc_x; in_y = nproc_y }) }
{
    let cut = Cut {
        margin: margin(plan) as u32,
        nproc_x,
        nproc_y,
    };
    let mut total = 0u128;
    for domain in plan.domains.as_slice() {
        total += domain_cells(plan.fields.as_slice(), cut, domain);
    }
    total
}
