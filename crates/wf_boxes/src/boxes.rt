//! Boxes of patches.

ghost use Rattle.std.specs.Prelude.{◌≡◌, ◌+◌, ◌-◌, ◌<◌, ◌≤◌};
ghost use Rattle.wf_model.specs.Patches.{split_of, block, cut_unless, grown, own_box, reached_box};
ghost use Rattle.wf_model.specs.Patches.{memory_box};
ghost use Rattle.wf_model.specs.Sound.{IsLevel};
ghost use Rattle.wf_boxes.specs.Boxes.{IsLaid, IsSmall, IsNear, HasNearEnds, box_of};

use wf_margin::margin;
use wf_model::{Layout, Plan};
use wf_rect::{Rect, block};

/// A patch of a domain: domains count from 1, patches from 0, row by row.
#[derive(Clone, Copy, Drop)]
pub struct Patch<'a> {
    pub plan: &'a Plan,
    pub layout: &'a Layout,
    pub domain: u32,
    pub number: u32,
    pub ghost laid: { IsLaid plan.now layout.now domain number },
}

/// The numbers from `low` up to `high`, without `high`.
#[derive(Clone, Copy, Debug, PartialEq, Eq)]
struct Ends {
    low: i64,
    high: i64,
}

/// Block `p` of `n` over a length, from 1. The last one has the extra points too.
fn block_ends(p: u32, n: u32, length: u32, more: u32) -> Ends
    requires block { p < n }
    requires small { (length ≤ 2000) × (more ≤ 1) }
    ensures low { result.low ≡ (block p n length more).low }
    ensures high { result.high ≡ (block p n length more).high }
    ensures small { IsSmall result.low × IsSmall result.high }
{
    let (first, end) = block(p, n, length);
    let extra = if p + 1 == n { more } else { 0 };
    Ends {
        low: i64::from(first) + 1,
        high: i64::from(end) + 1 + i64::from(extra),
    }
}

/// More at both ends, and cut to the points from 1 in a direction that is not periodic.
fn reached(ends: Ends, by: u32, periodic: bool, points: u32) -> Ends
    requires small { IsSmall ends.low × IsSmall ends.high }
    requires by { by ≤ 12 }
    requires points { points ≤ 2000 }
    ensures near { IsNear result.low × IsNear result.high }
    ensures low { result.low ≡ (cut_unless periodic 1 points
        (grown by (record { low = ends.low; high = ends.high }))).low }
    ensures high { result.high ≡ (cut_unless periodic 1 points
        (grown by (record { low = ends.low; high = ends.high }))).high }
{
    let low = ends.low - i64::from(by);
    let high = ends.high + i64::from(by);
    if periodic {
        Ends { low, high }
    } else {
        Ends {
            low: low.max(1),
            high: high.min(i64::from(points) + 1),
        }
    }
}

/// The own box of a patch as the ends of its blocks: the block in x of its column, and in y of its
/// row.
#[derive(Clone, Copy, Debug, PartialEq, Eq)]
struct Sides {
    x: Ends,
    y: Ends,
}

/// The own blocks of a field level.
#[tactic(auto, unfolding(wf_model::specs::Patches::own_box))]
fn own_sides(patch: &Patch, field: u32) -> Sides
    requires level { IsLevel patch.now.plan.now field }
    ensures x_low { result.x.low ≡ (own_box patch.now.plan.now
        (split_of patch.now.layout.now) patch.now.domain patch.now.number field).x.low }
    ensures x_high { result.x.high ≡ (own_box patch.now.plan.now
        (split_of patch.now.layout.now) patch.now.domain patch.now.number field).x.high }
    ensures y_low { result.y.low ≡ (own_box patch.now.plan.now
        (split_of patch.now.layout.now) patch.now.domain patch.now.number field).y.low }
    ensures y_high { result.y.high ≡ (own_box patch.now.plan.now
        (split_of patch.now.layout.now) patch.now.domain patch.now.number field).y.high }
    ensures small_x { IsSmall result.x.low × IsSmall result.x.high }
    ensures small_y { IsSmall result.y.low × IsSmall result.y.high }
{
    let domain = patch.plan.domain(patch.domain);
    let extents = domain.extents(patch.plan.field(field));
    let (width, height) = (domain.ide - 1, domain.jde - 1);
    let columns = patch.layout.nproc_x;
    Sides {
        x: block_ends(
            patch.number % columns,
            columns,
            width,
            extents.columns - width,
        ),
        y: block_ends(
            patch.number / columns,
            patch.layout.nproc_y,
            height,
            extents.rows - height,
        ),
    }
}

/// The box of these sides.
fn rect_of(x: Ends, y: Ends) -> Rect
    requires near_x { IsNear x.low × IsNear x.high }
    requires near_y { IsNear y.low × IsNear y.high }
    ensures near { HasNearEnds result }
    ensures value { box_of result ≡ record {
      x = record { low = x.low; high = x.high };
      y = record { low = y.low; high = y.high };
    } }
{
    Rect {
        i0: x.low,
        i1: x.high,
        j0: y.low,
        j1: y.high,
    }
}

/// A patch's own points of a field level.
pub fn own_box(patch: &Patch, field: u32) -> Rect
    requires { IsLevel patch.now.plan.now field }
    ensures near { HasNearEnds result }
    ensures value { box_of result ≡ own_box patch.now.plan.now
        (split_of patch.now.layout.now) patch.now.domain patch.now.number field }
{
    let sides = own_sides(patch, field);
    rect_of(sides.x, sides.y)
}

/// The own box with more around it, in x and in y, cut to the domain in a direction that is not
/// periodic.
pub fn reached_box(patch: &Patch, field: u32, in_x: u32, in_y: u32) -> Rect
    requires level { IsLevel patch.now.plan.now field }
    requires by { (in_x ≤ 12) × (in_y ≤ 12) }
    ensures near { HasNearEnds result }
    ensures value { box_of result ≡ reached_box patch.now.plan.now
        (split_of patch.now.layout.now) patch.now.domain patch.now.number field in_x in_y }
{
    let domain = patch.plan.domain(patch.domain);
    let extents = domain.extents(patch.plan.field(field));
    let sides = own_sides(patch, field);
    let x = reached(sides.x, in_x, domain.periodic_x, extents.columns);
    let y = reached(sides.y, in_y, domain.periodic_y, extents.rows);
    rect_of(x, y)
}

/// A patch's cells of a field level: its own box grown by the margin of the plan.
#[tactic(auto, unfolding(wf_model::specs::Patches::memory_box))]
pub fn memory_box(patch: &Patch, field: u32) -> Rect
    requires { IsLevel patch.now.plan.now field }
    ensures near { HasNearEnds result }
    ensures value { box_of result ≡ memory_box patch.now.plan.now
        (split_of patch.now.layout.now) patch.now.domain patch.now.number field }
{
    let margin = margin(patch.plan) as u32;
    reached_box(patch, field, margin, margin)
}
