//! The cells that a part of a halo or a period brings from one patch to another.

ghost use Rattle.std.specs.Prelude.{◌≡◌, ◌≤◌, ◌||◌, ◌+ℤ◌, IsTrue, pos, if◌then◌else◌};
ghost use Rattle.wf_model.specs.Patches.{grown_box, in_box, in_span, split_of};
ghost use Rattle.wf_model.specs.Sound.{IsLevel};
ghost use Rattle.wf_boxes.specs.Boxes.{HasNearEnds, IsNear, IsWide, box_of};
ghost use Rattle.wf_halo.specs.Parts.{IsLink, IsPart, IsPlaceOf, around, column_of, is_around};
ghost use Rattle.wf_halo.specs.Parts.{is_fetched, is_inside, is_sent, row_of, shared_box, whole};

use wf_boxes::{Patch, own_box, point_of, reached_box};
use wf_model::{HaloPart, PeriodPart, Run, RunName};
use wf_rect::{Rect, Region, meet};

/// A part of a halo or a period, between a receiver and a sender: its field level, the cells that
/// the receiver reaches, and the own points of both. Beside them how many points the level has in
/// the domain, and in which directions places wrap.
#[derive(Clone, Copy, Debug, PartialEq, Eq)]
pub struct Part {
    pub field: u32,
    pub cells: Region,
    pub to: Rect,
    pub from: Rect,
    pub width: u32,
    pub height: u32,
    pub periodic_x: bool,
    pub periodic_y: bool,
    /// Whether it brings cells outside the domain, as a period, or inside, as a halo.
    pub outside: bool,
    pub cross: bool,
    pub radius: u32,
}

/// A number so many further on.
pub(crate) fn moved(low: i64, by: u32) -> i64
    requires { IsNear low }
    ensures { result ≡ low +ℤ pos by }
{
    low + i64::from(by)
}

/// A receiver and a sender, two patches of a domain by their numbers.
#[derive(Clone, Copy, Debug, PartialEq, Eq)]
pub struct Between {
    pub domain: u32,
    pub to: u32,
    pub from: u32,
}

/// Whether a number lies from `low` up to `high`, without `high`.
fn lies(low: i64, high: i64, at: i64) -> bool
    ensures { result ≡ in_span (record { low = low; high = high }) at }
{
    low <= at && at < high
}

/// Whether a box has a point.
fn has(rect: Rect, j: i64, i: i64) -> bool
    ensures { result ≡ in_box (box_of rect) j i }
{
    lies(rect.j0, rect.j1, j) && lies(rect.i0, rect.i1, i)
}

/// A box with more at both ends, in x and in y.
fn grown(rect: Rect, in_x: u32, in_y: u32) -> Rect
    requires near { HasNearEnds rect }
    requires by { (in_x ≤ 6) × (in_y ≤ 6) }
    ensures { box_of result ≡ grown_box in_x in_y (box_of rect) }
{
    Rect {
        i0: rect.i0 - i64::from(in_x),
        i1: rect.i1 + i64::from(in_x),
        j0: rect.j0 - i64::from(in_y),
        j1: rect.j1 + i64::from(in_y),
    }
}

/// Whether a place is a point of the domain.
fn is_inside(part: &Part, j: i64, i: i64) -> bool
    ensures { result ≡ is_inside part.now j i }
{
    1 <= j && j <= i64::from(part.height) && 1 <= i && i <= i64::from(part.width)
}

/// Whether a cell lies as far around the receiver's own points as a halo goes.
fn is_around(part: &Part, j: i64, i: i64) -> bool
    requires near { HasNearEnds part.now.to }
    requires radius { part.now.radius ≤ 6 }
    ensures { result ≡ is_around part.now j i }
{
    if part.cross {
        has(grown(part.to, 1, 0), j, i) || has(grown(part.to, 0, 1), j, i)
    } else {
        has(grown(part.to, part.radius, part.radius), j, i)
    }
}

/// Whether the part brings a cell.
fn is_fetched(part: &Part, j: i64, i: i64) -> bool
    requires near { HasNearEnds part.now.to }
    requires radius { part.now.radius ≤ 6 }
    ensures { result ≡ is_fetched part.now j i }
{
    let inside = is_inside(part, j, i);
    if part.outside {
        return !inside;
    }
    if !inside || has(part.to, j, i) {
        return false;
    }
    is_around(part, j, i)
}

/// The row, from 1, of the point that a cell stands for.
pub(crate) fn row_of(part: &Part, j: i64) -> u32
    requires some { 1 ≤ part.now.height }
    requires wide { IsWide j }
    requires inside { IsTrue (part.now.periodic_y || in_span (whole part.now.height) j) }
    ensures { result ≡ row_of part.now j }
{
    point_of(part.periodic_y, part.height, j)
}

/// Its column, from 1.
pub(crate) fn column_of(part: &Part, i: i64) -> u32
    requires some { 1 ≤ part.now.width }
    requires wide { IsWide i }
    requires inside { IsTrue (part.now.periodic_x || in_span (whole part.now.width) i) }
    ensures { result ≡ column_of part.now i }
{
    point_of(part.periodic_x, part.width, i)
}

/// Whether the part brings a cell from the sender: it owns the point that the cell stands for.
pub(crate) fn is_sent(part: &Part, j: i64, i: i64) -> bool
    requires near { HasNearEnds part.now.to }
    requires radius { part.now.radius ≤ 6 }
    requires cell { IsPlaceOf part.now j i }
    ensures { result ≡ is_sent part.now j i }
{
    is_fetched(part, j, i)
        && has(
            part.from,
            i64::from(row_of(part, j)),
            i64::from(column_of(part, i)),
        )
}

/// The cells that are walked: those that the receiver reaches, and of a halo the sender's own of
/// them.
fn walked_box(reached: Rect, own: Rect, outside: bool) -> Rect
    requires reached { HasNearEnds reached }
    requires own { HasNearEnds own }
    ensures near { HasNearEnds result }
    ensures value { box_of result ≡ (if outside then box_of reached
        else shared_box (box_of reached) (box_of own)) }
{
    if outside { reached } else { meet(reached, own) }
}

/// The part of a halo, or with `outside` of a period of that width, that a patch fetches from one.
fn part_between(to: &Patch, from: &Patch, around: HaloPart, outside: bool) -> Part
    requires level { IsLevel to.now.plan.now around.field }
    requires small { around.radius ≤ 6 }
    requires plan { from.now.plan.now ≡ to.now.plan.now }
    requires layout { from.now.layout.now ≡ to.now.layout.now }
    requires domain { from.now.domain ≡ to.now.domain }
    ensures { IsPart to.now.plan.now (split_of to.now.layout.now) to.now.domain to.now.number
        from.now.number around outside result }
{
    let domain = to.plan.domain(to.domain);
    let extents = domain.extents(to.plan.field(around.field));
    let reached = reached_box(to, around.field, around.radius, around.radius);
    let own = own_box(from, around.field);
    Part {
        field: around.field,
        cells: Region {
            rect: walked_box(reached, own, outside),
            k0: 1,
            k1: extents.levels + 1,
        },
        to: own_box(to, around.field),
        from: own,
        width: extents.columns,
        height: extents.rows,
        periodic_x: domain.periodic_x,
        periodic_y: domain.periodic_y,
        outside,
        cross: around.cross,
        radius: around.radius,
    }
}

/// The same of two patches by their numbers.
pub(crate) fn part_of<N: RunName>(
    run: &Run<N>,
    between: Between,
    around: HaloPart,
    outside: bool,
) -> Part
    requires { IsLink N.run N.layout between around }
    ensures { IsPart N.run.plan
        (split_of N.layout) between.domain between.to between.from around outside result }
{
    let (plan, layout, domain) = (run.plan, run.layout, between.domain);
    let receiver = Patch {
        plan,
        layout,
        domain,
        number: between.to,
    };
    let sender = Patch {
        plan,
        layout,
        domain,
        number: between.from,
    };
    part_between(&receiver, &sender, around, outside)
}

/// A part of a period, as one of a halo.
pub(crate) fn around(part: PeriodPart) -> HaloPart
    ensures { result ≡ around part }
{
    HaloPart {
        field: part.field,
        cross: false,
        radius: part.width,
    }
}
