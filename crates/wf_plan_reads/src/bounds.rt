//! What a read must keep within.

ghost use Rattle.std.specs.Prelude.{◌≡◌, ◌+ℤ◌, int_lt, pos};
ghost use Rattle.wf_model.specs.PlanTests.{has_points, leaves, read_leaves};
ghost use Rattle.wf_plan_reads.specs.Regions.{is_outside, span_of};

use crate::fields::{extent_at, has_z, points_x, points_y};
use wf_model::{Domain, Plan};

/// The numbers from `low` to `last`, both of them too; none where the last is below the low.
#[derive(Clone, Copy)]
pub(crate) struct Span {
    pub low: i64,
    pub last: i64,
}

/// What the points of a phase's region, moved as a read says, must keep within.
#[derive(Clone, Copy)]
pub(crate) enum Bounds<'a> {
    /// The levels of the field, from a region of these levels.
    Levels {
        plan: &'a Plan,
        extents: &'a [i64],
        span: Span,
    },
    /// The points of the field in the domain, where it isn't periodic, from a region of
    /// these points.
    Edges {
        plan: &'a Plan,
        domain: &'a Domain,
        x: Span,
        y: Span,
    },
}

pub(crate) fn has_points(span: Span) -> bool
    ensures { result ≡ has_points (span_of span) }
{
    span.low <= span.last
}

fn moved(number: i64, by: i32) -> i128
    ensures { result ≡ number +ℤ by }
{
    i128::from(number) + i128::from(by)
}

/// Whether a number, moved by so much, is below 1.
fn is_low(number: i64, by: i32) -> bool
    ensures { result ≡ int_lt (number +ℤ by) (pos 1) }
{
    moved(number, by) < 1
}

/// Whether a number, moved by so much, is above another.
fn is_high(number: i64, by: i32, most: i64) -> bool
    ensures { result ≡ int_lt most (number +ℤ by) }
{
    i128::from(most) < moved(number, by)
}

#[tactic(auto, using(crate::proofs::Shifted::one_more))]
/// Whether the span, moved by so much, leaves the numbers from 1 to `most`.
fn leaves(span: Span, by: i32, most: i64) -> bool
    ensures { result ≡ leaves (span_of span) by most }
{
    is_low(span.low, by) || is_high(span.last, by, most)
}

/// The same of a direction with so many points, which isn't left where it is periodic.
fn read_leaves(periodic: bool, span: Span, by: i32, points: u32) -> bool
    ensures { result ≡ read_leaves periodic (span_of span) by points }
{
    !periodic && leaves(span, by, i64::from(points))
}

/// Whether a read leaves the bounds.
pub(crate) fn is_outside(bounds: &Bounds, field: u32, di: i32, dk: i32, dj: i32) -> bool
    ensures { result ≡ is_outside bounds.now (record { field = field; di = di; dk = dk; dj = dj }) }
{
    match bounds {
        Bounds::Levels {
            plan,
            extents,
            span,
        } => has_z(plan, field) && leaves(*span, dk, extent_at(extents, field)),
        Bounds::Edges { plan, domain, x, y } => {
            read_leaves(domain.periodic_x, *x, di, points_x(plan, domain, field))
                || read_leaves(domain.periodic_y, *y, dj, points_y(plan, domain, field))
        }
    }
}
