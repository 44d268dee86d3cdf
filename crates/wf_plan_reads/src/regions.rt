//! The points at which a phase computes.

ghost use Rattle.std.specs.Prelude.{◌≡◌};
ghost use Rattle.wf_model.specs.PlanTests.{region_span, region_z};
ghost use Rattle.wf_plan_reads.specs.Regions.{has_region_in, span_of, span_x, span_y};

use crate::bounds::{Span, has_points};
use crate::fields::{extent_at, points_x, points_y};
use wf_model::{Domain, Phase, Plan};

/// The points of a direction of so many without the margin at either end, which counts only where
/// it isn't periodic.
fn region_span(periodic: bool, margin: u32, points: u32) -> Span
    ensures { span_of result ≡ region_span periodic margin points }
{
    let margin = if periodic { 0 } else { i64::from(margin) };
    Span {
        low: margin + 1,
        last: i64::from(points) - margin,
    }
}

/// The region from west to east in a domain.
pub(crate) fn span_x(plan: &Plan, domain: &Domain, phase: &Phase) -> Span
    ensures { span_of result ≡ span_x plan.now domain.now phase.now }
{
    region_span(
        domain.periodic_x,
        phase.mx,
        points_x(plan, domain, phase.writes),
    )
}

/// The region from south to north in a domain.
pub(crate) fn span_y(plan: &Plan, domain: &Domain, phase: &Phase) -> Span
    ensures { span_of result ≡ span_y plan.now domain.now phase.now }
{
    region_span(
        domain.periodic_y,
        phase.my,
        points_y(plan, domain, phase.writes),
    )
}

/// The levels that the phase names, or all of the level that it writes.
pub(crate) fn region_z(extents: &[i64], phase: &Phase) -> Span
    ensures { span_of result ≡ region_z extents.now phase.now }
{
    if phase.from == 0 {
        Span {
            low: 1,
            last: extent_at(extents, phase.writes),
        }
    } else {
        Span {
            low: i64::from(phase.from),
            last: i64::from(phase.to),
        }
    }
}

/// Whether the phase has points in a domain.
pub(crate) fn has_region(plan: &Plan, domain: &Domain, extents: &[i64], phase: &Phase) -> bool
    ensures { result ≡ has_region_in plan.now domain.now extents.now phase.now }
{
    has_points(span_x(plan, domain, phase))
        && has_points(span_y(plan, domain, phase))
        && has_points(region_z(extents, phase))
}
