//! One direction: the numbers that a patch of one point owns, places of the domain, and the points
//! of a region.

ghost use Rattle.std.specs.Prelude.{◌≡◌, ◌||◌, ◌&&◌, ◌≤◌, ◌+◌, pos};
ghost use Rattle.wf_model.specs.Patches.{in_span, grown, cut_unless};
ghost use Rattle.wf_model.specs.Plans.{is_inside, wrapped};
ghost use Rattle.wf_check_walk.specs.Directions.{span_of, whole};

/// So many numbers from `low` on.
#[derive(Clone, Copy)]
pub struct Span {
    pub low: u32,
    pub len: u32,
}

/// Whether a number lies in the span with `by` more at both ends.
pub fn is_near(span: Span, by: u32, c: i64) -> bool
    ensures { result ≡ in_span (grown by (span_of span)) c }
{
    i64::from(span.low) - i64::from(by) <= c
        && c < i64::from(span.low) + i64::from(span.len) + i64::from(by)
}

/// Whether a number lies in the span.
pub fn is_in(span: Span, c: i64) -> bool
    ensures { result ≡ in_span (span_of span) c }
{
    i64::from(span.low) <= c && c < i64::from(span.low) + i64::from(span.len)
}

/// Whether a number is one from 1 to `points`.
pub fn is_point(points: u32, c: i64) -> bool
    ensures { result ≡ in_span (whole points) c }
{
    1 <= c && c <= i64::from(points)
}

/// Whether a place stands for a point that is at least the margin from both ends. In a periodic
/// direction each does.
pub fn is_inside(periodic: bool, margin: u32, points: u32, c: i64) -> bool
    requires { 1 ≤ points }
    ensures { result ≡ ((periodic || in_span (whole points) c)
        && is_inside periodic margin points (wrapped periodic points c)) }
{
    periodic || (i64::from(margin) + 1 <= c && c <= i64::from(points) - i64::from(margin))
}

/// Whether a number lies in the span with `by` more at both ends, cut to the numbers from 1 to
/// `points` where the direction is not periodic.
pub fn is_reached(periodic: bool, points: u32, span: Span, by: u32, c: i64) -> bool
    ensures { result ≡ in_span (cut_unless periodic 1 points (grown by (span_of span))) c }
{
    is_near(span, by, c) && (periodic || is_point(points, c))
}
