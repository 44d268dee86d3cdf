//! The points that a patch of one point owns, and whether cells lie near them or in the domain.

ghost use Rattle.std.specs.Prelude.{◌≡◌, ◌+◌, ◌==◌, if◌then◌else◌};
ghost use Rattle.wf_model.specs.Patches.{grown_box, in_box};
ghost use Rattle.wf_check_walk.specs.Directions.{span_of};
ghost use Rattle.wf_check_walk.specs.Place.{in_domain_of, own_box_of, owns};

use crate::cell::Cell;
use crate::directions::{Span, is_in, is_near, is_point};
use crate::fields::{extra_x, extra_y, points_x, points_y};
use crate::patch::Patch;

/// The extra points, where the place is the last one.
fn more_at(at: u32, len: u32, more: u32) -> u32
    ensures { result ≡ (if at + 1 == len then more else 0) }
{
    if u64::from(at) + 1 == u64::from(len) {
        more
    } else {
        0
    }
}

/// The columns of a field that it owns.
#[tactic(auto, using(crate::proofs::OwnPoints::own_x_of))]
pub fn own_x(patch: &Patch, field: u32) -> Span
    ensures { span_of result ≡ (own_box_of patch.now field).x }
{
    let more = more_at(patch.x, patch.domain.ide - 1, extra_x(patch, field));
    Span {
        low: patch.x + 1,
        len: 1 + more,
    }
}

/// The rows of a field that it owns.
#[tactic(auto, using(crate::proofs::OwnPoints::own_y_of))]
pub fn own_y(patch: &Patch, field: u32) -> Span
    ensures { span_of result ≡ (own_box_of patch.now field).y }
{
    let more = more_at(patch.y, patch.domain.jde - 1, extra_y(patch, field));
    Span {
        low: patch.y + 1,
        len: 1 + more,
    }
}

/// Whether it owns the cell of a field.
#[tactic(auto, unfolding(wf_model::specs::Patches::is_own))]
pub fn is_own(patch: &Patch, field: u32, cell: &Cell) -> bool
    ensures { result ≡ owns patch.now field cell.now }
{
    is_in(own_y(patch, field), cell.j) && is_in(own_x(patch, field), cell.i)
}

/// Whether the cell lies among its own points, grown by so much in x and in y.
pub fn is_in_grown(patch: &Patch, field: u32, in_x: u32, in_y: u32, cell: &Cell) -> bool
    ensures { result
        ≡ in_box (grown_box in_x in_y (own_box_of patch.now field)) cell.now.j cell.now.i }
{
    is_near(own_y(patch, field), in_y, cell.j) && is_near(own_x(patch, field), in_x, cell.i)
}

/// Whether the cell is a point of the domain itself.
#[tactic(auto, unfolding(wf_model::specs::Patches::is_in_domain))]
pub fn is_in_domain(patch: &Patch, field: u32, cell: &Cell) -> bool
    ensures { result ≡ in_domain_of patch.now field cell.now }
{
    is_point(points_y(patch, field), cell.j) && is_point(points_x(patch, field), cell.i)
}
