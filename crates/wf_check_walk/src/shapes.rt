//! Which cells a part of a halo or of a period sets.

ghost use Rattle.std.specs.Prelude.{◌≡◌};
ghost use Rattle.wf_check_walk.specs.Place.{halo_sets, in_halo_of, in_reach_of, period_sets};

use crate::cell::Cell;
use crate::directions::is_reached;
use crate::fields::{points_x, points_y};
use crate::own::{is_in_domain, is_in_grown, is_own, own_x, own_y};
use crate::patch::Patch;
use wf_model::{HaloPart, PeriodPart};

/// Whether the cell lies in the halo's shape: a square, or a cross of radius 1.
#[tactic(auto, unfolding(wf_model::specs::Shapes::in_halo_box))]
fn in_halo_box(patch: &Patch, part: &HaloPart, cell: &Cell) -> bool
    ensures { result ≡ in_halo_of patch.now part.now cell.now }
{
    if part.cross {
        is_in_grown(patch, part.field, 1, 0, cell) || is_in_grown(patch, part.field, 0, 1, cell)
    } else {
        is_in_grown(patch, part.field, part.radius, part.radius, cell)
    }
}

/// Whether a part of a halo sets the cell.
#[tactic(auto, unfolding(wf_model::specs::Shapes::halo_holds))]
pub fn halo_holds(patch: &Patch, part: &HaloPart, cell: &Cell) -> bool
    ensures { result ≡ halo_sets patch.now part.now cell.now }
{
    is_in_domain(patch, part.field, cell)
        && in_halo_box(patch, part, cell)
        && !is_own(patch, part.field, cell)
}

/// Whether the cell lies near its own points, cut to the domain in a direction that is not
/// periodic.
fn is_in_reach(patch: &Patch, part: &PeriodPart, cell: &Cell) -> bool
    ensures { result ≡ in_reach_of patch.now part.now cell.now }
{
    let field = part.field;
    is_reached(
        patch.domain.periodic_y,
        points_y(patch, field),
        own_y(patch, field),
        part.width,
        cell.j,
    ) && is_reached(
        patch.domain.periodic_x,
        points_x(patch, field),
        own_x(patch, field),
        part.width,
        cell.i,
    )
}

/// Whether a part of a period sets the cell.
#[tactic(auto, unfolding(wf_model::specs::Shapes::period_holds))]
pub fn period_holds(patch: &Patch, part: &PeriodPart, cell: &Cell) -> bool
    ensures { result ≡ period_sets patch.now part.now cell.now }
{
    is_in_reach(patch, part, cell) && !is_in_domain(patch, part.field, cell)
}
