//! The cells that a phase writes, and those that a patch computes.

ghost use Rattle.std.specs.Prelude.{◌≡◌, ◌||◌, ◌&&◌};
ghost use Rattle.wf_model.specs.Changes.{is_phase_level};
ghost use Rattle.wf_model.specs.Patches.{in_span};
ghost use Rattle.wf_model.specs.Plans.{domain_of, is_inside, nx, ny, point_x, point_y};
ghost use Rattle.wf_check_walk.specs.Directions.{whole};
ghost use Rattle.wf_check_walk.specs.Place.{computed_by, in_region_of};

use crate::cell::Cell;
use crate::directions::is_inside;
use crate::fields::{levels_z, points_x, points_y};
use crate::own::is_in_grown;
use crate::patch::Patch;
use wf_model::{Phase, Plan};

/// Whether a level is one of the phase's: of all, where none are named.
pub fn is_phase_level(plan: &Plan, phase: &Phase, k: u64) -> bool
    ensures { result ≡ is_phase_level plan.now phase.now k }
{
    if phase.from == 0 {
        1 <= k && k <= u64::from(levels_z(plan, phase.writes))
    } else {
        u64::from(phase.from) <= k && k <= u64::from(phase.to)
    }
}

/// Whether a column is a place of the domain, and its point one of the region's.
pub fn is_inside_x(patch: &Patch, phase: &Phase, cell: &Cell) -> bool
    ensures { result ≡ (((domain_of patch.now.plan.now patch.now.number).periodic_x
        || in_span (whole (nx patch.now.plan.now patch.now.number phase.now.writes)) cell.now.i)
        && is_inside (domain_of patch.now.plan.now patch.now.number).periodic_x phase.now.mx
        (nx patch.now.plan.now patch.now.number phase.now.writes)
        (point_x patch.now.plan.now patch.now.number phase.now.writes cell.now.i)) }
{
    is_inside(
        patch.domain.periodic_x,
        phase.mx,
        points_x(patch, phase.writes),
        cell.i,
    )
}

/// The same of a row.
pub fn is_inside_y(patch: &Patch, phase: &Phase, cell: &Cell) -> bool
    ensures { result ≡ (((domain_of patch.now.plan.now patch.now.number).periodic_y
        || in_span (whole (ny patch.now.plan.now patch.now.number phase.now.writes)) cell.now.j)
        && is_inside (domain_of patch.now.plan.now patch.now.number).periodic_y phase.now.my
        (ny patch.now.plan.now patch.now.number phase.now.writes)
        (point_y patch.now.plan.now patch.now.number phase.now.writes cell.now.j)) }
{
    is_inside(
        patch.domain.periodic_y,
        phase.my,
        points_y(patch, phase.writes),
        cell.j,
    )
}

fn are_all(level: bool, row: bool, column: bool) -> bool
    ensures { result ≡ ((level && row) && column) }
{
    level && row && column
}

/// Whether the cell stands for a point of the phase's region.
pub fn region_holds(patch: &Patch, phase: &Phase, cell: &Cell) -> bool
    ensures { result ≡ in_region_of patch.now phase.now cell.now }
{
    let level = is_phase_level(patch.plan, phase, cell.k);
    let row = is_inside_y(patch, phase, cell);
    let column = is_inside_x(patch, phase, cell);
    are_all(level, row, column)
}

/// Whether the patch computes the cell: one near its own points, and of the region.
#[tactic(auto, unfolding(wf_model::specs::Patches::computes))]
pub fn computes(patch: &Patch, phase: &Phase, cell: &Cell) -> bool
    ensures { result ≡ computed_by patch.now phase.now cell.now }
{
    is_in_grown(patch, phase.writes, phase.extend, phase.extend, cell)
        && region_holds(patch, phase, cell)
}
