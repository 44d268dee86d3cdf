//! What the walk back from a read does at an item.

ghost use Rattle.std.specs.Prelude.{◌≡◌, ◌==◌, ◌&&◌, true, if◌then◌else◌};
ghost use Rattle.std.specs.List.{list_any};
ghost use Rattle.wf_model.specs.Covered.{ends, goes_on};
ghost use Rattle.wf_check_walk.specs.Place.{computed_by, in_region_of};
ghost use Rattle.wf_check_walk.specs.Walks.{meets_at, met_of, set_by_halo, set_by_period};

use crate::cell::Cell;
use crate::patch::Patch;
use crate::regions::{computes, region_holds};
use crate::shapes::{halo_holds, period_holds};
use wf_model::{HaloPart, Item, PeriodPart, Phase};

/// It goes on with a level, or ends in yes or no.
#[derive(Clone, Copy)]
pub enum Met {
    GoesOn(u32),
    Ends(bool),
}

/// Whether one of the parts sets the cell of the level.
fn sets_by_halo(patch: &Patch, cell: &Cell, parts: &[HaloPart], level: u32) -> bool
    ensures { result ≡ list_any (set_by_halo patch.now cell.now level) parts.now }
{
    for part in parts {
        if part.field == level && halo_holds(patch, part, cell) {
            return true;
        }
    }
    false
}

/// Whether one of the parts sets the cell of the level.
fn sets_by_period(patch: &Patch, cell: &Cell, parts: &[PeriodPart], level: u32) -> bool
    ensures { result ≡ list_any (set_by_period patch.now cell.now level) parts.now }
{
    for part in parts {
        if part.field == level && period_holds(patch, part, cell) {
            return true;
        }
    }
    false
}

/// At an exchange of cells: yes, where it set the cell.
fn at_exchange(is_set: bool, level: u32) -> Met
    ensures { met_of result ≡ (if is_set then ends true else goes_on level) }
{
    if is_set {
        Met::Ends(true)
    } else {
        Met::GoesOn(level)
    }
}

/// At a phase that wrote the cell: whether this patch computed it.
fn at_phase(patch: &Patch, cell: &Cell, phase: &Phase, level: u32) -> Met
    ensures { met_of result
        ≡ (if (level == phase.now.writes) && in_region_of patch.now phase.now cell.now
        then ends (computed_by patch.now phase.now cell.now) else goes_on level) }
{
    if level == phase.writes && region_holds(patch, phase, cell) {
        Met::Ends(computes(patch, phase, cell))
    } else {
        Met::GoesOn(level)
    }
}

/// The other level, where one of the two is followed.
fn at_swap(one: u32, two: u32, level: u32) -> Met
    ensures { met_of result
        ≡ goes_on (if level == one then two else (if level == two then one else level)) }
{
    if level == one {
        Met::GoesOn(two)
    } else if level == two {
        Met::GoesOn(one)
    } else {
        Met::GoesOn(level)
    }
}

/// At an item of the table.
pub fn at_item(patch: &Patch, cell: &Cell, item: &Item, level: u32) -> Met
    ensures { met_of result ≡ meets_at patch.now cell.now item.now level }
{
    match item {
        Item::Halo(parts) => {
            let is_set = sets_by_halo(patch, cell, parts.as_slice(), level);
            at_exchange(is_set, level)
        }
        Item::Period(parts) => {
            let is_set = sets_by_period(patch, cell, parts.as_slice(), level);
            at_exchange(is_set, level)
        }
        Item::Swap(one, two) => at_swap(*one, *two, level),
        Item::Phase(phase) => at_phase(patch, cell, phase, level),
    }
}
