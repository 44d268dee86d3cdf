//! A layout against its limits.

ghost use Rattle.std.specs.Prelude.{◌≡◌, ◌*◌, ◌≤◌, IfOk};
ghost use Rattle.wf_model.specs.Counts.{all_events as events_of};
ghost use Rattle.wf_model.specs.Patches.{split_of};
ghost use Rattle.wf_model.specs.PlanOf.{layout_faults, layout_of};
ghost use Rattle.wf_model.specs.Ranges.{Within};
ghost use Rattle.wf_model.specs.Reading.{first_fault};
ghost use Rattle.wf_model.specs.Sound.{IsRangedPlan, IsSoundPlan};
ghost use Rattle.wf_config_laws.specs.Layouts.{HasGoodLayout};
ghost use Rattle.wf_config_laws.specs.RangedValues.{HasRangedValues};
ghost use Rattle.wf_layout.specs.Faults.{cells_limit, events_limit, size_faults, tiles_limit};

use crate::asked::layout_from;
use crate::cells::memory_cells;
use crate::patches::all_patches_fault;
use wf_counts::all_events;
use wf_model::limits::{EVENTS, MEMORY_CELLS, TILES};
use wf_model::{Config, Layout, LayoutFault, Plan};

/// More than 64 tiles.
pub(crate) fn tiles_fault(layout: &Layout) -> Option<LayoutFault>
    ensures { result ≡ tiles_limit layout.now }
{
    if TILES < layout.tiles {
        Some(LayoutFault::TooManyTiles {
            value: u64::from(layout.tiles),
        })
    } else {
        None
    }
}

/// More than 150,000,000 cells of all memories.
fn cells_fault(plan: &Plan, layout: &Layout) -> Option<LayoutFault>
    requires ranged { IsRangedPlan plan.now }
    requires patches { layout.now.nproc_x * layout.now.nproc_y ≤ 256 }
    ensures { result ≡ cells_limit plan.now layout.now }
{
    let value = memory_cells(plan, layout.nproc_x, layout.nproc_y);
    if u128::from(MEMORY_CELLS) < value {
        Some(LayoutFault::TooManyCells { value })
    } else {
        None
    }
}

/// The events of a full run.
fn event_count(plan: &Plan, layout: &Layout) -> u128
    requires sound { IsSoundPlan plan.now }
    requires ranged { IsRangedPlan plan.now }
    requires patches { layout.now.nproc_x * layout.now.nproc_y ≤ 256 }
    ensures { result ≡ events_of plan.now (split_of layout.now) }
{
    all_events(plan, layout.nproc_x, layout.nproc_y)
}

/// More than 20,000,000 events of a full run.
fn events_fault(plan: &Plan, layout: &Layout) -> Option<LayoutFault>
    requires sound { IsSoundPlan plan.now }
    requires ranged { IsRangedPlan plan.now }
    requires patches { layout.now.nproc_x * layout.now.nproc_y ≤ 256 }
    ensures { result ≡ events_limit plan.now layout.now }
{
    let value = event_count(plan, layout);
    if u128::from(EVENTS) < value {
        Some(LayoutFault::TooManyEvents { value })
    } else {
        None
    }
}

/// The first of tiles, cells and events that passes its limit.
fn size_fault(plan: &Plan, layout: &Layout) -> Option<LayoutFault>
    requires sound { IsSoundPlan plan.now }
    requires ranged { IsRangedPlan plan.now }
    requires patches { layout.now.nproc_x * layout.now.nproc_y ≤ 256 }
    ensures { result ≡ first_fault (size_faults plan.now layout.now) }
{
    let fault = tiles_fault(layout);
    if fault.is_some() {
        return fault;
    }
    let fault = cells_fault(plan, layout);
    if fault.is_some() {
        return fault;
    }
    events_fault(plan, layout)
}

/// The first limit that a layout passes.
fn layout_fault(plan: &Plan, layout: &Layout) -> Option<LayoutFault>
    requires sound { IsSoundPlan plan.now }
    requires ranged { IsRangedPlan plan.now }
    ensures { result ≡ first_fault (layout_faults plan.now layout.now) }
{
    let fault = all_patches_fault(plan, layout);
    if fault.is_some() {
        return fault;
    }
    size_fault(plan, layout)
}

/// The layout that a config asks for on so many workers, 1 to 64, or the first of its limits that
/// it passes, with its number.
///
/// The tests, in this order:
///
/// - for each domain, numbered from 1: more patches in x than the domain has points there, which
///   is one fewer than e_we; more in y than points there; more than 256 in all;
/// - more than 64 tiles of a patch;
/// - more than 150,000,000 cells of the memories of all patches of all domains: of each field level
///   a patch's own points, and as many more on each side as the plan's items reach, which end where
///   a direction ends that isn't periodic;
/// - more than 20,000,000 events of a full run in which no domain resumes and nothing overflows:
///   of each patch its halves of items, of each piece a gathering, and of each frame a writing.
///
/// -1 for nproc_x or nproc_y means 1, as WRF leaves it open; a group has one server at least. The
/// names are WRF's, the limits this project's own. A layout that is given fits the plan and has
/// its numbers in their ranges. The plan is one that `plan` gives, and the config one that `bind`
/// gives.
pub fn layout(config: &Config, plan: &Plan, workers: u32) -> Result<Layout, LayoutFault>
    requires values { HasRangedValues config.now }
    requires sound { IsSoundPlan plan.now }
    requires ranged { IsRangedPlan plan.now }
    requires workers { Within 1 64 workers }
    ensures layout { result ≡ layout_of config.now plan.now workers }
    ensures good { IfOk result (λ l. HasGoodLayout plan.now l) }
{
    let layout = layout_from(config, workers);
    match layout_fault(plan, &layout) {
        Some(fault) => Err(fault),
        None => Ok(layout),
    }
}
