//! The boxes and the lists that a patch's memory is made of.

ghost use Rattle.std.specs.Prelude.{◌≡◌, ℕ, ◌^◌, ◌<◌, ◌≤◌, IfOk, length, replicate, slice_index_or};
ghost use Rattle.std.specs.Prelude.{pos, ◌-◌, ◌==◌, ◌||◌};
ghost use Rattle.wf_model.specs.Outcome.{no_lists};
ghost use Rattle.wf_model.specs.Patches.{split_of};
ghost use Rattle.wf_model.specs.Plans.{begin_of};
ghost use Rattle.wf_boxes.specs.Places.{IsNarrow, cells_of};
ghost use Rattle.wf_field.specs.Kept.{AreLevelBoxes, AreZeros, box_at};

use std::alloc::{AllocError, Global};
use wf_boxes::{LevelBox, Patch, level_box};
use wf_model::{Initial, List};

/// The memory boxes of all levels of a patch.
pub(crate) fn level_boxes(alloc: Global, patch: &Patch) -> Result<Vec<LevelBox>, AllocError>
    requires { length patch.now.plan.now.fields < 2 ^ 32 }
    ensures { IfOk result (λ s. AreLevelBoxes patch.now.plan.now
        (split_of patch.now.layout.now) patch.now.domain patch.now.number s.items) }
{
    let mut boxes = Vec::new(alloc);
    for field in 0..patch.plan.fields.as_slice().len() as u32 {
        boxes.push(level_box(patch, field))?;
    }
    Ok(boxes)
}

/// As many zeros as a memory box has cells.
fn zeros(alloc: Global, bounds: &LevelBox) -> Result<List<i32>, AllocError>
    requires { IsNarrow bounds.now }
    ensures { IfOk result (λ l. l ≡ replicate (cells_of bounds.now) (pos 0)) }
{
    let count = bounds.levels as usize * bounds.rows as usize * bounds.columns as usize;
    Ok(List::from_vec(vec![in alloc; 0; count]?))
}

/// A list of zeros for each memory box.
pub(crate) fn zero_levels(alloc: Global, boxes: &[LevelBox]) -> Result<Vec<List<i32>>, AllocError>
    requires { (f : ℕ) → f < length boxes.now → IsNarrow (box_at boxes.now f) }
    ensures { IfOk result (λ v. AreZeros boxes.now (length boxes.now) v.items) }
{
    let mut levels = Vec::new(alloc);
    for bounds in boxes {
        let level = zeros(alloc, bounds)?;
        levels.push(level)?;
    }
    Ok(levels)
}

/// Whether a domain begins with numbers of its own: domain 1, and one that goes on from a restart
/// file. All others begin with 0.
pub(crate) fn has_numbers(initial: &Initial, domain: u32) -> bool
    requires { (1 ≤ domain) × (domain ≤ length initial.now.begins) }
    ensures { result ≡ ((domain == 1) || (begin_of initial.now.begins domain).resumed) }
{
    domain == 1 || initial.begins.as_slice()[domain as usize - 1].resumed
}

/// The numbers of a domain's levels.
pub(crate) fn lists_of(initial: &Initial, domain: u32) -> &[List<i32>]
    requires { (1 ≤ domain) × (domain ≤ length initial.now.grids) }
    ensures { result.now ≡ slice_index_or initial.now.grids (domain - 1) no_lists }
{
    initial.grids.as_slice()[domain as usize - 1].as_slice()
}
