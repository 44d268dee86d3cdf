//! The sizes of all field levels of a domain, which are made once a phase.

ghost use Rattle.std.specs.Prelude.{◌≡◌, ℕ, ◌≤◌, length, slice_index_or};
ghost use Rattle.wf_model.specs.Sound.{IsDomain, IsLevel};
ghost use Rattle.wf_grid.specs.Sized.{IsSize, AreSizes, no_size};

use crate::extents::{domain, level};
use wf_model::{Extents, Plan};

/// The extents of a field level, and whether it has a z letter.
#[derive(Clone, Copy, Debug, PartialEq, Eq)]
pub struct LevelSize {
    pub extents: Extents,
    pub z: bool,
}

/// In which directions a domain is periodic, and the size of each of its field levels.
#[derive(Clone, Copy, Debug, PartialEq, Eq)]
pub struct Sizes {
    pub periodic_x: bool,
    pub periodic_y: bool,
    /// Whether a direction is periodic.
    pub wraps: bool,
    pub levels: [LevelSize; 64],
}

/// The size of a field level in a domain.
pub fn level_size(plan: &Plan, number: u32, field: u32) -> LevelSize
    requires domain { IsDomain plan.now number }
    requires level { IsLevel plan.now field }
    ensures { IsSize plan.now number field result }
{
    let level = level(plan, field);
    LevelSize {
        extents: domain(plan, number).extents(level),
        z: level.z,
    }
}

/// The size that stands where there is no level.
fn no_size() -> LevelSize
    ensures { result ≡ no_size }
{
    LevelSize {
        extents: Extents {
            columns: 0,
            rows: 0,
            levels: 0,
        },
        z: false,
    }
}

/// The sizes of all levels, by their numbers from 0.
fn level_sizes(plan: &Plan, number: u32) -> [LevelSize; 64]
    requires domain { IsDomain plan.now number }
    requires few { length plan.now.fields ≤ 64 }
    ensures { (f : ℕ) → IsLevel plan.now f
        → IsSize plan.now number f (slice_index_or result f no_size) }
{
    let mut sizes = [no_size(); 64];
    for field in 0..plan.fields.as_slice().len() as u32 {
        sizes[field as usize] = level_size(plan, number, field);
    }
    sizes
}

/// The sizes of all field levels of a domain: a plan has at most 64.
pub fn all_sizes(plan: &Plan, number: u32) -> Sizes
    requires domain { IsDomain plan.now number }
    requires few { length plan.now.fields ≤ 64 }
    ensures { AreSizes plan.now number result }
{
    let domain = domain(plan, number);
    Sizes {
        periodic_x: domain.periodic_x,
        periodic_y: domain.periodic_y,
        wraps: domain.periodic_x || domain.periodic_y,
        levels: level_sizes(plan, number),
    }
}
