//! What a plan says of a field level by its number; a number past the end has a level of nothing.

ghost use Rattle.std.specs.Prelude.{◌≡◌, ◌≤◌, is_some};
ghost use Rattle.wf_model.specs.Plans.{domain_of, extra, field_of, level_at, nx, ny, nz};

use crate::patch::Patch;
use wf_model::Plan;

/// Whether it has a z letter.
#[tactic(auto, unfolding(wf_model::specs::Plans::field_of, wf_model::specs::Plans::no_field))]
pub fn has_z(plan: &Plan, field: u32) -> bool
    ensures { result ≡ (field_of plan.now field).z }
{
    match plan.fields.as_slice().get(field as usize) {
        Some(level) => level.z,
        None => false,
    }
}

#[tactic(auto, unfolding(wf_model::specs::Plans::field_of, wf_model::specs::Plans::no_field))]
pub fn is_staggered_x(plan: &Plan, field: u32) -> bool
    ensures { result ≡ (field_of plan.now field).stag_x }
{
    match plan.fields.as_slice().get(field as usize) {
        Some(level) => level.stag_x,
        None => false,
    }
}

#[tactic(auto, unfolding(wf_model::specs::Plans::field_of, wf_model::specs::Plans::no_field))]
pub fn is_staggered_y(plan: &Plan, field: u32) -> bool
    ensures { result ≡ (field_of plan.now field).stag_y }
{
    match plan.fields.as_slice().get(field as usize) {
        Some(level) => level.stag_y,
        None => false,
    }
}

/// How many levels in z it has.
#[tactic(auto, unfolding(wf_model::specs::Plans::field_of, wf_model::specs::Plans::no_field))]
pub fn levels_z(plan: &Plan, field: u32) -> u32
    ensures { result ≡ nz plan.now field }
{
    match plan.fields.as_slice().get(field as usize) {
        Some(level) => level.nz,
        None => 0,
    }
}

/// Whether a nest's force sets it.
#[tactic(auto, unfolding(wf_model::specs::Plans::field_of, wf_model::specs::Plans::no_field))]
pub fn is_forced(plan: &Plan, field: u32) -> bool
    ensures { result ≡ is_some (field_of plan.now field).edge }
{
    match plan.fields.as_slice().get(field as usize) {
        Some(level) => level.edge.is_some(),
        None => false,
    }
}

/// Whether a feedback sets it.
#[tactic(auto, unfolding(wf_model::specs::Plans::field_of, wf_model::specs::Plans::no_field))]
pub fn is_fed(plan: &Plan, field: u32) -> bool
    ensures { result ≡ is_some (field_of plan.now field).up }
{
    match plan.fields.as_slice().get(field as usize) {
        Some(level) => level.up.is_some(),
        None => false,
    }
}

/// The level in z that a read at level `k`, `dk` further on, meets: 1 of a field without a z
/// letter.
pub fn level_at(plan: &Plan, field: u32, k: u32, dk: i32) -> u64
    ensures { result ≡ level_at plan.now field k dk }
{
    if has_z(plan, field) {
        (i64::from(k) + i64::from(dk)).unsigned_abs()
    } else {
        1
    }
}

/// How many points it has more than the mass points, from west to east.
pub fn extra_x(patch: &Patch, field: u32) -> u32
    ensures is { result ≡ extra (field_of patch.now.plan.now field).stag_x
        (domain_of patch.now.plan.now patch.now.number).periodic_x }
    ensures few { result ≤ 1 }
{
    if is_staggered_x(patch.plan, field) && !patch.domain.periodic_x {
        1
    } else {
        0
    }
}

/// The same from south to north.
pub fn extra_y(patch: &Patch, field: u32) -> u32
    ensures is { result ≡ extra (field_of patch.now.plan.now field).stag_y
        (domain_of patch.now.plan.now patch.now.number).periodic_y }
    ensures few { result ≤ 1 }
{
    if is_staggered_y(patch.plan, field) && !patch.domain.periodic_y {
        1
    } else {
        0
    }
}

/// How many points it has from west to east.
pub fn points_x(patch: &Patch, field: u32) -> u32
    ensures { result ≡ nx patch.now.plan.now patch.now.number field }
{
    patch.domain.ide - 1 + extra_x(patch, field)
}

/// How many points it has from south to north.
pub fn points_y(patch: &Patch, field: u32) -> u32
    ensures { result ≡ ny patch.now.plan.now patch.now.number field }
{
    patch.domain.jde - 1 + extra_y(patch, field)
}
