//! What a plan says of a field level by its number; a number past the end has a level of nothing.

ghost use Rattle.std.specs.Prelude.{◌≡◌};
ghost use Rattle.wf_model.specs.Plans.{field_of};
ghost use Rattle.wf_model.specs.PlanTests.{extent_at};
ghost use Rattle.wf_plan_reads.specs.Regions.{points_x, points_y};

use wf_model::extents::points;
use wf_model::{Domain, Plan};

/// Whether it has a z letter.
#[tactic(auto, unfolding(wf_model::specs::Plans::field_of, wf_model::specs::Plans::no_field))]
pub(crate) fn has_z(plan: &Plan, field: u32) -> bool
    ensures { result ≡ (field_of plan.now field).z }
{
    match plan.fields.as_slice().get(field as usize) {
        Some(level) => level.z,
        None => false,
    }
}

#[tactic(auto, unfolding(wf_model::specs::Plans::field_of, wf_model::specs::Plans::no_field))]
fn is_staggered_x(plan: &Plan, field: u32) -> bool
    ensures { result ≡ (field_of plan.now field).stag_x }
{
    match plan.fields.as_slice().get(field as usize) {
        Some(level) => level.stag_x,
        None => false,
    }
}

#[tactic(auto, unfolding(wf_model::specs::Plans::field_of, wf_model::specs::Plans::no_field))]
fn is_staggered_y(plan: &Plan, field: u32) -> bool
    ensures { result ≡ (field_of plan.now field).stag_y }
{
    match plan.fields.as_slice().get(field as usize) {
        Some(level) => level.stag_y,
        None => false,
    }
}

/// Its name.
#[tactic(auto, unfolding(wf_model::specs::Plans::field_of, wf_model::specs::Plans::no_field))]
pub(crate) fn name_of(plan: &Plan, field: u32) -> &[u8]
    ensures { result.now ≡ (field_of plan.now field).name }
{
    match plan.fields.as_slice().get(field as usize) {
        Some(level) => level.name.as_slice(),
        None => b"".as_slice(),
    }
}

/// Its extent in z, with its sign.
pub(crate) fn extent_at(extents: &[i64], field: u32) -> i64
    ensures { result ≡ extent_at extents.now field }
{
    match extents.get(field as usize) {
        Some(extent) => *extent,
        None => 0,
    }
}

/// How many points it has from west to east in a domain.
pub(crate) fn points_x(plan: &Plan, domain: &Domain, field: u32) -> u32
    ensures { result ≡ points_x plan.now domain.now field }
{
    points(domain.ide, is_staggered_x(plan, field), domain.periodic_x)
}

/// How many points it has from south to north in a domain.
pub(crate) fn points_y(plan: &Plan, domain: &Domain, field: u32) -> u32
    ensures { result ≡ points_y plan.now domain.now field }
{
    points(domain.jde, is_staggered_y(plan, field), domain.periodic_y)
}
