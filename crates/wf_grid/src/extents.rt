//! The extents of field levels, and the places of points in their lists.

ghost use Rattle.std.specs.Prelude.{◌≡◌, ℕ, ◌+◌, ◌-◌, ◌*◌, ◌^◌, ◌<◌, ◌≤◌, ◌||◌, IsTrue, pos, ◌+ℤ◌};
ghost use Rattle.wf_model.specs.Plans.{domain_of, field_of, wrapped};
ghost use Rattle.wf_model.specs.Sound.{IsDomain, IsLevel};
ghost use Rattle.wf_model.specs.Patches.{in_span};
ghost use Rattle.wf_grid.specs.Levels.{IsPlaceIn, place_in};

use wf_model::{Domain, Extents, Field, Plan};

/// A point of a level, by its numbers from 1.
#[derive(Clone, Copy, Debug, PartialEq, Eq)]
pub struct Here {
    pub k: u32,
    pub j: u32,
    pub i: u32,
}

/// The domain of a number, from 1.
pub fn domain(plan: &Plan, number: u32) -> &Domain
    requires { IsDomain plan.now number }
    ensures { result.now ≡ domain_of plan.now number }
{
    &plan.domains.as_slice()[number as usize - 1]
}

/// The field level of a number, from 0.
pub fn level(plan: &Plan, field: u32) -> &Field
    requires { IsLevel plan.now field }
    ensures { result.now ≡ field_of plan.now field }
{
    &plan.fields.as_slice()[field as usize]
}

/// The place of a point in the list of its level, from 0: k, then j, then i, with i fastest.
pub fn place(extents: Extents, here: Here, count: usize) -> usize
    requires inside { IsPlaceIn extents.levels extents.rows extents.columns here.k here.j here.i }
    requires size { count ≡ extents.levels * (extents.rows * extents.columns) }
    ensures value { result ≡ place_in extents.rows extents.columns here.k here.j here.i }
    ensures bound { result < count }
{
    let row = (here.k as usize - 1) * extents.rows as usize + (here.j as usize - 1);
    row * extents.columns as usize + (here.i as usize - 1)
}

/// The number of the point at a place: in a periodic direction places wrap.
pub fn wrapped_place(periodic: bool, count: u32, from: u32, by: i32) -> u32
    requires some { 1 ≤ count }
    requires inside { IsTrue
        (periodic || in_span (record { low = pos 1; high = pos (count + 1) }) (pos from +ℤ by)) }
    ensures value { result ≡ wrapped periodic count (pos from +ℤ by) }
    ensures low { 1 ≤ result }
    ensures high { result ≤ count }
{
    let place = i64::from(from) + i64::from(by);
    let count = i64::from(count);
    if !periodic || (1 <= place && place <= count) {
        place as u32
    } else {
        (place - 1).rem_euclid(count) as u32 + 1
    }
}
