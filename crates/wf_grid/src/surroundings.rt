//! What the expression of a phase sees at a point of whole domains.

ghost use Rattle.std.specs.Prelude.{◌≡◌, ◌*◌, ◌^◌, ◌<◌, ◌≤◌, IsTrue, length, pos, ◌+ℤ◌, ◌≤ℤ◌};
ghost use Rattle.std.specs.Prelude.{unsigned_abs, if◌then◌else◌, slice_index_or};
ghost use Rattle.wf_model.specs.Plans.{domain_of, nx, ny, nz, level_at, point_x, point_y};
ghost use Rattle.wf_model.specs.Sound.{IsLevel};
ghost use Rattle.wf_model.specs.Changes.{sight_at};
ghost use Rattle.wf_model.specs.Grids.{grid_from};
ghost use Rattle.wf_model.specs.Outcome.{no_list};
ghost use Rattle.wf_grid.specs.Levels.{AreLists, IsPlaceIn, grids_of};
ghost use Rattle.wf_grid.specs.Reading.{IsReadable};
ghost use Rattle.wf_grid.specs.Sized.{IsSize, AreSizes};

use crate::extents::{Here, place, wrapped_place};
use crate::sizes::{LevelSize, Sizes};
use wf_eval::Reader;
use wf_model::{Extents, List, Plan};

/// The numbers of all levels of a domain before a phase, the sizes of the levels, and the step.
#[derive(Clone, Copy, Drop)]
pub struct OldNumbers<'a> {
    pub plan: &'a Plan,
    pub number: u32,
    pub sizes: Sizes,
    pub levels: &'a [List<i32>],
    pub step: u64,
    pub ghost lists: { AreLists plan.now number levels.now },
    pub ghost sizes_are: { AreSizes plan.now number sizes },
}

/// A point of a domain, and the numbers of the domain before a phase.
#[derive(Clone, Copy, Drop)]
pub struct Surroundings<'a> {
    pub old: &'a OldNumbers<'a>,
    pub here: Here,
}

/// The level so many levels further on.
fn raised(k: u32, by: i32) -> u32
    requires above { pos 1 ≤ℤ (pos k +ℤ by) }
    requires small { unsigned_abs (pos k +ℤ by) < 2 ^ 32 }
    ensures { result ≡ unsigned_abs (pos k +ℤ by) }
{
    (i64::from(k) + i64::from(by)) as u32
}

/// The level that a read meets: a field without a z letter has one level.
fn level_met(size: LevelSize, k: u32, dk: i32) -> u32
    requires above { IsTrue size.z → pos 1 ≤ℤ (pos k +ℤ dk) }
    requires high { IsTrue size.z → unsigned_abs (pos k +ℤ dk) ≤ size.extents.levels }
    ensures { result ≡ (if size.z then unsigned_abs (pos k +ℤ dk) else 1) }
{
    if size.z { raised(k, dk) } else { 1 }
}

/// The size of a field level.
fn size_at(at: &Surroundings, field: u32) -> LevelSize
    requires { IsLevel at.now.old.now.plan.now field }
    ensures { IsSize at.now.old.now.plan.now at.now.old.now.number field result }
{
    at.old.sizes.levels[field as usize]
}

/// The point that a read meets: places wrap in a periodic direction, and which directions are
/// periodic is told.
fn met(
    at: &Surroundings,
    periodic_x: bool,
    periodic_y: bool,
    field: u32,
    di: i32,
    dk: i32,
    dj: i32,
) -> Here
    requires readable { IsReadable at.now.old.now.plan.now at.now.old.now.number at.now.here.k
        at.now.here.j at.now.here.i (record { field = field; di = di; dk = dk; dj = dj }) }
    requires x { periodic_x ≡ (domain_of at.now.old.now.plan.now at.now.old.now.number).periodic_x }
    requires y { periodic_y ≡ (domain_of at.now.old.now.plan.now at.now.old.now.number).periodic_y }
    ensures k { result.k ≡ level_at at.now.old.now.plan.now field at.now.here.k dk }
    ensures j { result.j
        ≡ point_y at.now.old.now.plan.now at.now.old.now.number field (pos at.now.here.j +ℤ dj) }
    ensures i { result.i
        ≡ point_x at.now.old.now.plan.now at.now.old.now.number field (pos at.now.here.i +ℤ di) }
    ensures inside { IsPlaceIn (nz at.now.old.now.plan.now field)
        (ny at.now.old.now.plan.now at.now.old.now.number field)
        (nx at.now.old.now.plan.now at.now.old.now.number field) result.k result.j result.i }
{
    let size = size_at(at, field);
    let i = wrapped_place(periodic_x, size.extents.columns, at.here.i, di);
    let j = wrapped_place(periodic_y, size.extents.rows, at.here.j, dj);
    let k = level_met(size, at.here.k, dk);
    Here { k, j, i }
}

/// The number of a point of a level that has these extents.
pub fn number_in(levels: &[List<i32>], field: u32, extents: Extents, here: Here) -> i32
    requires level { field < length levels.now }
    requires inside { IsPlaceIn extents.levels extents.rows extents.columns here.k here.j here.i }
    requires size { length (slice_index_or levels.now field no_list)
        ≡ extents.levels * (extents.rows * extents.columns) }
    ensures { result ≡ grid_from extents.rows extents.columns
        (slice_index_or levels.now field no_list) here.k here.j here.i }
{
    let list = levels[field as usize].as_slice();
    list[place(extents, here, list.len())]
}

/// The number of a point of the domain.
pub fn number_here(at: &Surroundings, field: u32, here: Here) -> i32
    requires level { IsLevel at.now.old.now.plan.now field }
    requires inside { IsPlaceIn (nz at.now.old.now.plan.now field)
        (ny at.now.old.now.plan.now at.now.old.now.number field)
        (nx at.now.old.now.plan.now at.now.old.now.number field) here.k here.j here.i }
    ensures { result ≡ grids_of at.now.old.now.plan.now at.now.old.now.number
        at.now.old.now.levels.now at.now.old.now.number field here.k here.j here.i }
{
    number_in(at.old.levels, field, size_at(at, field).extents, here)
}

/// The number that a read meets in a domain that is periodic in a direction.
#[cold]
#[inline(never)]
fn number_wrapped(at: &Surroundings, field: u32, di: i32, dk: i32, dj: i32) -> i32
    requires { IsReadable at.now.old.now.plan.now at.now.old.now.number at.now.here.k at.now.here.j
        at.now.here.i (record { field = field; di = di; dk = dk; dj = dj }) }
    ensures { result ≡ (sight_at at.now.old.now.plan.now (grids_of at.now.old.now.plan.now
        at.now.old.now.number at.now.old.now.levels.now) at.now.old.now.number at.now.old.now.step
        at.now.here.k at.now.here.j at.now.here.i).read field di dk dj }
{
    let (x, y) = (at.old.sizes.periodic_x, at.old.sizes.periodic_y);
    number_here(at, field, met(at, x, y, field, di, dk, dj))
}

impl Reader for Surroundings<'_> {
    ghost sight = { λ s. sight_at s.old.now.plan.now (grids_of s.old.now.plan.now s.old.now.number
        s.old.now.levels.now) s.old.now.number s.old.now.step s.here.k s.here.j s.here.i };

    ghost CanRead = { λ s r. IsReadable s.old.now.plan.now s.old.now.number s.here.k
        s.here.j s.here.i r };

    fn i(&self) -> u32 {
        self.here.i
    }

    fn j(&self) -> u32 {
        self.here.j
    }

    fn k(&self) -> u32 {
        self.here.k
    }

    fn step(&self) -> u64 {
        self.old.step
    }

    fn read(&self, field: u32, di: i32, dk: i32, dj: i32) -> i32 {
        if self.old.sizes.wraps {
            number_wrapped(self, field, di, dk, dj)
        } else {
            number_here(self, field, met(self, false, false, field, di, dk, dj))
        }
    }
}
