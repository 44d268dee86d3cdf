//! Levels in file shape, and the slabs of a frame.

ghost use Rattle.std.specs.Prelude.{◌≡◌, ◌+◌, ◌-◌, ◌*◌, ◌^◌, ◌<◌, ◌≤◌, ◌++◌, IfOk, OnOk, Some, map};
ghost use Rattle.std.specs.Prelude.{length};
ghost use Rattle.std.specs.List.{slice_get};
ghost use Rattle.wf_model.specs.Frames.{frames_of};
ghost use Rattle.wf_model.specs.Plans.{nx, ny, nz};
ghost use Rattle.wf_model.specs.Sound.{IsLevel};
ghost use Rattle.wf_model.specs.Streams.{one_if, file_list, file_x, file_y};
ghost use Rattle.wf_grid.specs.FileShape.{file_row, file_plane};
ghost use Rattle.wf_grid.specs.Filled.{AreExtents};
ghost use Rattle.wf_grid.specs.Levels.{AreLists, IsPlaceIn, grids_of};
ghost use Rattle.wf_grid.specs.Reached.{IsSteppable, IsReached};
ghost use Rattle.wf_stream.specs.Writing.{label, labels};

use crate::extents::{Here, domain, level, wrapped_place};
use crate::sizes::level_size;
use crate::surroundings::number_in;
use std::alloc::{AllocError, Global};
use wf_cdf::stream_levels;
use wf_model::extents::file_points;
use wf_model::{Extents, Frame, List, Plan, Run, RunName, Slab};

/// A level of a domain with its extents, and the numbers of all levels of the domain.
#[derive(Clone, Copy, Drop)]
struct Numbers<'a> {
    plan: &'a Plan,
    number: u32,
    field: u32,
    extents: Extents,
    levels: &'a [List<i32>],
    ghost lists: { AreLists plan.now number levels.now },
    ghost is: { IsLevel plan.now field },
    ghost sized: { AreExtents plan.now number field extents },
}

/// The number of a point of the level.
fn number_of(at: &Numbers, here: Here) -> i32
    requires { IsPlaceIn (nz at.now.plan.now at.now.field) (ny at.now.plan.now at.now.number
        at.now.field) (nx at.now.plan.now at.now.number at.now.field) here.k here.j here.i }
    ensures { result ≡ grids_of at.now.plan.now at.now.number at.now.levels.now at.now.number
        at.now.field here.k here.j here.i }
{
    number_in(at.levels, at.field, at.extents, here)
}

/// Adds a row of a level in file shape: in a periodic direction the extra point of a staggered
/// field is its first.
fn push_row(at: &Numbers, k: u32, j: u32, values: &mut Vec<i32>) -> Result<(), AllocError>
    requires in_z { (1 ≤ k) × (k ≤ nz at.now.plan.now at.now.field) }
    requires in_y { (1 ≤ j) × (j ≤ ny at.now.plan.now at.now.number at.now.field) }
    ensures { OnOk result (values.new.items ≡ values.old.items
        ++ file_row at.now.plan.now at.now.number at.now.field at.now.levels.now k j) }
{
    let domain = domain(at.plan, at.number);
    let level = level(at.plan, at.field);
    let columns = at.extents.columns;
    for x in 0..file_points(domain.ide, level.stag_x) {
        let i = wrapped_place(domain.periodic_x, columns, x + 1, 0);
        let here = Here { k, j, i };
        values.push(number_of(at, here))?;
    }
    Ok(())
}

/// Adds the rows of a level in z: in a periodic direction the extra row of a staggered field is
/// its first.
fn push_plane(at: &Numbers, k: u32, values: &mut Vec<i32>) -> Result<(), AllocError>
    requires { (1 ≤ k) × (k ≤ nz at.now.plan.now at.now.field) }
    ensures { OnOk result (values.new.items ≡ values.old.items
        ++ file_plane at.now.plan.now at.now.number at.now.field at.now.levels.now k) }
{
    let domain = domain(at.plan, at.number);
    let level = level(at.plan, at.field);
    let rows = at.extents.rows;
    for y in 0..file_points(domain.jde, level.stag_y) {
        push_row(
            at,
            k,
            wrapped_place(domain.periodic_y, rows, y + 1, 0),
            values,
        )?;
    }
    Ok(())
}

/// How many numbers a level has in file shape: the room that is reserved for them.
fn file_room(at: &Numbers) -> usize
    ensures most { result ≤ nz at.now.plan.now at.now.field * file_y at.now.plan.now at.now.number
        at.now.field * file_x at.now.plan.now at.now.number at.now.field }
    ensures all { nz at.now.plan.now at.now.field * file_y at.now.plan.now at.now.number
        at.now.field * file_x at.now.plan.now at.now.number at.now.field < 2 ^ 64 → result
        ≡ nz at.now.plan.now at.now.field * file_y at.now.plan.now at.now.number at.now.field
        * file_x at.now.plan.now at.now.number at.now.field }
{
    let domain = domain(at.plan, at.number);
    let level = level(at.plan, at.field);
    let columns = file_points(domain.ide, level.stag_x) as usize;
    let rows = file_points(domain.jde, level.stag_y) as usize;
    (level.nz as usize)
        .saturating_mul(rows)
        .saturating_mul(columns)
}

/// The numbers of a level in file shape, in order k, j, i.
fn file_numbers(alloc: Global, at: &Numbers) -> Result<Vec<i32>, AllocError>
    ensures { IfOk result (λ v. v.items ≡ file_list at.now.plan.now at.now.number at.now.field
        (grids_of at.now.plan.now at.now.number at.now.levels.now)) }
{
    let mut values = Vec::with_capacity(alloc, file_room(at))?;
    for k in 0..level(at.plan, at.field).nz {
        push_plane(at, k + 1, &mut values)?;
    }
    Ok(values)
}

/// The slab of a level in a frame that the run has reached.
fn slab_of<N: RunName>(
    alloc: Global,
    run: &Run<'_, N>,
    frame: &Frame,
    levels: &[List<i32>],
    field: u32,
) -> Result<Slab<N>, AllocError>
    requires steppable { IsSteppable N.run }
    requires frame { slice_get (frames_of N.run) frame.now.number ≡ Some frame.now }
    requires reached { IsReached N.run frame.now.place levels.now }
    requires level { IsLevel N.run.plan field }
    ensures { IfOk result (λ s. label s ≡ (frame.now.number, field)) }
{
    let plan = run.plan();
    let at = Numbers {
        plan,
        number: 1,
        field,
        extents: level_size(plan, 1, field).extents,
        levels,
    };
    let values = file_numbers(alloc, &at)?;
    Ok(Slab::new(frame.number, field, values))
}

/// The slabs of a frame that the run has reached: of each level of its stream, in order.
pub fn slabs_of<N: RunName>(
    alloc: Global,
    run: &Run<'_, N>,
    frame: &Frame,
    levels: &[List<i32>],
) -> Result<Vec<Slab<N>>, AllocError>
    requires steppable { IsSteppable N.run }
    requires frame { slice_get (frames_of N.run) frame.now.number ≡ Some frame.now }
    requires reached { IsReached N.run frame.now.place levels.now }
    ensures { IfOk result (λ v. map label v.items ≡ labels N.run frame.now) }
{
    let fields = stream_levels(alloc, run.plan(), frame.stream)?;
    let mut slabs = Vec::new(alloc);
    for field in &fields {
        slabs.push(slab_of(alloc, run, frame, levels, *field as u32)?)?;
    }
    Ok(slabs)
}
