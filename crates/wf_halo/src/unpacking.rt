//! What a patch takes: the cells of a part that the sender's message brings, in order k, j, i, each
//! set to the next number.

ghost use Rattle.std.specs.Prelude.{◌≡◌, ◌≤◌, [], ◌∷◌, drop, length, take};
ghost use Rattle.wf_rect.specs.Tiles.{rows_of};
ghost use Rattle.wf_field.specs.Kept.{IsSamePatch};
ghost use Rattle.wf_field.specs.Regions.{columns_of, plane_cells, region_cells};
ghost use Rattle.wf_field.specs.Rows.{row_cells};
ghost use Rattle.wf_field.specs.Settings.{cell_at};
ghost use Rattle.wf_model.specs.Sound.{IsLevel};
ghost use Rattle.wf_halo.specs.Walks.{IsColumnOf, IsLevelOf, IsRowOf, IsWalked, KeepsCells};
ghost use Rattle.wf_halo.specs.Walks.{SetsBy, sent};

use crate::parts::{Part, is_sent, moved};
use wf_boxes::count;
use wf_field::Memory;
use wf_model::RunName;

/// The numbers behind the first so many.
pub(crate) fn behind(values: &[i32], from: usize) -> &[i32]
    requires { from ≤ length values.now }
    ensures { result.now ≡ drop from values.now }
{
    &values[from..]
}

/// The first number.
fn first(values: &[i32]) -> &[i32]
    requires { 1 ≤ length values.now }
    ensures { result.now ≡ take 1 values.now }
{
    &values[..1]
}

/// Sets a cell to the first number, if the part brings it, and tells how many numbers it took.
fn unpack_cell<N: RunName>(
    memory: &mut Memory<N>,
    part: &Part,
    k: u32,
    j: i64,
    i: i64,
    values: &[i32],
) -> usize
    requires walked { IsWalked part.now }
    requires field { IsLevel N.run.plan part.now.field }
    requires level { IsLevelOf part.now k }
    requires row { IsRowOf part.now j }
    requires column { IsColumnOf part.now i }
    requires kept { KeepsCells N.run.plan N.layout memory.old part.now }
    requires long { length (sent part.now (cell_at part.now.field k j i ∷ [])) ≤ length values.now }
    ensures used { result ≡ length (sent part.now (cell_at part.now.field k j i ∷ [])) }
    ensures same { IsSamePatch memory.old memory.new }
    ensures set { SetsBy N.run.plan N.layout values.now
        (sent part.now (cell_at part.now.field k j i ∷ [])) memory.old memory.new }
{
    if !is_sent(part, j, i) {
        return 0;
    }
    memory.set_row(part.field, k, j, i, first(values));
    1
}

/// Sets a row of cells so.
fn unpack_row<N: RunName>(
    memory: &mut Memory<N>,
    part: &Part,
    k: u32,
    j: i64,
    values: &[i32],
) -> usize
    requires walked { IsWalked part.now }
    requires field { IsLevel N.run.plan part.now.field }
    requires level { IsLevelOf part.now k }
    requires row { IsRowOf part.now j }
    requires kept { KeepsCells N.run.plan N.layout memory.old part.now }
    requires long { length (sent part.now (row_cells part.now.field k j part.now.cells.rect.i0
        (columns_of part.now.cells.rect))) ≤ length values.now }
    ensures used { result ≡ length (sent part.now
        (row_cells part.now.field k j part.now.cells.rect.i0 (columns_of part.now.cells.rect))) }
    ensures same { IsSamePatch memory.old memory.new }
    ensures set { SetsBy N.run.plan N.layout values.now (sent part.now (row_cells part.now.field k j
        part.now.cells.rect.i0 (columns_of part.now.cells.rect))) memory.old memory.new }
{
    let rect = part.cells.rect;
    let mut used = 0;
    for x in 0..count(rect.i0, rect.i1) {
        let i = moved(rect.i0, x);
        used += unpack_cell(memory, part, k, j, i, behind(values, used));
    }
    used
}

/// Sets all cells at one k so.
fn unpack_plane<N: RunName>(memory: &mut Memory<N>, part: &Part, k: u32, values: &[i32]) -> usize
    requires walked { IsWalked part.now }
    requires field { IsLevel N.run.plan part.now.field }
    requires level { IsLevelOf part.now k }
    requires kept { KeepsCells N.run.plan N.layout memory.old part.now }
    requires long { length (sent part.now (plane_cells part.now.field k part.now.cells.rect
        (rows_of part.now.cells.rect))) ≤ length values.now }
    ensures used { result ≡ length (sent part.now
        (plane_cells part.now.field k part.now.cells.rect (rows_of part.now.cells.rect))) }
    ensures same { IsSamePatch memory.old memory.new }
    ensures set { SetsBy N.run.plan N.layout values.now (sent part.now (plane_cells part.now.field k
        part.now.cells.rect (rows_of part.now.cells.rect))) memory.old memory.new }
{
    let rect = part.cells.rect;
    let mut used = 0;
    for y in 0..count(rect.j0, rect.j1) {
        let j = moved(rect.j0, y);
        used += unpack_row(memory, part, k, j, behind(values, used));
    }
    used
}

/// Sets all cells of a part so.
pub(crate) fn unpack_part<N: RunName>(memory: &mut Memory<N>, part: &Part, values: &[i32]) -> usize
    requires walked { IsWalked part.now }
    requires field { IsLevel N.run.plan part.now.field }
    requires kept { KeepsCells N.run.plan N.layout memory.old part.now }
    requires long { length (sent part.now (region_cells part.now.field part.now.cells))
        ≤ length values.now }
    ensures used { result ≡ length (sent part.now (region_cells part.now.field part.now.cells)) }
    ensures same { IsSamePatch memory.old memory.new }
    ensures set { SetsBy N.run.plan N.layout values.now
        (sent part.now (region_cells part.now.field part.now.cells)) memory.old memory.new }
{
    let mut used = 0;
    for a in 0..part.cells.k1.saturating_sub(part.cells.k0) {
        let k = part.cells.k0 + a;
        used += unpack_plane(memory, part, k, behind(values, used));
    }
    used
}
