//! What a patch sends: the numbers of the points that the cells of a part stand for, in order k, j,
//! i of the cells.

ghost use Rattle.std.specs.Prelude.{◌≡◌, ◌+◌, ◌++◌, [], ◌∷◌, OnOk};
ghost use Rattle.wf_field.specs.Kept.{number_in};
ghost use Rattle.wf_field.specs.Regions.{columns_of, plane_cells, region_cells};
ghost use Rattle.wf_field.specs.Rows.{row_cells};
ghost use Rattle.wf_field.specs.Settings.{cell_at};
ghost use Rattle.wf_rect.specs.Tiles.{rows_of};
ghost use Rattle.wf_halo.specs.Walks.{IsColumnOf, IsLevelOf, IsRowOf, IsWalked, KeepsPoints};
ghost use Rattle.wf_halo.specs.Walks.{sent_numbers};

use crate::parts::{Part, column_of, is_sent, moved, row_of};
use std::alloc::AllocError;
use wf_boxes::count;
use wf_field::Memory;
use wf_model::RunName;

/// Adds the number of a cell, if the part brings it.
fn pack_cell<N: RunName>(
    values: &mut Vec<i32>,
    memory: &Memory<N>,
    part: &Part,
    k: u32,
    j: i64,
    i: i64,
) -> Result<(), AllocError>
    requires walked { IsWalked part.now }
    requires level { IsLevelOf part.now k }
    requires row { IsRowOf part.now j }
    requires column { IsColumnOf part.now i }
    requires kept { KeepsPoints N.run.plan N.layout memory.now part.now }
    ensures { OnOk result (values.new.items ≡ values.old.items ++ sent_numbers part.now
        (number_in N.run.plan N.layout memory.now) (cell_at part.now.field k j i ∷ [])) }
{
    if is_sent(part, j, i) {
        let y = i64::from(row_of(part, j));
        let x = i64::from(column_of(part, i));
        let value = memory.get(part.field, k, y, x);
        values.push(value)?;
    }
    Ok(())
}

/// Adds those of a row of cells.
fn pack_row<N: RunName>(
    values: &mut Vec<i32>,
    memory: &Memory<N>,
    part: &Part,
    k: u32,
    j: i64,
) -> Result<(), AllocError>
    requires walked { IsWalked part.now }
    requires level { IsLevelOf part.now k }
    requires row { IsRowOf part.now j }
    requires kept { KeepsPoints N.run.plan N.layout memory.now part.now }
    ensures { OnOk result (values.new.items
        ≡ values.old.items ++ sent_numbers part.now (number_in N.run.plan N.layout memory.now)
        (row_cells part.now.field k j part.now.cells.rect.i0 (columns_of part.now.cells.rect))) }
{
    let rect = part.cells.rect;
    for x in 0..count(rect.i0, rect.i1) {
        pack_cell(values, memory, part, k, j, moved(rect.i0, x))?;
    }
    Ok(())
}

/// Adds those of all cells at one k.
fn pack_plane<N: RunName>(
    values: &mut Vec<i32>,
    memory: &Memory<N>,
    part: &Part,
    k: u32,
) -> Result<(), AllocError>
    requires walked { IsWalked part.now }
    requires level { IsLevelOf part.now k }
    requires kept { KeepsPoints N.run.plan N.layout memory.now part.now }
    ensures { OnOk result (values.new.items
        ≡ values.old.items ++ sent_numbers part.now (number_in N.run.plan N.layout memory.now)
        (plane_cells part.now.field k part.now.cells.rect (rows_of part.now.cells.rect))) }
{
    let rect = part.cells.rect;
    for y in 0..count(rect.j0, rect.j1) {
        pack_row(values, memory, part, k, moved(rect.j0, y))?;
    }
    Ok(())
}

/// Adds those of all cells of a part.
pub(crate) fn pack_part<N: RunName>(
    values: &mut Vec<i32>,
    memory: &Memory<N>,
    part: &Part,
) -> Result<(), AllocError>
    requires walked { IsWalked part.now }
    requires kept { KeepsPoints N.run.plan N.layout memory.now part.now }
    ensures { OnOk result (values.new.items ≡ values.old.items ++ sent_numbers part.now
        (number_in N.run.plan N.layout memory.now) (region_cells part.now.field part.now.cells)) }
{
    for a in 0..part.cells.k1.saturating_sub(part.cells.k0) {
        pack_plane(values, memory, part, part.cells.k0 + a)?;
    }
    Ok(())
}
