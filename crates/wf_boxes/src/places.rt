//! Where a patch keeps the cells of a level: in a list, in order k, j, i with i fastest.

ghost use Rattle.std.specs.Prelude.{◌≡◌, ◌+◌, ◌*◌, ◌^◌, ◌<◌, ◌-ℤ◌, unsigned_abs};
ghost use Rattle.wf_model.specs.Patches.{split_of};
ghost use Rattle.wf_model.specs.Sound.{IsLevel};
ghost use Rattle.wf_rect.specs.Tiles.{count_between};
ghost use Rattle.wf_boxes.specs.Places.{IsLevelBox, IsCellOf, IsFrom, cells_of, place_of};

use crate::boxes::{Patch, memory_box};

/// The cells that a patch keeps of a level: where their box begins in y and in x, and how many
/// rows, cells of a row (columns) and levels in z it has. Beside it, how many points the level has
/// in the domain, from west to east (width) and from south to north (height), and in which
/// directions places wrap.
#[derive(Clone, Copy, Debug, PartialEq, Eq)]
pub struct LevelBox {
    pub south: i64,
    pub west: i64,
    pub rows: u32,
    pub columns: u32,
    pub levels: u32,
    pub width: u32,
    pub height: u32,
    pub periodic_x: bool,
    pub periodic_y: bool,
}

/// How many numbers there are from `low` up to `high`, without `high`.
pub fn count(low: i64, high: i64) -> u32
    requires { count_between low high < 2 ^ 32 }
    ensures { result ≡ count_between low high }
{
    if low < high { (high - low) as u32 } else { 0 }
}

/// The cells that a patch keeps of a level.
pub fn level_box(patch: &Patch, field: u32) -> LevelBox
    requires { IsLevel patch.now.plan.now field }
    ensures { IsLevelBox patch.now.plan.now
        (split_of patch.now.layout.now) patch.now.domain patch.now.number field result }
{
    let domain = patch.plan.domain(patch.domain);
    let extents = domain.extents(patch.plan.field(field));
    let at = memory_box(patch, field);
    LevelBox {
        south: at.j0,
        west: at.i0,
        rows: count(at.j0, at.j1),
        columns: count(at.i0, at.i1),
        levels: extents.levels,
        width: extents.columns,
        height: extents.rows,
        periodic_x: domain.periodic_x,
        periodic_y: domain.periodic_y,
    }
}

/// How far a number stands from the first of so many.
fn steps(first: i64, at: i64, count: u32) -> usize
    requires { IsFrom first count at }
    ensures value { result ≡ unsigned_abs (at -ℤ first) }
    ensures below { result < count }
{
    (at - first) as usize
}

/// The place in rows of one length, of levels of one number of rows.
fn place_in(level: usize, row: usize, column: usize, rows: usize, columns: usize) -> usize
    requires row { row < rows }
    requires column { column < columns }
    requires fits { (level * rows + row) * columns + column < 2 ^ 64 }
    ensures { result ≡ (level * rows + row) * columns + column }
{
    (level * rows + row) * columns + column
}

/// The place of a cell in the list of its level, from 0.
pub fn place(bounds: &LevelBox, k: u32, j: i64, i: i64) -> usize
    requires cell { IsCellOf bounds.now k j i }
    requires fits { cells_of bounds.now < 2 ^ 64 }
    ensures value { result ≡ place_of bounds.now k j i }
    ensures inside { result < cells_of bounds.now }
{
    let row = steps(bounds.south, j, bounds.rows);
    let column = steps(bounds.west, i, bounds.columns);
    place_in(
        k as usize - 1,
        row,
        column,
        bounds.rows as usize,
        bounds.columns as usize,
    )
}
