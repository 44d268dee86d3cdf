//! Rows of cells, and boxes of them row by row, set to numbers.

ghost use Rattle.std.specs.Prelude.{◌≡◌, ℕ, ◌+◌, ◌<◌, ◌≤◌, length, pos, ◌+ℤ◌, slice_index_or};
ghost use Rattle.std.specs.Prelude.{slice_set};
ghost use Rattle.wf_boxes.specs.Boxes.{IsNear};
ghost use Rattle.wf_boxes.specs.Places.{IsRowOf, cells_of, place_of};
ghost use Rattle.wf_model.specs.Kept.{level_kept};
ghost use Rattle.wf_field.specs.Kept.{IsLevelOf, box_at};
ghost use Rattle.wf_field.specs.Rows.{with_row};

use wf_boxes::{LevelBox, place};
use wf_model::List;

/// A number so many further on.
pub(crate) fn moved(low: i64, by: u32) -> i64
    requires { IsNear low }
    ensures { result ≡ low +ℤ pos by }
{
    low + i64::from(by)
}

/// So many of some numbers, from a place on.
pub(crate) fn part(values: &[i32], from: usize, count: usize) -> &[i32]
    requires { from + count ≤ length values.now }
    ensures long { length result.now ≡ count }
    ensures numbers { (m : ℕ) → m < count
        → slice_index_or result.now m (pos 0) ≡ slice_index_or values.now (from + m) (pos 0) }
{
    &values[from..from + count]
}

/// Sets as many numbers as are given, from a place on.
fn paste(list: &mut [i32], at: usize, values: &[i32])
    requires { at + length values.now ≤ length list.old }
    ensures { list.new ≡ with_row list.old at values.now }
{
    list[at..at + values.len()].copy_from_slice(values);
}

/// Sets as many cells of a row as there are numbers, from this cell on.
fn put_row(bounds: &LevelBox, list: &mut [i32], k: u32, j: i64, i: i64, values: &[i32])
    requires row { IsRowOf bounds.now k j i (length values.now) }
    requires size { length list.old ≡ cells_of bounds.now }
    ensures { list.new ≡ with_row list.old (place_of bounds.now k j i) values.now }
{
    if values.is_empty() {
        return;
    }
    let at = place(bounds, k, j, i);
    paste(list, at, values);
}

/// Sets as many cells of a level's row as there are numbers, from this cell on.
pub(crate) fn put_row_in(
    boxes: &[LevelBox],
    levels: &mut [List<i32>],
    field: u32,
    k: u32,
    j: i64,
    i: i64,
    values: &[i32],
)
    requires level { IsLevelOf boxes.now levels.old field }
    requires row { IsRowOf (box_at boxes.now field) k j i (length values.now) }
    ensures { levels.new ≡ slice_set levels.old field (with_row (level_kept levels.old field)
        (place_of (box_at boxes.now field) k j i) values.now) }
{
    put_row(
        &boxes[field as usize],
        levels[field as usize].as_mut_slice(),
        k,
        j,
        i,
        values,
    );
}
