//! The numbers of levels, read and set by cell.

ghost use Rattle.std.specs.Prelude.{◌≡◌, length, slice_index_or, slice_set, pos};
ghost use Rattle.wf_boxes.specs.Places.{IsCellOf, cells_of, place_of};
ghost use Rattle.wf_model.specs.Kept.{level_kept};
ghost use Rattle.wf_field.specs.Kept.{IsLevelOf, box_at};

use wf_boxes::{LevelBox, place};
use wf_model::List;

/// The number of a cell.
fn number_at(bounds: &LevelBox, list: &[i32], k: u32, j: i64, i: i64) -> i32
    requires cell { IsCellOf bounds.now k j i }
    requires size { length list.now ≡ cells_of bounds.now }
    ensures { result ≡ slice_index_or list.now (place_of bounds.now k j i) (pos 0) }
{
    list[place(bounds, k, j, i)]
}

/// The number of a cell of a level.
pub(crate) fn number_of(
    boxes: &[LevelBox],
    levels: &[List<i32>],
    field: u32,
    k: u32,
    j: i64,
    i: i64,
) -> i32
    requires level { IsLevelOf boxes.now levels.now field }
    requires cell { IsCellOf (box_at boxes.now field) k j i }
    ensures { result ≡ slice_index_or (level_kept levels.now field)
        (place_of (box_at boxes.now field) k j i) (pos 0) }
{
    number_at(
        &boxes[field as usize],
        levels[field as usize].as_slice(),
        k,
        j,
        i,
    )
}

/// Sets the number of a cell.
fn put_at(bounds: &LevelBox, list: &mut [i32], k: u32, j: i64, i: i64, value: i32)
    requires cell { IsCellOf bounds.now k j i }
    requires size { length list.old ≡ cells_of bounds.now }
    ensures { list.new ≡ slice_set list.old (place_of bounds.now k j i) value }
{
    let at = place(bounds, k, j, i);
    list[at] = value;
}

/// Sets the number of a cell of a level.
pub(crate) fn put_in(
    boxes: &[LevelBox],
    levels: &mut [List<i32>],
    field: u32,
    k: u32,
    j: i64,
    i: i64,
    value: i32,
)
    requires level { IsLevelOf boxes.now levels.old field }
    requires cell { IsCellOf (box_at boxes.now field) k j i }
    ensures { levels.new ≡ slice_set levels.old field
        (slice_set (level_kept levels.old field) (place_of (box_at boxes.now field) k j i) value) }
{
    put_at(
        &boxes[field as usize],
        levels[field as usize].as_mut_slice(),
        k,
        j,
        i,
        value,
    );
}
