//! The numbers of a level's own points, from those in file shape.

ghost use Rattle.std.specs.Prelude.{◌≡◌, ◌+◌, ◌*◌, ◌≤◌, ◌++◌, length, take, drop};
ghost use Rattle.wf_model.specs.Grids.{listed, grid_from};
ghost use Rattle.wf_stream.specs.Levels.{rows_from};

/// The points of a level from west to east, from south to north and in z: its own, and those in
/// files. A staggered level has an extra point in files in a periodic direction too, where it has
/// none of its own.
#[derive(Clone, Copy, Debug, PartialEq, Eq)]
pub struct Extents {
    pub levels: u32,
    pub rows: u32,
    pub columns: u32,
    pub file_rows: u32,
    pub file_columns: u32,
}

/// Moves the first `kept` numbers of each of so many rows of a width to one place, one behind
/// another. The first row begins at `from`, which is not before the place.
fn move_rows(values: &mut Vec<i32>, from: usize, place: usize, rows: u32, kept: usize, width: usize)
    requires before { place ≤ from }
    requires narrow { kept ≤ width }
    requires within { from + rows * width ≤ length values.old.items }
    ensures { values.new.items ≡ take place values.old.items ++ rows_from values.old.items from rows
        kept width ++ drop (place + rows * kept) values.old.items }
{
    let mut row = from;
    let mut next = place;
    for _ in 0..rows {
        values.copy_within(row..row + kept, next);
        row += width;
        next += kept;
    }
}

/// A level's own points of the numbers in file shape: an extra point in a periodic direction is
/// passed over.
pub fn own_points(values: Vec<i32>, extents: Extents) -> Vec<i32>
    requires rows { extents.rows ≤ extents.file_rows }
    requires columns { extents.columns ≤ extents.file_columns }
    requires size { length values.items
        ≡ extents.levels * (extents.file_rows * extents.file_columns) }
    ensures { result.items ≡ listed extents.levels extents.rows extents.columns
        (grid_from extents.file_rows extents.file_columns values.items) }
{
    let mut values = values;
    let kept = extents.columns as usize;
    let width = extents.file_columns as usize;
    let mut from = 0;
    let mut place = 0;
    for _ in 0..extents.levels {
        move_rows(&mut values, from, place, extents.rows, kept, width);
        from += extents.file_rows as usize * width;
        place += extents.rows as usize * kept;
    }
    values.truncate(place);
    values
}
