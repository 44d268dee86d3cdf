//! Where the numbers of a patch's cells stand in the list of a level over the whole domain.

ghost use Rattle.std.specs.Prelude.{◌≡◌, ◌+◌, ◌-◌, ◌*◌, ◌^◌, ◌<◌, ◌≤◌, ◌||◌, IsTrue, pos};
ghost use Rattle.wf_model.specs.Patches.{in_span};
ghost use Rattle.wf_model.specs.Plans.{wrapped};
ghost use Rattle.wf_boxes.specs.Boxes.{IsWide};
ghost use Rattle.wf_field.specs.Sources.{points_of};

use wf_boxes::{LevelBox, point_of};

/// Where the row of the points begins that a row of cells stands for.
pub(crate) fn row(bounds: &LevelBox, k: u32, j: i64) -> usize
    requires level { (1 ≤ k) × (k ≤ bounds.now.levels) }
    requires some { 1 ≤ bounds.now.height }
    requires wide { IsWide j }
    requires inside { IsTrue (bounds.now.periodic_y
        || in_span (record { low = pos 1; high = pos (bounds.now.height + 1) }) j) }
    requires fits { points_of bounds.now < 2 ^ 64 }
    ensures value { result ≡ ((k - 1) * bounds.now.height
        + (wrapped bounds.now.periodic_y bounds.now.height j - 1)) * bounds.now.width }
    ensures bound { result + bounds.now.width ≤ points_of bounds.now }
{
    let at = point_of(bounds.periodic_y, bounds.height, j);
    row_start(bounds, k - 1, at - 1)
}

/// Where a row begins, of a level and a row from 0.
fn row_start(bounds: &LevelBox, level: u32, row: u32) -> usize
    requires level { level < bounds.now.levels }
    requires row { row < bounds.now.height }
    requires fits { points_of bounds.now < 2 ^ 64 }
    ensures value { result ≡ (level * bounds.now.height + row) * bounds.now.width }
    ensures bound { result + bounds.now.width ≤ points_of bounds.now }
{
    (level as usize * bounds.height as usize + row as usize) * bounds.width as usize
}

/// Where the point that a cell stands for has its number in the row.
pub(crate) fn column(bounds: &LevelBox, i: i64) -> u32
    requires some { 1 ≤ bounds.now.width }
    requires wide { IsWide i }
    requires inside { IsTrue (bounds.now.periodic_x
        || in_span (record { low = pos 1; high = pos (bounds.now.width + 1) }) i) }
    ensures value { result + 1 ≡ wrapped bounds.now.periodic_x bounds.now.width i }
    ensures bound { result < bounds.now.width }
{
    point_of(bounds.periodic_x, bounds.width, i) - 1
}
