//! Patches of a run as blocks of columns and of rows.

ghost use Rattle.wf_rect_laws.specs.Patches.{EachPatchHasItsPlace, OwnBoxesAreBlocks};
ghost use Rattle.wf_rect_laws.specs.Patches.{OwnPointsAreInPatches, OwnersAreAlike};
ghost use Rattle.wf_rect_laws.specs.Patches.{PatchesAreListedByRows, PatchesGoRowByRow};

/// The patch in a row and a column has them as quotient and remainder of its number.
pub fn patches_go_row_by_row()
    ensures { PatchesGoRowByRow }
{}

/// The patches of a layout are listed row by row from the south, each row from the west.
pub fn patches_are_listed_by_rows()
    ensures { PatchesAreListedByRows }
{}

/// Each patch stands in a row and a column, which give its number back.
pub fn each_patch_has_its_place()
    ensures { EachPatchHasItsPlace }
{}

/// The own box of a patch is a block of the columns by a block of the rows, from 1, of which the
/// last has the extra point of a staggered field too.
pub fn own_boxes_are_blocks()
    ensures { OwnBoxesAreBlocks }
{}

/// A patch owns a point exactly where the point lies in its blocks of the columns and of the rows:
/// an extra point where the last point before it does.
pub fn own_points_are_in_patches()
    ensures { OwnPointsAreInPatches }
{}

/// The owner of a point in a run is the one patch in whose blocks it lies so.
pub fn owners_are_alike()
    ensures { OwnersAreAlike }
{}
