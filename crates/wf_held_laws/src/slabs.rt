//! A slab is put together from the pieces of all patches.
ghost use Rattle.wf_held_laws.specs.Slabs.{FileColumnsArePoints, FileRowsArePoints};
ghost use Rattle.wf_held_laws.specs.Slabs.{EachFilePointIsOfOnePatch, ListsHaveTheirLengths};
ghost use Rattle.wf_held_laws.specs.Slabs.{PiecesGoToTheirPlaces, SlabsAreMadeOfPieces};
ghost use Rattle.wf_held_laws.specs.Slabs.{SlabsHoldAllPieces, ListsThatHoldAllPiecesAreSlabs};

/// A column of a file is the point of its number, or a copy of the first one where a periodic
/// direction has no point more.
pub fn file_columns_are_points()
    ensures { FileColumnsArePoints }
{}

/// And so is a row.
pub fn file_rows_are_points()
    ensures { FileRowsArePoints }
{}

/// Of each point of a file one patch has the number in its own box, and no other patch does.
pub fn each_file_point_is_of_one_patch()
    ensures { EachFilePointIsOfOnePatch }
{}

/// A slab has a number for each point of the file, and a piece one for each own cell, so that each
/// point's place lies in both.
pub fn lists_have_their_lengths()
    ensures { ListsHaveTheirLengths }
{}

/// The number at a point's place in a slab is that at its cell's place in the piece of the patch
/// that owns it.
pub fn pieces_go_to_their_places()
    ensures { PiecesGoToTheirPlaces }
{}

/// The slab that is made of the pieces of all patches is the frame's.
pub fn slabs_are_made_of_pieces()
    ensures { SlabsAreMadeOfPieces }
{}

/// The slab that is made of pieces has the number of each own point of each patch at its place, and
/// copies of the first column and row behind the last ones.
pub fn slabs_hold_all_pieces()
    ensures { SlabsHoldAllPieces }
{}

/// A list that holds all pieces so is the slab made of them, in whatever order they were put there.
pub fn lists_that_hold_all_pieces_are_slabs()
    ensures { ListsThatHoldAllPiecesAreSlabs }
{}
