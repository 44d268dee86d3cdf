//! A slab is assembled piece by piece, in whatever order the pieces come.
ghost use Rattle.wf_held_laws.specs.Assembly.{FilePlacesAreApart, OwnRowsStandTogether};
ghost use Rattle.wf_held_laws.specs.Assembly.{PiecesStayWhenOthersArePut};
ghost use Rattle.wf_held_laws.specs.Assembly.{ListsWithEachPieceAreSlabs};
ghost use Rattle.wf_held_laws.specs.Assembly.{PiecesPutInAnyOrderMakeTheSlab};

/// Different points of a file have different places in its list.
pub fn file_places_are_apart()
    ensures { FilePlacesAreApart }
{}

/// The cells of a row of an own box follow one another in the piece, and their points in the file.
pub fn own_rows_stand_together()
    ensures { OwnRowsStandTogether }
{}

/// A list that holds a patch's piece still holds it when that of another patch is put.
pub fn pieces_stay_when_others_are_put()
    ensures { PiecesStayWhenOthersArePut }
{}

/// A list that holds the piece of each patch is the slab that is made of them.
pub fn lists_with_each_piece_are_slabs()
    ensures { ListsWithEachPieceAreSlabs }
{}

/// Once the pieces of all patches are put, in whatever order and into whatever list of the file's
/// length, it is the slab.
pub fn pieces_put_in_any_order_make_the_slab()
    ensures { PiecesPutInAnyOrderMakeTheSlab }
{}
