//! A patch's memory as it is kept, a list for each level, beside the function that it holds.
ghost use Rattle.wf_patch_laws.specs.Memory.{CellsHavePlaces, PlacesTellCells};
ghost use Rattle.wf_patch_laws.specs.Memory.{NumbersAreReadAtPlaces, OneCellIsSet};
ghost use Rattle.wf_patch_laws.specs.Memory.{SettingsAreShown, MemoriesAreShownAlike};
ghost use Rattle.wf_patch_laws.specs.Memory.{ListsHaveTheCellsInOrder, ListsOfTheCellsShow};
ghost use Rattle.wf_patch_laws.specs.Memory.{ListsHaveAllCells, ListsAreSummed};

/// Each cell of a patch's memory has a place in its level's list.
pub fn cells_have_places()
    ensures { CellsHavePlaces }
{}

/// No two cells of a level have one place.
pub fn places_tell_cells()
    ensures { PlacesTellCells }
{}

/// The number of a cell is read at its place.
pub fn numbers_are_read_at_places()
    ensures { NumbersAreReadAtPlaces }
{}

/// A number that is set at the place of a cell is set at that cell, and at no other one.
pub fn one_cell_is_set()
    ensures { OneCellIsSet }
{}

/// Lists that are set as a setting says, and nowhere else, hold what the setting leaves.
pub fn settings_are_shown()
    ensures { SettingsAreShown }
{}

/// Lists that hold a function hold just those functions that give the same numbers on the memory.
pub fn memories_are_shown_alike()
    ensures { MemoriesAreShownAlike }
{}

/// Each list has the numbers of its level's cells, in order k, j, i.
pub fn lists_have_the_cells_in_order()
    ensures { ListsHaveTheCellsInOrder }
{}

/// Lists of the numbers of all cells, in order, hold the function.
pub fn lists_of_the_cells_show()
    ensures { ListsOfTheCellsShow }
{}

/// All lists together have the numbers of all cells of the patch.
pub fn lists_have_all_cells()
    ensures { ListsHaveAllCells }
{}

/// A patch's line of the memory report is the count and the sum of the numbers of its lists.
pub fn lists_are_summed()
    ensures { ListsAreSummed }
{}
