//! Values of expressions, and lists of grids.

ghost use Rattle.wf_laws.specs.Values.{ValueDependsOnItsReads, ListHasEachPointOnce};
ghost use Rattle.wf_laws.specs.Values.{ListHasPointsInOrder, GridOfTheListIsTheGrid};

/// An expression's value depends on the point, the step and the numbers at its reads alone.
#[tactic(auto, using(crate::proofs::ValueLaws::depends_on_reads))]
pub fn value_depends_on_its_reads()
    ensures { ValueDependsOnItsReads }
{}

/// The list of a level has as many numbers as the level has points.
#[tactic(auto, using(crate::proofs::ValueLaws::each_point_once))]
pub fn list_has_each_point_once()
    ensures { ListHasEachPointOnce }
{}

/// In the list of a level the number of each point stands at its place in order k, j, i.
#[tactic(auto, using(crate::proofs::ValueLaws::in_order))]
pub fn list_has_points_in_order()
    ensures { ListHasPointsInOrder }
{}

/// The grid that is read back from the list of a level is that level's grid, at each of its points.
#[tactic(auto, using(crate::proofs::ValueLaws::grid_back))]
pub fn grid_of_the_list_is_the_grid()
    ensures { GridOfTheListIsTheGrid }
{}
