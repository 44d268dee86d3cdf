//! Laws of blocks, owners and boxes.

ghost use Rattle.wf_rect.specs.Blocks.{BlocksAreDisjointAndComplete};
ghost use Rattle.wf_rect.specs.Boxes.{MeetingsAreIntersections};
ghost use Rattle.wf_rect.specs.Cases.{WorkedCases};
ghost use Rattle.wf_rect.specs.Owners.{PointsHaveOneOwner};
ghost use Rattle.wf_rect.specs.Tiles.{TilesAreDisjointAndComplete, TilesAreInside};

/// Each place of a length lies in one of its blocks and in no other.
pub fn blocks_are_disjoint_and_complete()
    ensures { BlocksAreDisjointAndComplete }
{}

/// Each point has one owner among the patches of a width and a height.
pub fn points_have_one_owner()
    ensures { PointsHaveOneOwner }
{}

/// The box that two boxes share has a point exactly where both have it.
pub fn meetings_are_intersections()
    ensures { MeetingsAreIntersections }
{}

/// Each point of a box lies in one of its tiles and in no other.
pub fn tiles_are_disjoint_and_complete()
    ensures { TilesAreDisjointAndComplete }
{}

/// Each point of a tile is one of the box.
pub fn tiles_are_inside()
    ensures { TilesAreInside }
{}

/// Some blocks, owners, meetings and tiles, worked by hand.
pub fn worked_cases()
    ensures { WorkedCases }
{}
