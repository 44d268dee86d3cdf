//! Boxes of points as boxes of a run.

ghost use Rattle.wf_rect_laws.specs.Boxes.{BoxesHoldAlike, MeetingsAreCuts, TileBoxesAreTiles};

/// A box has a point exactly where the box of the run with its ends has the cell there.
pub fn boxes_hold_alike()
    ensures { BoxesHoldAlike }
{}

/// What a box shares with all points of a width and a height is the box cut to them.
pub fn meetings_are_cuts()
    ensures { MeetingsAreCuts }
{}

/// The tile boxes of a run are the tiles of the box.
pub fn tile_boxes_are_tiles()
    ensures { TileBoxesAreTiles }
{}
