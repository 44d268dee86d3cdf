//! The outcome of a run, place by place.

ghost use Rattle.wf_laws.specs.Outcomes.{ItemTakesTheGridsOn, NoItemBeforeOverflows};
ghost use Rattle.wf_laws.specs.Outcomes.{RunEndsWithItsLastGrids, FirstOverflowIsItsItems};
ghost use Rattle.wf_laws.specs.Outcomes.{EarlierPlacesAreReached, OutcomeGoesItemByItem};
ghost use Rattle.wf_laws.specs.Outcomes.{OutcomeOfItemsAfterOthers, AllFramesAreWritten};
ghost use Rattle.wf_laws.specs.Outcomes.{FramesAreWrittenBeforeTheOverflow};

/// Each item of the script takes the grids before it to the grids before the next item.
#[tactic(auto, using(crate::proofs::FirstOverflow::takes_on))]
pub fn item_takes_the_grids_on()
    ensures { ItemTakesTheGridsOn }
{}

/// Of the items before a place that the run comes to, none overflows.
#[tactic(auto, using(crate::proofs::FirstOverflow::none_before))]
pub fn no_item_before_overflows()
    ensures { NoItemBeforeOverflows }
{}

/// A run in which no item overflows comes to its end, and its outcome is the grids after its
/// last item.
#[tactic(auto, using(crate::proofs::FirstOverflow::ends_with))]
pub fn run_ends_with_its_last_grids()
    ensures { RunEndsWithItsLastGrids }
{}

/// The first overflow of a run is that of the item at its place on the grids there, and the run
/// comes to that place.
pub fn first_overflow_is_its_items()
    ensures { FirstOverflowIsItsItems }
{}

/// A run that comes to a place comes to each place before it.
#[tactic(auto, using(crate::proofs::FirstOverflow::earlier))]
pub fn earlier_places_are_reached()
    ensures { EarlierPlacesAreReached }
{}

/// An item that overflows ends the run at its place, with its least point; after any other the run
/// goes on with the grids that the item leaves.
pub fn outcome_goes_item_by_item()
    ensures { OutcomeGoesItemByItem }
{}

/// After items of which none overflows, the outcome is that of the items that follow.
pub fn outcome_of_items_after_others()
    ensures { OutcomeOfItemsAfterOthers }
{}

/// A run in which no item overflows writes all its frames.
pub fn all_frames_are_written()
    ensures { AllFramesAreWritten }
{}

/// A run that overflows writes the frames of the places before its first overflow, and no others.
pub fn frames_are_written_before_the_overflow()
    ensures { FramesAreWrittenBeforeTheOverflow }
{}
