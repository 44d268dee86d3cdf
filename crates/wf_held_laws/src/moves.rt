//! A patch that does its halves in order goes along the front.
ghost use Rattle.wf_held_laws.specs.Moves.{PatchesBeginAtTheFront, PatchesStandAtTheFront};
ghost use Rattle.wf_held_laws.specs.Moves.{PatchesMoveWithTheFront, PatchesStopWithTheFront};
ghost use Rattle.wf_held_laws.specs.Moves.{PatchesEndAtTheFront, PatchesOfStatesArePlaced};

/// A patch that has done nothing stands where the front is.
pub fn patches_begin_at_the_front()
    ensures { PatchesBeginAtTheFront }
{}

/// Before its next half it has the front's memory, and the front has not stopped it there.
pub fn patches_stand_at_the_front()
    ensures { PatchesStandAtTheFront }
{}

/// After a half that goes through it stands where the front is again.
pub fn patches_move_with_the_front()
    ensures { PatchesMoveWithTheFront }
{}

/// A half that does not go through stops the patch in the front too.
pub fn patches_stop_with_the_front()
    ensures { PatchesStopWithTheFront }
{}

/// After all its halves it has the front's memory at the end of the script.
pub fn patches_end_at_the_front()
    ensures { PatchesEndAtTheFront }
{}

/// In each state that a list of enabled events leads to, each patch stands where the front is.
pub fn patches_of_states_are_placed()
    ensures { PatchesOfStatesArePlaced }
{}
