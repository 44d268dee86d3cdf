//! What holds of every state that a list of enabled events leads to.
ghost use Rattle.wf_core_laws.specs.PieceCount.{EachPieceIsThereOnce};
ghost use Rattle.wf_core_laws.specs.EveryList.{EveryReachableStateIsCanonical};
ghost use Rattle.wf_core_laws.specs.EveryList.{PatchesFollowTheLockstepRun};
ghost use Rattle.wf_core_laws.specs.EveryList.{LettersCarryTheLockstepRunsNumbers};
ghost use Rattle.wf_core_laws.specs.EveryList.{PiecesCarryTheLockstepRunsNumbers};
ghost use Rattle.wf_core_laws.specs.EveryList.{LettersCarryTheirNumbers, PiecesCarryTheirNumbers};
ghost use Rattle.wf_core_laws.specs.EveryList.{LostMessagesAreOfStoppedPatches};
ghost use Rattle.wf_core_laws.specs.EveryList.{FramesWrittenAreTheFirst, FramesWrittenAreTheRuns};

/// How many halves each patch has done and which patches are stopped tells all memories and all
/// mail of a state.
pub fn every_reachable_state_is_canonical()
    ensures { EveryReachableStateIsCanonical }
{}

/// Each patch has the memory and the stop that it has in the lockstep run after as many of its
/// own halves.
pub fn patches_follow_the_lockstep_run()
    ensures { PatchesFollowTheLockstepRun }
{}

/// Each letter in the mail is a message of the run, with the numbers that its sender has in the
/// lockstep run before its place.
pub fn letters_carry_the_lockstep_runs_numbers()
    ensures { LettersCarryTheLockstepRunsNumbers }
{}

/// Each piece, posted or gathered, is of a variable of a frame, with the own numbers that its patch
/// has in the lockstep run before the frame's place.
pub fn pieces_carry_the_lockstep_runs_numbers()
    ensures { PiecesCarryTheLockstepRunsNumbers }
{}

/// On a plan that the halo check accepts each letter carries its message's numbers: up to the first
/// overflow those of the grids.
pub fn letters_carry_their_numbers()
    ensures { LettersCarryTheirNumbers }
{}

/// On a plan that the halo check accepts each piece carries the numbers of its variable in its
/// frame: up to the first overflow those of the grids.
pub fn pieces_carry_their_numbers()
    ensures { PiecesCarryTheirNumbers }
{}

/// Where a patch may stop for want of a message, there is a message to it that is not in the mail
/// and whose sender the lockstep run stops before that place.
pub fn lost_messages_are_of_stopped_patches()
    ensures { LostMessagesAreOfStoppedPatches }
{}

/// Of each frame, variable and patch there is one piece, posted or gathered, once the patch has
/// come past the frame's emit, and none before.
pub fn each_piece_is_there_once()
    ensures { EachPieceIsThereOnce }
{}

/// The frames written are the first of the script's, and none stands at a stop or past one.
pub fn frames_written_are_the_first()
    ensures { FramesWrittenAreTheFirst }
{}

/// On a plan that the halo check accepts the frames written are the first of those that the run
/// writes: none stands at the first overflow or past it.
pub fn frames_written_are_the_runs()
    ensures { FramesWrittenAreTheRuns }
{}
