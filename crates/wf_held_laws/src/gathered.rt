//! A frame that is complete, or written, has the slabs of the run.
ghost use Rattle.wf_held_laws.specs.Gathered.{CompleteFramesHaveTheirPieces};
ghost use Rattle.wf_held_laws.specs.Gathered.{CompleteFramesHaveTheirSlabs};
ghost use Rattle.wf_held_laws.specs.Gathered.{FramesWrittenAreComplete};
ghost use Rattle.wf_held_laws.specs.Gathered.{FramesWrittenHaveTheRunsSlabs};
ghost use Rattle.wf_held_laws.specs.Gathered.{FramesWrittenHaveAllSlabs};
ghost use Rattle.wf_held_laws.specs.Gathered.{FullListsGatherTheRunsSlabs};

/// Of a frame that is complete each piece of each variable and patch is gathered once, with its
/// numbers, and none is left.
pub fn complete_frames_have_their_pieces()
    ensures { CompleteFramesHaveTheirPieces }
{}

/// The slab that is made of its gathered pieces is the frame's.
pub fn complete_frames_have_their_slabs()
    ensures { CompleteFramesHaveTheirSlabs }
{}

/// Each frame that is written is complete, and stays so.
pub fn frames_written_are_complete()
    ensures { FramesWrittenAreComplete }
{}

/// The slab made of the gathered pieces of a frame that is written has the numbers of the grids.
pub fn frames_written_have_the_runs_slabs()
    ensures { FramesWrittenHaveTheRunsSlabs }
{}

/// So all variables of a frame that is written are those of the run, in order.
pub fn frames_written_have_all_slabs()
    ensures { FramesWrittenHaveAllSlabs }
{}

/// At the end of a full list each frame that the run writes has the numbers of the grids in its
/// gathered pieces.
pub fn full_lists_gather_the_runs_slabs()
    ensures { FullListsGatherTheRunsSlabs }
{}
