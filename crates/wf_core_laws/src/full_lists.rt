//! What holds of every full list, which is one that leads to a state where no event is enabled.
ghost use Rattle.wf_core_laws.specs.EveryList.{NoStateIsStuck, FullListsEndAlike};
ghost use Rattle.wf_core_laws.specs.EveryList.{FullListsEndWithTheReport};
ghost use Rattle.wf_core_laws.specs.EveryList.{FullListsWriteTheRunsFrames};

/// Where no event is enabled each patch has ended or is stopped, each piece is gathered, and each
/// frame before all stops is written.
pub fn no_state_is_stuck()
    ensures { NoStateIsStuck }
{}

/// Two full lists end with equal patches, as many frames written, and the same letters and pieces
/// by look-up.
pub fn full_lists_end_alike()
    ensures { FullListsEndAlike }
{}

/// The memories at the end of a full list are those of the memory report, stale cells included.
pub fn full_lists_end_with_the_report()
    ensures { FullListsEndWithTheReport }
{}

/// On a plan that the halo check accepts a full list writes all frames of the run, and no others.
pub fn full_lists_write_the_runs_frames()
    ensures { FullListsWriteTheRunsFrames }
{}
