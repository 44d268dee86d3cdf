//! A run that goes on from restart files: its frames, its first overflow, its files, and what it
//! begins with.
ghost use Rattle.wf_restart_laws.specs.SameFrames.{ContinuedRunsShowTheSameFrames};
ghost use Rattle.wf_restart_laws.specs.SameFrames.{ContinuedRunsOverflowAlike};
ghost use Rattle.wf_restart_laws.specs.SameFrames.{ContinuedRunsWriteTheSameCalls};
ghost use Rattle.wf_restart_laws.specs.SameFrames.{ContinuedRunsWriteTheSameFiles};
ghost use Rattle.wf_restart_laws.specs.ReadBack.{RestartFilesAreReadBack};
ghost use Rattle.wf_restart_laws.specs.ReadBack.{RestartFilesAreReadBackWhereWritten};
ghost use Rattle.wf_restart_laws.specs.Restarts.{RestartedRunsGoOn};

/// From the restart time on a run that goes on has the frames of the run whose restart files it
/// began with, restart frames too.
#[tactic(auto, using(crate::proofs::LaterFrames::frames_show))]
pub fn continued_runs_show_the_same_frames()
    ensures { ContinuedRunsShowTheSameFrames }
{}

/// It has the same first overflow, at the same item.
#[tactic(auto, using(crate::proofs::LaterItems::overflow_alike))]
pub fn continued_runs_overflow_alike()
    ensures { ContinuedRunsOverflowAlike }
{}

/// With one frame to a file its calls on the store are those of the later frames of that run.
#[tactic(auto, using(crate::proofs::SameCalls::calls_alike))]
pub fn continued_runs_write_the_same_calls()
    ensures { ContinuedRunsWriteTheSameCalls }
{}

/// So each of its files is byte for byte as that run wrote it.
#[tactic(auto, using(crate::proofs::SameFiles::files_alike))]
pub fn continued_runs_write_the_same_files()
    ensures { ContinuedRunsWriteTheSameFiles }
{}

/// What a restart reads of the restart files of a run is what the run that goes on begins with.
pub fn restart_files_are_read_back()
    ensures { RestartFilesAreReadBack }
{}

/// So it is in the store that the run left.
pub fn restart_files_are_read_back_where_written()
    ensures { RestartFilesAreReadBackWhereWritten }
{}

/// A run that is read from the restart files of another goes on as that one did.
pub fn restarted_runs_go_on()
    ensures { RestartedRunsGoOn }
{}
