//! Runs whose grids agree where it counts go on alike.
ghost use Rattle.wf_restart_laws.specs.Agrees.{StepsWantWhatRestartsHold, TableItemsGoAlike};
ghost use Rattle.wf_restart_laws.specs.Agrees.{StartsGoAlike, ForcesGoAlike, FeedbacksGoAlike};
ghost use Rattle.wf_restart_laws.specs.Agrees.{FramesShowAlike, RestartFramesShowAlike};
ghost use Rattle.wf_restart_laws.specs.Agrees.{ContinuedRunsGoAlike};

/// Where restart files hold each live level, they hold all that is wanted at a step's start.
#[tactic(auto, using(crate::proofs::Wanted::step_wants))]
pub fn steps_want_what_restarts_hold()
    ensures { StepsWantWhatRestartsHold }
{}

/// An item of the table on two grids that agree where it counts overflows at the same point or
/// nowhere, and leaves grids that agree where it counts.
pub fn table_items_go_alike()
    ensures { TableItemsGoAlike }
{}

/// So does a nest's start, which leaves nests that agree on all levels.
pub fn starts_go_alike()
    ensures { StartsGoAlike }
{}

/// So does a force.
pub fn forces_go_alike()
    ensures { ForcesGoAlike }
{}

/// So does a feedback.
pub fn feedbacks_go_alike()
    ensures { FeedbacksGoAlike }
{}

/// A frame of such grids shows the same.
pub fn frames_show_alike()
    ensures { FramesShowAlike }
{}

/// So does a restart frame.
pub fn restart_frames_show_alike()
    ensures { RestartFramesShowAlike }
{}

/// Each item of a run that goes on does what it does in the run whose restart files it began with.
#[tactic(auto, using(crate::proofs::RunsAlike::go_alike))]
pub fn continued_runs_go_alike()
    ensures { ContinuedRunsGoAlike }
{}
