//! The script of a run that goes on.
ghost use Rattle.wf_restart_laws.specs.Shifted.{ScriptsSplitAfterSteps, ContinuedPlansAreAlike};
ghost use Rattle.wf_restart_laws.specs.Shifted.{DomainsHaveTheSameTimes, StepsAreShifted};
ghost use Rattle.wf_restart_laws.specs.Shifted.{ScriptsAreShifted};

/// A script is its first steps of domain 1 and those that follow.
#[tactic(auto, using(crate::proofs::Scripts::split))]
pub fn scripts_split_after_steps()
    ensures { ScriptsSplitAfterSteps }
{}

/// The plan of a run that goes on is the other's but for starts, files' frames, the run's time,
/// restart and version.
#[tactic(auto, using(crate::proofs::SameTimes::alike))]
pub fn continued_plans_are_alike()
    ensures { ContinuedPlansAreAlike }
{}

/// At each step of a domain it has as many steps behind it in both runs, and it starts or has
/// started in both.
pub fn domains_have_the_same_times()
    ensures { DomainsHaveTheSameTimes }
{}

/// A step of a domain and its nests is the same in both runs, but for the time.
#[tactic(auto, using(crate::proofs::ShiftedSteps::steps_are))]
pub fn steps_are_shifted()
    ensures { StepsAreShifted }
{}

/// The script of a run that goes on is the rest of the other's, with its times counted from the
/// restart time.
#[tactic(auto, using(crate::proofs::ShiftedSteps::scripts_are))]
pub fn scripts_are_shifted()
    ensures { ScriptsAreShifted }
{}
