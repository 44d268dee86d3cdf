//! Sums over the script by its domains.
ghost use Rattle.wf_count_laws.specs.Weights.{ScriptsWeighByDomains, TestedPlansAreInTime};
ghost use Rattle.wf_count_laws.specs.Weights.{SoundPlansAreInTime, StepsFillTheRun};
ghost use Rattle.wf_count_laws.specs.Weights.{NestsStepWithTheirParents};
ghost use Rattle.wf_count_laws.specs.InTime.{DomainsInTimePassTheTest};

/// Where each item weighs by its domain and its act, the script weighs what its domains weigh.
#[tactic(auto, using(crate::proofs::ScriptWeights::weighs))]
pub fn scripts_weigh_by_domains()
    ensures { ScriptsWeighByDomains }
{}

/// A plan whose domains and nests passed their tests has them in time, whatever its limits.
#[tactic(auto, using(crate::proofs::SoundTimes::tested))]
pub fn tested_plans_are_in_time()
    ensures { TestedPlansAreInTime }
{}

/// So has a plan that was accepted.
#[tactic(auto, using(crate::proofs::SoundTimes::in_time))]
pub fn sound_plans_are_in_time()
    ensures { SoundPlansAreInTime }
{}

/// There is a test that passes exactly where a plan's domains are in time.
#[tactic(auto, using(crate::proofs::InTime::tested))]
pub fn domains_in_time_pass_the_test()
    ensures { DomainsInTimePassTheTest }
{}

/// The steps of a domain fill the run from its begin to its end.
#[tactic(auto, using(crate::proofs::WholeSteps::filled))]
pub fn steps_fill_the_run()
    ensures { StepsFillTheRun }
{}

/// Those of a nest fill the steps of its parent from then on.
#[tactic(auto, using(crate::proofs::WholeSteps::within_parents))]
pub fn nests_step_with_their_parents()
    ensures { NestsStepWithTheirParents }
{}
