//! Worked cases from the texts of a run to its refusal, or to what `check` prints.

ghost use Rattle.wf_cases.specs.ChainCases.{MissingTexts, NamelistRefusals, NestRefusals};
ghost use Rattle.wf_cases.specs.ChainCases.{LenientNamelist, InactiveRealState, Commands};
ghost use Rattle.wf_cases.specs.PlanCases.{ReadsAtTheEdge};

/// A store without a Registry, and an include that no store can have.
#[tactic(auto, using(crate::proofs::ChainCases::missing_texts))]
pub fn missing_texts()
    ensures { MissingTexts }
{}

/// A namelist or a config is refused with the line or the name.
#[tactic(auto, using(crate::proofs::ChainCases::namelist_refusals))]
pub fn namelist_refusals()
    ensures { NamelistRefusals }
{}

/// A nest of an even ratio, one at its parent's edge, and one of an odd size.
#[tactic(auto, using(crate::proofs::ChainCases::nest_refusals))]
pub fn nest_refusals()
    ensures { NestRefusals }
{}

/// What a namelist of WRF may have besides is accepted.
#[tactic(auto, using(crate::proofs::ChainCases::lenient_namelist))]
pub fn lenient_namelist()
    ensures { LenientNamelist }
{}

/// A real field is refused only where it is active.
#[tactic(auto, using(crate::proofs::ChainCases::inactive_real_state))]
pub fn inactive_real_state()
    ensures { InactiveRealState }
{}

/// What `check` prints of the base case, and a demo of more patches than columns.
#[tactic(auto, using(crate::proofs::ChainCases::commands))]
pub fn commands()
    ensures { Commands }
{}

/// A read past the edge, one inside by a margin, and a region without points.
#[tactic(auto, using(crate::proofs::PlanCases::reads_at_the_edge))]
pub fn reads_at_the_edge()
    ensures { ReadsAtTheEdge }
{}
