//! Worked cases of nests.

ghost use Rattle.wf_cases.specs.NestCases.{NestRounding, NestScript, NestStart};

/// Halves go up, also below zero; the points of a cell between its neighbours.
#[tactic(auto, using(crate::proofs::NestCases::nest_rounding))]
pub fn nest_rounding()
    ensures { NestRounding }
{}

/// The order of a run with a nest, from the start and after a restart.
#[tactic(auto, using(crate::proofs::NestCases::nest_script))]
pub fn nest_script()
    ensures { NestScript }
{}

/// A nest's numbers at its start, as a whole and on a patch.
#[tactic(auto, using(crate::proofs::NestCases::nest_start))]
pub fn nest_start()
    ensures { NestStart }
{}
