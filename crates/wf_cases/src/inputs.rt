//! Worked cases of input and restart files.

ghost use Rattle.wf_cases.specs.InputCases.{CutInput, HostileBytes, RestartInput};

/// The base case's input, whole and cut.
#[tactic(auto, using(crate::proofs::InputCases::cut_input))]
pub fn cut_input()
    ensures { CutInput }
{}

/// An input with a number or a byte replaced is refused with the kind and the place.
pub fn hostile_bytes()
    ensures { HostileBytes }
{}

/// A restart file that leads to the restart's time, and some that don't.
#[tactic(auto, using(crate::proofs::InputCases::restart_input))]
pub fn restart_input()
    ensures { RestartInput }
{}
