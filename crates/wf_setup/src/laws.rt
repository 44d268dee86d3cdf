//! A law of cases.

ghost use Rattle.wf_setup.specs.CaseLaws.{CasesArePlansRead};

/// The case of a store's files is their config and plan with the restart rule, and a refusal of the
/// one is that of the other: no case that is accepted uses restart.
pub fn cases_are_plans_read()
    ensures { CasesArePlansRead }
{}
