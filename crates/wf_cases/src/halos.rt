//! Worked cases of the halo rule.

ghost use Rattle.wf_cases.specs.AcceptedCases.{AcceptedPlans};
ghost use Rattle.wf_cases.specs.FewCases.{FewColumns, OneColumnFails};
ghost use Rattle.wf_cases.specs.HaloCases.{CornerAfterCross, ExtendAtTheEdge, PeriodicRow};
ghost use Rattle.wf_cases.specs.HaloCases.{TwoPatchesAway, FeedbackWrites};

/// A corner isn't covered after a halo of 4 points, and is after one of 8.
#[tactic(auto, using(crate::proofs::HaloCases::corner_after_cross))]
pub fn corner_after_cross()
    ensures { CornerAfterCross }
{}

/// An extended phase covers no cell outside its region.
#[tactic(auto, using(crate::proofs::HaloCases::extend_at_the_edge))]
pub fn extend_at_the_edge()
    ensures { ExtendAtTheEdge }
{}

/// In a periodic row a read of the neighbour wants a period besides the halo.
#[tactic(auto, using(crate::proofs::HaloCases::periodic_row))]
pub fn periodic_row()
    ensures { PeriodicRow }
{}

/// A read at a distance wants a halo of as many rows.
#[tactic(auto, using(crate::proofs::HaloCases::two_patches_away))]
pub fn two_patches_away()
    ensures { TwoPatchesAway }
{}

/// A feedback writes the levels with its letter.
#[tactic(auto, using(crate::proofs::HaloCases::feedback_writes))]
pub fn feedback_writes()
    ensures { FeedbackWrites }
{}

/// A plan with a nest, and one that wraps: both are sound, and the check accepts them.
#[tactic(auto, using(crate::proofs::AcceptedCases::accepted_plans))]
pub fn accepted_plans()
    ensures { AcceptedPlans }
{}

/// The few columns that the check looks at tell what all of them tell.
#[tactic(auto, using(crate::proofs::FewCases::few_columns))]
pub fn few_columns()
    ensures { FewColumns }
{}

/// A read that one column alone refuses.
#[tactic(auto, using(crate::proofs::FewCases::one_column_fails))]
pub fn one_column_fails()
    ensures { OneColumnFails }
{}
