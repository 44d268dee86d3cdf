//! The plan of a run: what a config and a stencil table say, or why they have no plan.
#![tactic(auto)]

mod planning;

pub use planning::plan;
pub use wf_layout::layout;
pub use wf_plan_domains::PlanError;
