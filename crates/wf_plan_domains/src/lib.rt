//! The domains and times of a plan: what a config says of them, and whether they are sound.
#![tactic(auto)]

mod built;
mod domains;
mod error;
mod intervals;
mod nests;
mod numbers;
mod plan;
mod shape;
mod streams;
mod times;

pub use error::PlanError;
pub use plan::domain_plan;
