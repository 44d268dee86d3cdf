//! Whole domains, stepped point by point.
//!
//! What is stepped here knows no patch: it is the meaning of a run. Only one domain runs for now.
#![tactic(auto)]

mod extents;
mod file_shape;
mod item;
mod phase;
mod sizes;
mod stepping;
mod surroundings;
mod whole;

pub use whole::Whole;
