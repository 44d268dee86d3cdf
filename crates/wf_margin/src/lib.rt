//! How far the memory of a patch goes beyond its own points: as far as the items of the plan reach.
//!
//! No call takes memory.
#![tactic(auto)]

mod margins;
mod reaches;

pub use margins::margin;
