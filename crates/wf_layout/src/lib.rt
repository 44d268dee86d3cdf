//! The layout that a config asks for: how a plan is cut into patches and tiles.
//!
//! No call takes memory.
#![tactic(auto)]

mod asked;
mod cells;
mod judged;
mod patches;

pub use judged::layout;
