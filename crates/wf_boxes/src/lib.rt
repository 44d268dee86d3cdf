//! Where the points and cells of patches lie: a patch's own points of a field level, the box that
//! it reaches around them, and the cells that it keeps, each with its place in its level's list.
//!
//! No call takes memory.
#![tactic(auto)]

mod boxes;
mod places;
mod points;

pub use boxes::{Patch, memory_box, own_box, reached_box};
pub use places::{LevelBox, count, level_box, place};
pub use points::point_of;
