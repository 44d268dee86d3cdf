//! The field levels of a config, in Registry order, and the extent in z of each.
#![tactic(auto)]

mod dimensions;
mod field_levels;
mod hooks;
mod io;
mod level_lists;
mod streams;

pub use field_levels::levels;
pub use level_lists::Levels;
