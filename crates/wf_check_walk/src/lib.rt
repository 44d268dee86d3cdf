//! The halo rule at one cell of one patch of one point: what the patch owns, what a halo or a
//! period sets there, and the walk back from a read over the items of the table.
#![tactic(auto)]

mod cell;
mod directions;
mod fields;
mod met;
mod nests;
mod own;
mod patch;
mod regions;
mod shapes;
mod walk;

pub use cell::Cell;
pub use directions::Span;
pub use fields::{is_fed, is_forced, is_staggered_x, is_staggered_y, level_at, levels_z};
pub use nests::has_nests;
pub use own::{own_x, own_y};
pub use patch::Patch;
pub use regions::is_phase_level;
pub use walk::{Question, is_cell_covered};
