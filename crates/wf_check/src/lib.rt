//! The halo check: whether each cell that a phase reads holds the grid's number, on every layout.
//! And the restart check.
#![tactic(auto)]

mod checked;
mod columns;
mod error;
mod home;
mod items;
mod levels;
mod nests;
mod place;
mod points;
mod quick;
mod reads;
mod scan;

pub use checked::{Checked, check};
pub use error::HaloError;
pub use wf_restart_check::{NotRestartable, restart_check};
