//! The limits of a plan: its field levels, extents, cells, items of the script and bytes of files.
#![tactic(auto)]

mod cells;
mod files;
mod found;
mod limits;
mod ranged;
mod script;

pub use limits::limit_fault;
