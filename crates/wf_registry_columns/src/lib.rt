//! The columns of a line of the Registry, and the rules that each keeps by itself.
//!
//! A line has a kind, by its first word, and columns. What is judged here needs no other line, but
//! for the letters of dimensions. The kinds and columns are those of WRF's Registry; which of their
//! forms are supported, and the limits, are this project's own.
#![tactic(auto)]

mod axes;
mod columns;
mod dims;
mod dimspec;
mod groups;
mod io;
mod kinds;
mod package;
mod rconfig;
mod state;
mod words;

pub use axes::Axes;
pub use columns::{column, columns_of, joined_groups, only_byte};
pub use dims::{all_known, dims_fault, stagger_fault};
pub use dimspec::{how_fault, is_axis, is_standard};
pub use groups::{Head, cut, groups_fault};
pub use io::io_fault;
pub use kinds::{LineKind, kind_of, least_columns};
pub use package::{is_package_condition, package_symbol, package_value};
pub use rconfig::{entries_fault, is_default, is_integer, is_rconfig_how, type_fault};
pub use state::{
    is_short, is_state_type, is_two, level_names, staggered, variable_of, variables_of,
};
pub use words::behind;
