//! What a Registry and a namelist say together: the values of each name and the active fields, and
//! the names that a stencil table may use.
#![tactic(auto)]

mod active;
mod binding;
mod built_ins;
mod copies;
mod error;
mod faults;
mod given;
mod parts;
mod rconfig;
mod rule;
mod table_names;
mod values;
mod words;

pub use binding::bind;
pub use error::ConfigError;
pub use table_names::names;
