//! The Registry of a run, read from its files.
//!
//! A Registry has an entry for each of its lines that counts, in WRF's kinds. The lines are judged
//! one after another; names that nothing declares are looked for last.
#![tactic(auto)]

mod axes;
mod built_ins;
mod declared;
mod dimspec;
mod error;
mod exchange;
mod field_words;
mod indexing;
mod judging;
mod line;
mod names;
mod package;
mod rconfig;
mod registry;
mod state;
mod unknown;

pub use error::RegistryError;
pub use registry::read_registry;
