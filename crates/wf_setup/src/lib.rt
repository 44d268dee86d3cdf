//! The set-up of a run: its texts, read from a store and judged one after another.
#![tactic(auto)]

mod begin_data;
mod cases;
mod configs;
mod error;
mod input_refusal;
mod laws;
mod line;
mod plan_refusal;
mod refusals;
mod registry_files;
mod sources;

pub use begin_data::read_begin_data;
pub use cases::{Case, read_case};
pub use configs::read_config;
pub use error::{Refused, SetupError};
pub use laws::cases_are_plans_read;
