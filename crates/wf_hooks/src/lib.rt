//! Stored functions: a table of their names and of the closure that answers their calls.
#![tactic(auto)]

mod answering;
mod error;
mod meanings;
mod repeated;
mod table;

pub use answering::Answering;
pub use error::HookError;
pub use meanings::Meanings;
pub use table::HookTable;
