//! The top calls: from a command's words to its files, its text and its status.
#![tactic(auto)]

mod case;
mod cells;
mod check_text;
mod checks;
mod frames;
mod header;
mod memory;
mod patch;
mod patches;
mod plain;
mod record;
mod run_text;
mod say;
mod text;
mod top;
mod words;
mod writes;

pub use top::tool_main;
