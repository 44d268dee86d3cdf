//! The words of a command line after the name of a command, read as WRF's tools read options.
#![tactic(auto)]

mod command;
mod commands;
mod defines;
mod error;

pub use commands::{check_words, plain_words, words_of_check, words_of_plain};
pub use error::WordsError;
