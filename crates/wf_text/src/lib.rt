//! The logical lines of a text, and the words that stand in them.
//!
//! A text is read as the Registry and the table of this project are written: words parted by
//! spaces and tabs, words in quotes, comments from `#` to the end of the line, and lines that a
//! `\` at their end joins with the next. Lines and columns count from 1; a column counts bytes.
#![tactic(auto)]

mod error;
mod forms;
mod logical;
mod physical;
mod words;

pub use error::TextError;
pub use forms::{
    digits_up_to, is_dash, is_decimal, is_digits, is_false_word, is_number_within, is_true_word,
    is_whole_in_32, lower, upper, whole, whole_in_32,
};
pub use logical::{LinesRead, NextLine, next_line, read_lines, read_until_fault};
