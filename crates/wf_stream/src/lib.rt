//! The files of a run: what it begins with, read, and its frames, written.
#![tactic(auto)]

mod file_name;
mod frame_calls;
mod frames;
mod input;
mod input_file;
mod levels;
mod own_points;
mod record;
mod slabs;
mod store_calls;
mod writer;

pub use frames::Frames;
pub use input::{InputError, read_input};
pub use writer::{StreamError, Totals, Writer};
