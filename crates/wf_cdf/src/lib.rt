//! Files of the netCDF classic format, versions 1 and 2, written: headers, slabs of numbers
//! and texts.
#![tactic(auto)]

mod header;
mod length;
mod padding;
mod place;
mod size;
mod slab;
mod sound;
mod stream_header;
mod too_long;

pub use header::write_header;
pub use place::place_vars;
pub use slab::{write_chars, write_slab};
pub use sound::{begins_fit, is_sound};
pub use stream_header::{file_header, stream_levels};
pub use too_long::TooLong;
