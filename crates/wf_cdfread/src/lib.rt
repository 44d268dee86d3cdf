//! Files of the netCDF classic format, versions 1 and 2, read: headers, slabs of numbers and texts.
#![tactic(auto)]

mod error;
mod header;
mod number;
mod part;
mod size;
mod values;

pub use error::{HeaderError, ValuesError};
pub use header::read_header;
pub use values::{chars, find_slab, slab};
