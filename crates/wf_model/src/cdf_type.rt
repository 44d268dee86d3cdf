//! The numbers by which the netCDF classic format tells the types of values.

/// Text.
pub const CHAR: u8 = 2;
/// Whole numbers of 32 bits.
pub const INT: u8 = 4;
