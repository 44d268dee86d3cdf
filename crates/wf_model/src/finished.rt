use crate::list::{Bytes, List};
use crate::point::Point;

/// What a run that ended in its files has to tell: files created, records written, bytes appended
/// to files after the headers, and the sum of these bytes as numbers; and of each patch in order
/// its domain, its number, and the count and sum of all its memory cells. There are no memories
/// where whole domains were stepped.
#[derive(Drop)]
pub struct Finished {
    pub files: u64,
    pub records: u64,
    pub bytes: u64,
    pub sum: u64,
    pub memories: List<(u32, u32, u64, i128)>,
}

/// Why a run did not end in its files: its first overflow, a counted fault of the store on the file
/// of that name, or want of memory.
#[derive(Drop)]
pub enum CoreError {
    Overflow { point: Point },
    Store { name: Bytes },
    Memory,
}
