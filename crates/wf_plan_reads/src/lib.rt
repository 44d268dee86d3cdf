//! What the phases of a plan read: whether it keeps within the levels and the extents of fields.
#![tactic(auto)]

mod bounds;
mod faults;
mod fields;
mod regions;
mod walk;

pub use faults::read_fault;
