//! A patch's memory: the numbers of all field levels at its own points and at the cells around
//! them.
#![tactic(auto)]

mod making;
mod memory;
mod numbers;
mod rows;
mod sources;
mod sums;

pub use memory::Memory;
