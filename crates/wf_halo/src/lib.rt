//! The messages of halos and periods between the patches of a domain.
//!
//! [`pack`] makes the message of an item of the script from a patch's memory, with the numbers that
//! the run has there, and [`unpack`] sets the cells that a message brings, and no others. A cell
//! outside the domain, in a periodic direction, stands for the point that it wraps to.
#![tactic(auto)]

mod exchange;
mod packing;
mod parts;
mod receiving;
mod sending;
mod unpacking;

pub use receiving::unpack;
pub use sending::pack;
