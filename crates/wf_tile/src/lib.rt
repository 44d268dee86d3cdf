//! Lists of numbers that are filled tile by tile, side by side in threads.
//!
//! A [`Kernel`] has tiles, counted from 0, and fills the part of a slice that belongs to one of
//! them. [`run_tiles`] lends each tile its part of one slice, so that the whole slice holds the
//! tiles' lists one behind another. A tile may stop at a place, a number that the kernel gives
//! meaning to, and of several stops the least is told.
//!
//! No call takes memory.
#![tactic(auto)]

mod kernel;
mod least;
mod one_tile;
mod run;
mod threads;
mod turn;

pub use kernel::Kernel;
pub use run::run_tiles;
