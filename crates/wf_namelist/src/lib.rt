//! The namelist of a run, as Fortran writes it.
//!
//! A text is scanned to its tokens, which know their lines; groups, items and values are read over
//! the tokens; and of items that are repeated the last are kept, found by a hash set. Each step
//! takes time linear in the text.
#![tactic(auto)]

mod error;
mod group;
mod item;
mod last;
mod namelist;
mod place;
mod quoted;
mod reading;
mod scan;
mod step;
mod token;
mod values;

pub use error::NamelistError;
pub use namelist::read_namelist;
