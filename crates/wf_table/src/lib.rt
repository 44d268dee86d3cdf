//! The stencil table: from text to items, or its first refusal.
#![tactic(auto)]

mod error;
mod expression;
mod factor;
mod item;
mod names;
mod place;
mod start;
mod table;
mod tokens;
mod tree;

pub use error::TableError;
pub use table::read_table;
