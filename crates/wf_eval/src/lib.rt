//! The value of an expression of the stencil table at a point.
//!
//! Each part of an expression that is evaluated is a whole number of 64 bits, and the whole is a
//! number of 32 bits, as a field holds it. Where a number does not fit, the expression overflows at
//! that point.
#![tactic(auto)]

mod arguments;
mod arithmetic;
mod evaluation;
mod overflow;
mod reader;

pub use evaluation::eval;
pub use overflow::Overflow;
pub use reader::Reader;
