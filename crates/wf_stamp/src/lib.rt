//! Moments of the years 1 to 9999 to the second, and their texts of 19 characters,
//! as `2000-01-01_00:00:00`.
//!
//! The calendar is the Gregorian one, extended to every year from 1 on: a year has 366 days where 4
//! divides it, but of the years that 100 divides only where 400 does. Years, months and days count
//! from 1, hours, minutes and seconds from 0. A day has 86,400 seconds: there are no leap seconds
//! and no time zones. The text's form is that of the times in WRF's files: year, month and day with
//! `-` between, `_`, and hour, minute and second with `:` between.
//!
//! No call takes memory.
#![tactic(auto)]

mod stamp_error;
mod stamps;
mod texts;

pub use stamp_error::StampError;
pub use stamps::{Stamp, between};
pub use texts::{read_stamp, stamp_text};
