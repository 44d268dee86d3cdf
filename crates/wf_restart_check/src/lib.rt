//! The restart check: whether restart files hold each level that a run uses before it writes all of
//! it.
#![tactic(auto)]

mod checked;
mod deeds;
mod fate;
mod fields;
mod items;
mod reads;
mod steps;

pub use checked::{NotRestartable, restart_check};
