//! The stored functions that the programs ship: their names, what they accept and what they answer.
#![tactic(auto)]

mod answers;
mod names;
mod shipped;

pub use answers::shipped_answer;
pub use names::shipped_names;
pub use shipped::Shipped;
