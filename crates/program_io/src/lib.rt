// What the programs read, and how they refuse it.
#![tactic(auto)]

mod reading;
mod refusing;

pub use reading::read_input;
pub use refusing::{print_refusal, refuse};
