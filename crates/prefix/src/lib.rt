// Quantifier prefixes and lines, and the model that every crate above speaks:
// kinds, settings and their numbers, points, policies, a policy's line.
#![tactic(auto)]

pub mod kind;
pub mod line;
pub mod part_line;
pub mod prefix;

pub use kind::Kind;
pub use line::{Line, first_positions};
pub use part_line::PartLine;
pub use prefix::Prefix;
