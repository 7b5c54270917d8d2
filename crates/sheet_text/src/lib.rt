// Reads the text of a sheet, with the refusals 1 to 8.
//
//     let mut table = [Rule::empty(); MOST_RULES]; // the caller's memory
//     let reading = read_sheet(b"p cnf 1 0\ne 1 0\n", &mut table)?;
//     let rules = &table[..reading.rules];
//
// docs/FORMATS.md says what a text looks like.
#![tactic(auto)]

pub(crate) mod draft;
pub(crate) mod first;
pub(crate) mod lexer;
pub mod read;
pub(crate) mod reader;
pub mod reading;
pub(crate) mod state;
pub(crate) mod taken;
pub(crate) mod variable;
pub(crate) mod wanted;
pub(crate) mod word;

pub use read::read_sheet;
pub use reading::Reading;
