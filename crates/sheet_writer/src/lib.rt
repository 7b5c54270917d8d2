// Writes a sheet out as text, which reads back as the same sheet.
//
//     let text = write_sheet(heap, reading.form, reading.prefix, rules)?;
#![tactic(auto)]

mod header;
mod quantifier;
mod rule;
pub mod write;

pub use write::write_sheet;
