// Books as files: numbers in groups of seven bits, which say a prefix and rows. Only the bytes
// that `write_rows` writes are read, so that one book has one file.
//
//     let size = write_rows(prefix, &rows, &mut buffer)?;
//     let reading = read_rows(&buffer[..size], &mut table)?; // the same prefix and rows
#![tactic(auto)]

mod cursor;
pub mod fault;
pub mod field;
pub mod list;
pub mod list_fault;
pub mod number;
pub mod read;
pub mod reading;
mod table;
pub mod write;
pub mod write_fault;

pub use fault::BookFault;
pub use field::Field;
pub use list::list_rows;
pub use list_fault::ListFault;
pub use read::read_rows;
pub use reading::Reading;
pub use write::write_rows;
pub use write_fault::WriteFault;
