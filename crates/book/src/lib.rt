// Books: for each reply a guard for on and a guard for off, for every way of keeping them,
// and three ways at hand: rows, a table of bits, and a list of records.
//
//     let book = RowBook::new(prefix, &rows);
//     book.on(4, line) // is its on-guard at position 4 yes, at the reports of this line?
#![tactic(auto)]

pub mod book;
pub mod copy;
pub mod fault;
pub mod fillable;
pub mod list_book;
pub mod record;
pub mod row;
pub mod row_book;
pub mod side;
pub mod table_book;

pub use book::Book;
pub use copy::copy_into;
pub use fault::CopyFault;
pub use fillable::FillableBook;
pub use list_book::ListBook;
pub use record::Record;
pub use row::Row;
pub use row_book::RowBook;
pub use side::Side;
pub use table_book::TableBook;
