// Why a book's file is not read.
ghost use Rattle.std.specs.Prelude.{◌≡◌};
ghost use Rattle.book_file.specs.Faults.{book_fault_number, book_fault_place, book_fault_layer};

use crate::field::Field;
use faults::Layer;
use thiserror::Error;

// A place is that of a number's first byte, in bytes from 0; the file's length where the file
// ends before the number. Of a fault in the file each message says where it is, what is wrong,
// and after the semicolon what is wanted.
#[derive(Clone, Copy, PartialEq, Eq, Debug, Error)]
pub enum BookFault {
    #[error("byte {place}, {field}: the file ends here, or no number stands here; one has one to four bytes, 128 or more in each but the last, below 128 in the last, and a last byte of 0 only in the number 0")]
    Number { place: usize, field: Field },
    #[error("byte {place}, {field}: a number that may not stand here; {}", .field.values())]
    Value { place: usize, field: Field },
    #[error("byte {place}: bytes after the last row; as many rows as the number of rows says, and nothing after them")]
    ExtraBytes { place: usize },
    // the caller's table
    #[error("a table of rows that is too short; it needs a place for each row of the file")]
    TableTooShort,
}

impl BookFault {
    // The refusal's number.
    pub fn number(self) -> u8
        ensures { result ≡ book_fault_number self }
    {
        match self {
            BookFault::Number { .. } => 9,
            BookFault::Value { .. } => 10,
            BookFault::ExtraBytes { .. } => 11,
            BookFault::TableTooShort => 8,
        }
    }

    // Where in the file; 0 where the file is not at fault.
    pub fn place(self) -> usize
        ensures { result ≡ book_fault_place self }
    {
        match self {
            BookFault::Number { place, .. }
            | BookFault::Value { place, .. }
            | BookFault::ExtraBytes { place } => place,
            BookFault::TableTooShort => 0,
        }
    }

    pub fn layer(self) -> Layer
        ensures { result ≡ book_fault_layer self }
    {
        Layer::Book
    }
}
