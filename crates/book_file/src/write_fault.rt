// Why rows are not written.
ghost use Rattle.std.specs.Prelude.{◌≡◌};
ghost use Rattle.book_file.specs.Faults.{write_fault_number, write_fault_place, write_fault_layer};

use faults::Layer;
use thiserror::Error;

#[derive(Clone, Copy, PartialEq, Eq, Debug, Error)]
pub enum WriteFault {
    // by its index, from 0
    #[error("row {index} (from 0): no file may have it; a file has at most 65535 rows, and each is well made")]
    Row { index: usize },
    #[error("a buffer that is too short; it needs a place for each byte of the file")]
    BufferTooShort,
}

impl WriteFault {
    // The refusal's number.
    pub fn number(self) -> u8
        ensures { result ≡ write_fault_number self }
    {
        match self {
            WriteFault::Row { .. } => 10,
            WriteFault::BufferTooShort => 12,
        }
    }

    // The index of the row at fault; 0 where no row is.
    pub fn place(self) -> usize
        ensures { result ≡ write_fault_place self }
    {
        match self {
            WriteFault::Row { index } => index,
            WriteFault::BufferTooShort => 0,
        }
    }

    pub fn layer(self) -> Layer
        ensures { result ≡ write_fault_layer self }
    {
        Layer::Book
    }
}
