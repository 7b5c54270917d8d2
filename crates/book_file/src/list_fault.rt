// Why a book is not listed.
ghost use Rattle.std.specs.Prelude.{◌≡◌};
ghost use Rattle.book_file.specs.Faults.{list_fault_number, list_fault_place, list_fault_layer};

use faults::Layer;
use thiserror::Error;

#[derive(Clone, Copy, PartialEq, Eq, Debug, Error)]
pub enum ListFault {
    #[error("a table of rows that is too short; it needs a place for each guard that is yes")]
    TableTooShort,
}

impl ListFault {
    // The refusal's number.
    pub fn number(self) -> u8
        ensures { result ≡ list_fault_number self }
    {
        match self {
            ListFault::TableTooShort => 8,
        }
    }

    pub fn place(self) -> usize
        ensures { result ≡ list_fault_place self }
    {
        match self {
            ListFault::TableTooShort => 0,
        }
    }

    pub fn layer(self) -> Layer
        ensures { result ≡ list_fault_layer self }
    {
        Layer::Book
    }
}
