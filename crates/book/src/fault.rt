// Why a book is not copied.
ghost use Rattle.std.specs.Prelude.{◌≡◌, Some};
ghost use Rattle.book.specs.Faults.{refusal, message};

use std::error::Error;
use std::fmt;

#[derive(Clone, Copy, PartialEq, Eq, Debug)]
pub enum CopyFault {
    // the two books have different prefixes
    PrefixesDiffer,
    // the book to fill has no room
    NoRoom,
}

impl CopyFault {
    // The refusal's number.
    pub fn number(self) -> u8
        ensures { result ≡ refusal self }
    {
        match self {
            CopyFault::PrefixesDiffer => 13,
            CopyFault::NoRoom => 15,
        }
    }
}

impl fmt::Display for CopyFault {
    ghost output = { λ f. Some (message f) };

    fn fmt<W: fmt::Write>(&self, f: &mut fmt::Formatter<W>) -> fmt::Result {
        match self {
            CopyFault::PrefixesDiffer => write!(f, "the two books have different prefixes"),
            CopyFault::NoRoom => write!(f, "the book to fill has no room"),
        }
    }
}

impl Error for CopyFault {}
