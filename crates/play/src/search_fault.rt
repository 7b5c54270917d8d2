// Why a sheet is not searched for a book.
ghost use Rattle.std.specs.Prelude.{◌≡◌, Some};
ghost use Rattle.play.specs.SearchFaults.{refusal, message};

use std::error::Error;
use std::fmt;

#[derive(Clone, Copy, PartialEq, Eq, Debug)]
pub enum SearchFault {
    // the sheet and the book have different prefixes
    PrefixesDiffer,
    // fewer cells than the prefix has positions
    StackTooShort,
    // the book has no room
    NoRoom,
    // no policy wins
    NoPolicy,
}

impl SearchFault {
    // The refusal's number.
    pub fn number(self) -> u8
        ensures { result ≡ refusal self }
    {
        match self {
            SearchFault::PrefixesDiffer => 13,
            SearchFault::StackTooShort => 14,
            SearchFault::NoRoom => 15,
            SearchFault::NoPolicy => 16,
        }
    }
}

impl fmt::Display for SearchFault {
    ghost output = { λ f. Some (message f) };

    fn fmt<W: fmt::Write>(&self, f: &mut fmt::Formatter<W>) -> fmt::Result {
        match self {
            SearchFault::PrefixesDiffer => write!(
                f,
                "the sheet and the book have different prefixes"
            ),
            SearchFault::StackTooShort => write!(
                f,
                "the stack has fewer cells than the prefix has positions"
            ),
            SearchFault::NoRoom => write!(f, "the book has no room"),
            SearchFault::NoPolicy => write!(f, "no policy wins"),
        }
    }
}

impl Error for SearchFault {}
