// Why a book is not checked.
ghost use Rattle.std.specs.Prelude.{◌≡◌, Some};
ghost use Rattle.play.specs.CheckFaults.{refusal, message};

use std::error::Error;
use std::fmt;

#[derive(Clone, Copy, PartialEq, Eq, Debug)]
pub enum CheckFault {
    // the sheet and the book have different prefixes
    PrefixesDiffer,
}

impl CheckFault {
    // The refusal's number.
    pub fn number(self) -> u8
        ensures { result ≡ refusal self }
    {
        match self {
            CheckFault::PrefixesDiffer => 13,
        }
    }
}

impl fmt::Display for CheckFault {
    ghost output = { λ f. Some (message f) };

    fn fmt<W: fmt::Write>(&self, f: &mut fmt::Formatter<W>) -> fmt::Result {
        match self {
            CheckFault::PrefixesDiffer => write!(
                f,
                "the sheet and the book have different prefixes"
            ),
        }
    }
}

impl Error for CheckFault {}
