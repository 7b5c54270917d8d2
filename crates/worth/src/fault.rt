// Why a worth is refused.
ghost use Rattle.std.specs.Prelude.{◌≡◌, Some, codes};
ghost use Rattle.worth.specs.Faults.{refusal};

use std::error::Error;
use std::fmt;

#[derive(Clone, Copy, PartialEq, Eq, Debug)]
pub enum WorthFault {
    // fewer cells than the prefix has positions
    StackTooShort,
}

impl WorthFault {
    // The refusal's number.
    pub fn number(self) -> u8
        ensures { result ≡ refusal self }
    {
        match self {
            WorthFault::StackTooShort => 14,
        }
    }
}

// By hand, since a derived message promises no `output`.
impl fmt::Display for WorthFault {
    ghost output = { λ _. Some (codes "the stack has fewer cells than the prefix has positions") };

    fn fmt<W: fmt::Write>(&self, f: &mut fmt::Formatter<W>) -> fmt::Result {
        write!(f, "the stack has fewer cells than the prefix has positions")
    }
}

impl Error for WorthFault {}
