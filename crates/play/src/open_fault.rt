// Why no round is opened.
ghost use Rattle.std.specs.Prelude.{◌≡◌, Some};
ghost use Rattle.play.specs.OpenFaults.{refusal, refusal_verdict, message};
ghost use Rattle.play.specs.declared.open_fault.OpenFault.TheVariants.{Check};

use crate::check_fault::CheckFault;
use crate::verdict::{Checked, Verdict};
use std::error::Error;
use std::fmt;

#[derive(Clone, Copy, PartialEq, Eq, Debug)]
pub enum OpenFault {
    // the book cannot be checked
    Check(CheckFault),
    // the book is not accepted; what checking it came to
    NotAccepted(Checked),
}

impl OpenFault {
    // The refusal's number.
    pub fn number(self) -> u8
        ensures { result ≡ refusal self }
    {
        match self {
            OpenFault::Check(fault) => fault.number(),
            OpenFault::NotAccepted(_) => 17,
        }
    }

    // The verdict on the book, where that is the reason.
    pub fn verdict(self) -> Option<Verdict>
        ensures { result ≡ refusal_verdict self }
    {
        match self {
            OpenFault::Check(_) => None,
            OpenFault::NotAccepted(checked) => Some(checked.verdict),
        }
    }
}

impl fmt::Display for OpenFault {
    ghost output = { λ f. Some (message f) };

    fn fmt<W: fmt::Write>(&self, f: &mut fmt::Formatter<W>) -> fmt::Result {
        match self {
            OpenFault::Check(fault) => write!(f, "{fault}"),
            OpenFault::NotAccepted(checked) => {
                let verdict = checked.verdict;
                write!(f, "the book is not accepted: {verdict}")
            }
        }
    }
}

impl From<CheckFault> for OpenFault {
    ghost from_gives = { λ fault r. r ≡ Check fault };

    fn from(fault: CheckFault) -> OpenFault {
        OpenFault::Check(fault)
    }
}

impl Error for OpenFault {}
