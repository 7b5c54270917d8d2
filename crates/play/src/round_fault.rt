// Why a call of a round is refused.
ghost use Rattle.std.specs.Prelude.{◌≡◌, Some};
ghost use Rattle.play.specs.RoundFaults.{refusal, message};

use std::error::Error;
use std::fmt;

#[derive(Clone, Copy, PartialEq, Eq, Debug)]
pub enum RoundFault {
    // every position has its value
    Complete,
    // the next position is the other side's
    OtherTurn,
    // fewer values stand than are to be kept
    BackTooFar,
}

impl RoundFault {
    // The refusal's number.
    pub fn number(self) -> u8
        ensures { result ≡ refusal self }
    {
        match self {
            RoundFault::Complete => 18,
            RoundFault::OtherTurn => 19,
            RoundFault::BackTooFar => 20,
        }
    }
}

impl fmt::Display for RoundFault {
    ghost output = { λ f. Some (message f) };

    fn fmt<W: fmt::Write>(&self, f: &mut fmt::Formatter<W>) -> fmt::Result {
        match self {
            RoundFault::Complete => write!(f, "the round is complete"),
            RoundFault::OtherTurn => write!(f, "it is the other side's turn"),
            RoundFault::BackTooFar => write!(f, "fewer values stand than are to be kept"),
        }
    }
}

impl Error for RoundFault {}
