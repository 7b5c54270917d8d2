// The calls of a round as values, and what they answer.
ghost use Rattle.std.specs.Prelude.{◌≡◌};
ghost use Rattle.play.specs.Answers.{answer_number, answer_value};

use crate::round_fault::RoundFault;

// A call of a round, with its argument.
#[derive(Clone, Copy, PartialEq, Eq, Debug)]
pub enum Call {
    // the door tells the next report's value
    Tell(bool),
    // the box gives the next reply's value
    Reply,
    // only the first values are kept, as many as this
    Back(usize),
}

// What a call answers.
#[derive(Clone, Copy, PartialEq, Eq, Debug)]
pub enum Answer {
    Told,
    // with this value
    Replied(bool),
    WentBack,
    Refused(RoundFault),
}

impl Answer {
    // A number for each answer; a refusal has its own.
    pub fn number(self) -> u8
        ensures { result ≡ answer_number self }
    {
        match self {
            Answer::Told => 0,
            Answer::Replied(_) => 1,
            Answer::WentBack => 2,
            Answer::Refused(fault) => fault.number(),
        }
    }

    // The value that was replied, if one was.
    pub fn value(self) -> Option<bool>
        ensures { result ≡ answer_value self }
    {
        match self {
            Answer::Replied(on) => Some(on),
            Answer::Told | Answer::WentBack | Answer::Refused(_) => None,
        }
    }
}
