// What a person is told of an input that was refused.
ghost use Rattle.std.specs.Prelude.{◌≡◌, take};
ghost use Rattle.faults.specs.Faults.{sheet_place};
ghost use Rattle.jobs.specs.Inputs.{taken as counted};
ghost use Rattle.jobs.specs.Positions.{EndsAt};

use crate::input::taken;
use crate::position::TextPosition;
use faults::SheetFault;
use std::fmt;

// Where the fault is, and the fault itself, whose message says how to mend it.
#[derive(Clone, Copy, PartialEq, Eq, Debug)]
pub struct Explanation {
    pub position: TextPosition,
    pub fault: SheetFault,
}

impl Explanation {
    // Of a fault that was met in this input.
    pub fn of(input: &[u8], fault: SheetFault) -> Explanation
        ensures position { EndsAt (take (sheet_place fault) (counted input.now)) result.position }
        ensures same { result.fault ≡ fault }
    {
        Explanation {
            position: TextPosition::of(taken(input), fault.place()),
            fault,
        }
    }
}

// One line.
impl fmt::Display for Explanation {
    fn fmt<W: fmt::Write>(&self, f: &mut fmt::Formatter<W>) -> fmt::Result {
        let Explanation { position, fault } = *self;
        write!(f, "{position}: {fault}")
    }
}
