// The records of a list book.
ghost use Rattle.std.specs.Prelude.{◌≡◌};
ghost use Rattle.book.specs.Records.{is_of, says, first_record, turned};

use crate::side::Side;

// Both guards of one point: a reply's position, and the number of a setting before it.
#[derive(Clone, Copy, Default, PartialEq, Eq, Debug)]
pub struct Record {
    pub position: usize,
    pub setting: usize,
    pub on: bool,
    pub off: bool,
}

impl Record {
    // The record of a point with one guard yes.
    pub(crate) fn first(side: Side, position: usize, setting: usize) -> Record
        ensures { result ≡ first_record side position setting }
    {
        Record {
            position,
            setting,
            on: side == Side::On,
            off: side == Side::Off,
        }
    }

    // Whether it is the record of a point.
    pub(crate) fn is_of(self, position: usize, setting: usize) -> bool
        ensures { result ≡ is_of position setting self }
    {
        self.position == position && self.setting == setting
    }

    // What it says for a side.
    pub(crate) fn says(self, side: Side) -> bool
        ensures { result ≡ says side self }
    {
        match side {
            Side::On => self.on,
            Side::Off => self.off,
        }
    }

    // The record with the guard of a side yes.
    pub(crate) fn turned(self, side: Side) -> Record
        ensures { result ≡ turned side self }
    {
        match side {
            Side::On => Record { on: true, ..self },
            Side::Off => Record { off: true, ..self },
        }
    }
}
