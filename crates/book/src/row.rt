// Rows: at which settings before a reply a guard of that reply is yes.
ghost use Rattle.std.specs.Prelude.{◌≡◌, ℕ, true, Decides};
ghost use Rattle.prefix.specs.Bits.{mask_value};
ghost use Rattle.prefix.specs.Lines.{setting_before};
ghost use Rattle.book.specs.Rows.{WellMade, Agrees};
ghost use Rattle.book.specs.RowGuards.{within, well_made, row_agrees};

use crate::side::Side;
use prefix::{Line, Prefix};

// A row of the reply at `position`. Bit k - 1 of `looked_at` is on where it looks at the
// report at position k, and then bit k - 1 of `wanted_on` is the value wanted there. Masks
// and no list of options, since a book may have thousands of rows and a question goes
// through them all.
#[derive(Clone, Copy, PartialEq, Eq, Debug)]
pub struct Row {
    pub position: usize,
    pub side: Side,
    pub looked_at: u32,
    pub wanted_on: u32,
}

impl Row {
    // Whether the row is one over this prefix: it is a reply's, looks at reports before
    // that reply alone, and wants nothing on where it does not look.
    pub fn is_well_made(self, prefix: Prefix) -> bool
        ensures value { result ≡ well_made prefix self }
        ensures meaning { Decides result (WellMade prefix self) }
    {
        prefix.is_reply(self.position)
            && is_within(self.looked_at, prefix.report_mask_before(self.position))
            && is_within(self.wanted_on, self.looked_at)
    }

    // Whether the row is well made and each report that it looks at has the value wanted
    // there.
    #[tactic(auto, using(crate::proofs::Rows::agrees_decides))]
    pub fn agrees(self, prefix: Prefix, line: Line) -> bool
        ensures value { result ≡ row_agrees prefix self (setting_before prefix self.position line.mask) }
        ensures meaning { Decides result (Agrees prefix self line.mask) }
    {
        if !self.is_well_made(prefix) {
            return false;
        }
        // by `for`, as docs/DECISIONS.md says of fixed forms
        for position in 1..self.position {
            if !self.agrees_at(position, line) {
                return false;
            }
        }
        true
    }

    // Whether the row does not look at a position, or wants the line's value there.
    fn agrees_at(self, position: usize, line: Line) -> bool
        ensures { Decides result (mask_value self.looked_at position ≡ true → mask_value line.mask position ≡ mask_value self.wanted_on position) }
    {
        !Line::from_mask(self.looked_at).value(position)
            || line.value(position) == Line::from_mask(self.wanted_on).value(position)
    }
}

// Whether each position that is on in one mask is on in the other.
#[tactic(auto, using(crate::proofs::Rows::within_decides))]
fn is_within(inner: u32, outer: u32) -> bool
    ensures value { result ≡ within inner outer }
    ensures meaning { Decides result ((k : ℕ) → mask_value inner k ≡ true → mask_value outer k ≡ true) }
{
    inner & outer == inner
}
