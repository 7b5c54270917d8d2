// What the reader may want of a word, and the fault where the word is no such thing.
ghost use Rattle.std.specs.Prelude.{◌≡◌};
ghost use Rattle.std.specs.Range.{range_inclusive_start, range_inclusive_end};
ghost use Rattle.sheet_text.specs.Words.{token};
ghost use Rattle.sheet_text.specs.Wanted.{number_in, natural_in, natural_within, end_in, form_of, form_in};

use crate::word::{Number, Word};
use faults::SheetFault;
use sheet::Form;
use std::ops::RangeInclusive;

impl<'a> Word<'a> {
    pub(crate) fn number(self) -> Result<Number, SheetFault>
        ensures { result ≡ number_in (token self.entry) }
    {
        match self {
            Word::Number { number, .. } => Ok(number),
            Word::Letters { place, .. } | Word::LineEnd { place } => {
                Err(SheetFault::NoNumber { place })
            }
        }
    }

    // A number without a minus.
    pub(crate) fn natural(self) -> Result<usize, SheetFault>
        ensures { result ≡ natural_in (token self.entry) }
    {
        let number = self.number()?;
        if number.negative {
            return Err(SheetFault::NoNumber {
                place: self.place(),
            });
        }
        Ok(number.value as usize)
    }

    // A number without a minus, and one within limits.
    pub(crate) fn natural_within(self, limits: RangeInclusive<usize>) -> Result<usize, SheetFault>
        ensures { result ≡ natural_within (range_inclusive_start limits) (range_inclusive_end limits) (token self.entry) }
    {
        let (least, most) = limits.into_inner();
        let value = self.natural()?;
        // after `limits.contains(&value)` the goal `returns-then-not-contains` stays open
        if value < least || value > most {
            return Err(SheetFault::Limit {
                place: self.place(),
            });
        }
        Ok(value)
    }

    // The end of a line.
    pub(crate) fn end(self) -> Result<(), SheetFault>
        ensures { result ≡ end_in (token self.entry) }
    {
        match self {
            Word::LineEnd { .. } => Ok(()),
            Word::Letters { place, .. } | Word::Number { place, .. } => {
                Err(SheetFault::Word { place })
            }
        }
    }

    // How the rules are read together.
    pub(crate) fn form(self) -> Result<Form, SheetFault>
        ensures { result ≡ form_in (token self.entry) }
    {
        match self {
            Word::Letters { text, place } => form_of(text).ok_or(SheetFault::Word { place }),
            Word::Number { place, .. } | Word::LineEnd { place } => Err(SheetFault::Word { place }),
        }
    }
}

// No `TryFrom`: a form and a slice are both types of other crates, and in crate sheet
// nothing else reads bytes.
fn form_of(text: &[u8]) -> Option<Form>
    ensures { result ≡ form_of text.now }
{
    match text {
        b"cnf" => Some(Form::Cnf),
        b"dnf" => Some(Form::Dnf),
        _ => None,
    }
}
