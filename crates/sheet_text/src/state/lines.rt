// How a line begins, and how it ends.
ghost use Rattle.std.specs.Prelude.{◌≡◌};
ghost use Rattle.sheet_text.specs.Words.{token};
ghost use Rattle.sheet_text.specs.Keeping.{Went};
ghost use Rattle.sheet_text.specs.Machine.{open_line, open_rule, line_over, comment_word};

use super::{Mode, Section, State};
use crate::first::First;
use crate::word::Word;
use faults::SheetFault;

impl State {
    // The open section and the first word together decide what a line is: a match that
    // changes the state, by the decision on fixed forms.
    pub(crate) fn open_line(&mut self, first: First, place: usize) -> Result<(), SheetFault>
        ensures { Went self.old (open_line self.old first place) result self.new }
    {
        match (self.section, first) {
            (Section::Opening, First::Comment) => self.mode = Mode::Comment,
            (Section::Opening, First::Header) => self.mode = Mode::Form,
            (Section::Quantifiers, First::Quantifier(kind)) => {
                self.mode = Mode::Variables { kind, some: false };
            }
            (Section::Quantifiers | Section::Rules, First::Number) => {
                return self.open_rule(place);
            }
            (Section::Quantifiers | Section::Rules, First::Other) => {
                return Err(SheetFault::NoNumber { place });
            }
            _ => return Err(SheetFault::Word { place }),
        }
        Ok(())
    }

    // At a rule's first word every variable has to be named, and a rule more has
    // to be wanted.
    fn open_rule(&mut self, place: usize) -> Result<(), SheetFault>
        ensures { Went self.old (open_rule self.old place) result self.new }
    {
        if self.named != self.length {
            return Err(SheetFault::Unnamed { place });
        }
        if self.read >= self.rules {
            return Err(SheetFault::RuleCount { place });
        }
        self.section = Section::Rules;
        self.mode = Mode::Literals;
        Ok(())
    }

    pub(crate) fn comment_word(&mut self, word: Word<'_>)
        ensures { self.new ≡ comment_word self.old (token word.entry) }
    {
        if let Word::LineEnd { .. } = word {
            self.mode = Mode::LineStart;
        }
    }

    // After the 0 of a line nothing may follow.
    pub(crate) fn line_over(&mut self, word: Word<'_>) -> Result<(), SheetFault>
        ensures { Went self.old (line_over self.old (token word.entry)) result self.new }
    {
        word.end()?;
        self.mode = Mode::LineStart;
        Ok(())
    }
}
