// The header line: p, then cnf or dnf, the number of variables, the number of
// rules.
ghost use Rattle.std.specs.Prelude.{◌≡◌};
ghost use Rattle.sheet_text.specs.Words.{token};
ghost use Rattle.sheet_text.specs.Keeping.{Went};
ghost use Rattle.sheet_text.specs.Machine.{form_word, length_word, rule_count_word, header_end};

use super::{Mode, Section, State};
use crate::word::Word;
use faults::SheetFault;
use prefix::Prefix;
use sheet::rule::MOST_RULES;

impl State {
    pub(crate) fn form_word(&mut self, word: Word<'_>) -> Result<(), SheetFault>
        ensures { Went self.old (form_word self.old (token word.entry)) result self.new }
    {
        self.form = word.form()?;
        self.mode = Mode::Length;
        Ok(())
    }

    pub(crate) fn length_word(&mut self, word: Word<'_>) -> Result<(), SheetFault>
        ensures { Went self.old (length_word self.old (token word.entry)) result self.new }
    {
        self.length = word.natural_within(1..=Prefix::MOST_POSITIONS)?;
        self.mode = Mode::RuleCount;
        Ok(())
    }

    pub(crate) fn rule_count_word(&mut self, word: Word<'_>) -> Result<(), SheetFault>
        ensures { Went self.old (rule_count_word self.old (token word.entry)) result self.new }
    {
        self.rules = word.natural_within(0..=MOST_RULES)?;
        self.mode = Mode::HeaderEnd;
        Ok(())
    }

    pub(crate) fn header_end(&mut self, word: Word<'_>) -> Result<(), SheetFault>
        ensures { Went self.old (header_end self.old (token word.entry)) result self.new }
    {
        word.end()?;
        self.section = Section::Quantifiers;
        self.mode = Mode::LineStart;
        Ok(())
    }
}
