// A reader takes a word.
ghost use Rattle.std.specs.Prelude.{◌≡◌};
ghost use Rattle.sheet_text.specs.Words.{token};
ghost use Rattle.sheet_text.specs.Keeping.{Gave};
ghost use Rattle.sheet_text.specs.Machine.{start, start_word, step};

use super::Reader;
use crate::first::First;
use crate::state::{Mode, State};
use crate::taken::Taken;
use crate::word::Word;
use faults::SheetFault;

impl Reader {
    // A reader that has seen nothing.
    pub(crate) fn new() -> Reader
        ensures { result.state ≡ start }
    {
        Reader {
            state: State::new(),
        }
    }

    // Takes the next word, by the word that it waits for: a match on the mode, by the
    // decision on fixed forms.
    pub(crate) fn take(&mut self, word: Word<'_>) -> Result<Option<Taken>, SheetFault>
        ensures { Gave (step self.old.state (token word.entry)) result self.new.state }
    {
        match self.state.mode {
            Mode::LineStart => return self.start_word(word),
            Mode::Literals => return self.literal_word(word),
            Mode::Comment => self.state.comment_word(word),
            Mode::Form => self.state.form_word(word)?,
            Mode::Length => self.state.length_word(word)?,
            Mode::RuleCount => self.state.rule_count_word(word)?,
            Mode::HeaderEnd => self.state.header_end(word)?,
            Mode::Variables { kind, some } => self.variable_word(kind, some, word)?,
            Mode::LineEnd => self.state.line_over(word)?,
        }
        Ok(None)
    }

    // The first word of a line; a line without words is passed over. In a rule
    // the first word is its first literal already, or its 0.
    fn start_word(&mut self, word: Word<'_>) -> Result<Option<Taken>, SheetFault>
        ensures { Gave (start_word self.old.state (token word.entry)) result self.new.state }
    {
        if let Word::LineEnd { .. } = word {
            return Ok(None);
        }
        self.state.open_line(First::from(word), word.place())?;
        // the mode that the line has opened
        match self.state.mode {
            Mode::Literals => self.literal_word(word),
            _ => Ok(None),
        }
    }
}
