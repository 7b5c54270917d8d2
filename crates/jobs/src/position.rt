// Where a place of a text is, as a person counts.
ghost use Rattle.std.specs.Prelude.{take, Some};
ghost use Rattle.jobs.specs.Positions.{EndsAt, position_text};

use std::fmt;

// Lines and columns count from 1; a column is a byte.
#[derive(Clone, Copy, PartialEq, Eq, Debug)]
pub struct TextPosition {
    pub line: usize,
    pub column: usize,
}

impl TextPosition {
    // The position of a place; one past the end of the text is read as its end.
    pub fn of(text: &[u8], place: usize) -> TextPosition
        ensures { EndsAt (take place text.now) result }
    {
        TextPosition::after(text.get(..place).unwrap_or(text))
    }

    // The position right after these bytes.
    pub fn after(bytes: &[u8]) -> TextPosition
        ensures { EndsAt bytes.now result }
    {
        let since = bytes
            .iter()
            .rev()
            .take_while(|byte| **byte != b'\n')
            .count();
        // these have no line end, and are not gone over again
        let lines = &bytes[..bytes.len() - since];
        let line_ends = lines.iter().filter(|byte| **byte == b'\n').count();
        TextPosition {
            line: line_ends + 1,
            column: since + 1,
        }
    }
}

impl fmt::Display for TextPosition {
    ghost output = { λ p. Some (position_text p) };

    fn fmt<W: fmt::Write>(&self, f: &mut fmt::Formatter<W>) -> fmt::Result {
        let TextPosition { line, column } = *self;
        write!(f, "line {line}, column {column}")
    }
}
