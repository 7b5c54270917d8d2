// The fields of a book's file, one number each.
ghost use Rattle.std.specs.Prelude.{Some};
ghost use Rattle.book_file.specs.FieldWords.{field_text};

use std::fmt;

// In the order of a file. A row is named by its index, counted from 0.
#[derive(Clone, Copy, PartialEq, Eq, Debug)]
pub enum Field {
    Length,
    Reports,
    RowCount,
    Position { row: usize },
    Side { row: usize },
    LookedAt { row: usize },
    WantedOn { row: usize },
}

impl Field {
    // Which values it may have, in words.
    pub(crate) fn values(self) -> &'static str {
        match self {
            Field::Length => "1 to 24",
            Field::Reports =>
                "the sum of 2^(k-1) over the reports' positions k, at most 12 of them and none past the last position",
            Field::RowCount => "0 to 65535",
            Field::Position { .. } => "a position at which a reply stands",
            Field::Side { .. } => "1 for on, 0 for off",
            Field::LookedAt { .. } =>
                "the sum of 2^(k-1) over positions k of reports, each before the row's position",
            Field::WantedOn { .. } =>
                "the sum of 2^(k-1) over positions k of reports, each one that the row looks at",
        }
    }
}

impl fmt::Display for Field {
    ghost output = { λ f. Some (field_text f) };

    fn fmt<W: fmt::Write>(&self, f: &mut fmt::Formatter<W>) -> fmt::Result {
        match self {
            Field::Length => write!(f, "the number of positions"),
            Field::Reports => write!(f, "the mask of reports"),
            Field::RowCount => write!(f, "the number of rows"),
            Field::Position { row } => write!(f, "the position of row {row} (from 0)"),
            Field::Side { row } => write!(f, "the side of row {row} (from 0)"),
            Field::LookedAt { row } => write!(f, "the reports looked at by row {row} (from 0)"),
            Field::WantedOn { row } => write!(f, "the reports wanted on by row {row} (from 0)"),
        }
    }
}
