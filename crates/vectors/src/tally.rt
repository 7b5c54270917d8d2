// How many sheets were tried, and what came of them.
use crate::difference::Difference;
use crate::trial::Trial;
use std::fmt;

#[derive(Clone, Copy, Default)]
pub(crate) struct Tally {
    yes: u32,
    no: u32,
    books: u32,
    duals: u32,
    differ: u32,
}

impl Tally {
    // The tally of one sheet.
    pub(crate) fn of(wins: bool, trial: Result<Trial, Difference>) -> Tally {
        let (books, duals, differ) = match trial {
            Ok(trial) => (trial.book, trial.dual, false),
            Err(_) => (false, false, true),
        };
        Tally {
            yes: u32::from(wins),
            no: u32::from(!wins),
            books: u32::from(books),
            duals: u32::from(duals),
            differ: u32::from(differ),
        }
    }

    pub(crate) fn add(&mut self, other: Tally) {
        self.yes = self.yes.saturating_add(other.yes);
        self.no = self.no.saturating_add(other.no);
        self.books = self.books.saturating_add(other.books);
        self.duals = self.duals.saturating_add(other.duals);
        self.differ = self.differ.saturating_add(other.differ);
    }

    fn sheets(self) -> u32 {
        self.yes.saturating_add(self.no)
    }

    pub(crate) fn is_empty(self) -> bool {
        self.sheets() == 0
    }
}

impl fmt::Display for Tally {
    fn fmt<W: fmt::Write>(&self, f: &mut fmt::Formatter<W>) -> fmt::Result {
        let sheets = self.sheets();
        let Tally {
            yes,
            no,
            books,
            duals,
            differ,
        } = *self;
        write!(f, "{sheets} sheets, {yes} true, {no} false, ")?;
        write!(f, "{books} books accepted, {duals} duals, {differ} differ")
    }
}
