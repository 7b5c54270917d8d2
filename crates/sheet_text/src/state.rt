// How far the reading of a text has come.
ghost use Rattle.std.specs.Prelude.{◌≡◌};
ghost use Rattle.sheet_text.specs.Machine.{start};
ghost use Rattle.sheet_text.specs.Reading.{finished};

mod header;
mod lines;

use crate::variable::Variable;
use faults::SheetFault;
use prefix::{Kind, Prefix};
use sheet::Form;

// What the text may have next: comments and the header, quantifier lines, rules.
#[derive(Clone, Copy)]
pub(crate) enum Section {
    Opening,
    Quantifiers,
    Rules,
}

// Where in a line the reader stands: which word it waits for.
#[derive(Clone, Copy)]
pub(crate) enum Mode {
    LineStart,
    Comment,
    Form,
    Length,
    RuleCount,
    HeaderEnd,
    // `some`: whether the line has named a variable; no value goes with it
    Variables { kind: Kind, some: bool },
    Literals,
    LineEnd,
}

// A plain record, of which the definitions by steps speak; a `Reader` has one that
// keeps to its bounds.
#[derive(Drop)]
pub(crate) struct State {
    pub(crate) section: Section,
    pub(crate) mode: Mode,
    // what the header says
    pub(crate) form: Form,
    pub(crate) length: usize,
    pub(crate) rules: usize,
    // one record for each variable that there may be, once a line has named it: an array
    // by the decision on fixed forms
    pub(crate) variables: [Option<Variable>; Prefix::MOST_POSITIONS],
    // how many variables the quantifier lines have named, and which of their
    // positions are reports
    pub(crate) named: usize,
    pub(crate) reports: u32,
    // how many rules are over
    pub(crate) read: usize,
}

impl State {
    // Before the first word.
    pub(crate) fn new() -> State
        ensures { result ≡ start }
    {
        State {
            section: Section::Opening,
            mode: Mode::LineStart,
            form: Form::Cnf,
            length: 0,
            rules: 0,
            variables: [None; Prefix::MOST_POSITIONS],
            named: 0,
            reports: 0,
            read: 0,
        }
    }

    // Whether the text may end here.
    pub(crate) fn finish(&self, place: usize) -> Result<(), SheetFault>
        ensures { result ≡ finished place self.now.section self.now }
    {
        if let Section::Opening = self.section {
            return Err(SheetFault::Word { place });
        }
        if self.named != self.length {
            return Err(SheetFault::Unnamed { place });
        }
        if self.read != self.rules {
            return Err(SheetFault::RuleCount { place });
        }
        Ok(())
    }
}
