// Quantifier lines: a (reports) or e (replies), one variable or more, then 0.
ghost use Rattle.std.specs.Prelude.{◌≡◌, ◌≤◌};
ghost use Rattle.sheet_text.specs.Words.{token};
ghost use Rattle.sheet_text.specs.Keeping.{Went};
ghost use Rattle.sheet_text.specs.declared.state.Section.TheVariants.{Quantifiers};
ghost use Rattle.sheet_text.specs.Machine.{variable_word, reports_with, report_too_many};

use super::Reader;
use crate::state::Mode;
use crate::variable::Variable;
use crate::word::Word;
use faults::SheetFault;
use prefix::{Kind, Prefix};

// The mask of reports with one position more.
fn reports_with(reports: u32, kind: Kind, position: usize) -> u32
    requires { (1 ≤ position) × (position ≤ 32) }
    ensures { result ≡ reports_with reports kind position }
{
    match kind {
        Kind::Report => reports | 1 << (position - 1),
        Kind::Reply => reports,
    }
}

// Whether the reports are as many as a prefix may have, and one more comes.
fn report_too_many(reports: u32, kind: Kind) -> bool
    ensures { result ≡ report_too_many reports kind }
{
    match kind {
        Kind::Report => reports.count_ones() >= Prefix::MOST_REPORTS,
        Kind::Reply => false,
    }
}

impl Reader {
    // A variable takes the next position; 0 ends the line.
    pub(super) fn variable_word(
        &mut self,
        kind: Kind,
        some: bool,
        word: Word<'_>,
    ) -> Result<(), SheetFault>
        requires { self.old.state.section ≡ Quantifiers }
        ensures { Went self.old.state (variable_word self.old.state kind some (token word.entry)) result self.new.state }
    {
        let variable = word.natural()?;
        let place = word.place();
        let state = &mut self.state;
        if variable == 0 {
            if !some {
                return Err(SheetFault::Word { place });
            }
            state.mode = Mode::LineEnd;
            return Ok(());
        }
        if variable > state.length || report_too_many(state.reports, kind) {
            return Err(SheetFault::Limit { place });
        }
        let record = &mut state.variables[variable - 1];
        if record.is_some() {
            return Err(SheetFault::Repeated { place });
        }
        let position = state.named + 1;
        *record = Some(Variable { kind, position });
        state.named = position;
        state.reports = reports_with(state.reports, kind, position);
        state.mode = Mode::Variables { kind, some: true };
        Ok(())
    }
}
