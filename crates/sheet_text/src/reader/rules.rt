// Rules: literals, possibly none, then 0; a minus wants off.
ghost use Rattle.std.specs.Prelude.{◌≡◌};
ghost use Rattle.sheet_text.specs.Words.{token};
ghost use Rattle.sheet_text.specs.Keeping.{Gave};
ghost use Rattle.sheet_text.specs.declared.state.Mode.TheVariants.{Literals};
ghost use Rattle.sheet_text.specs.Machine.{literal_word};

use super::Reader;
use crate::state::Mode;
use crate::taken::Taken;
use crate::word::Word;
use faults::SheetFault;
use sheet::Literal;

impl Reader {
    pub(super) fn literal_word(&mut self, word: Word<'_>) -> Result<Option<Taken>, SheetFault>
        requires { self.old.state.mode ≡ Literals }
        ensures { Gave (literal_word self.old.state (token word.entry)) result self.new.state }
    {
        let number = word.number()?;
        let place = word.place();
        let state = &mut self.state;
        let variable = number.value as usize;
        if variable == 0 {
            state.read += 1;
            state.mode = Mode::LineEnd;
            return Ok(Some(Taken::Rule));
        }
        if variable > state.length {
            return Err(SheetFault::Limit { place });
        }
        // In a rule every variable is named.
        let named = state.variables[variable - 1].unwrap();
        let literal = Literal {
            position: named.position,
            wanted: !number.negative,
        };
        Ok(Some(Taken::Literal { literal, place }))
    }
}
