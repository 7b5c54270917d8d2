// Reads a sheet from its text.
ghost use Rattle.sheet_text.specs.Reading.{begin, read_text, read_through};
ghost use Rattle.sheet_text.specs.Grammar.{EachNamed};
ghost use Rattle.sheet_text.specs.Laws.{ReadAsSaid, RefusedAsFound};
ghost use Rattle.sheet_text.specs.Refusing.{Decided};
ghost use Rattle.sheet_text.specs.Tables.{Outcome, Meant};
ghost use Rattle.sheet_text.specs.Drafts.{Passed, Stands};

use crate::draft::Draft;
use crate::lexer::Lexer;
use crate::reading::Reading;
use faults::SheetFault;
use prefix::Prefix;
use sheet::Rule;

// Reads all words, up to the end of the text, into a draft that has seen none: lent, and
// not handed back, since it has places for 256 rules.
fn read_words(text: &[u8], draft: &mut Draft) -> Result<(), SheetFault>
    requires { Stands begin draft.old }
    ensures { Passed (read_through text.now) result draft.new }
{
    for word in Lexer::new(text) {
        draft.take(word?)?;
    }
    draft.reader.state.finish(text.len())?;
    Ok(())
}

// Reads all words before it touches the table.
#[tactic(auto, using(std::proofs::lemmas::Grind::common_steps, crate::proofs::Running::stands_size))]
fn read_into(text: &[u8], table: &mut [Rule]) -> Result<Reading, SheetFault>
    ensures { Outcome (read_text text.now) result table.old table.new }
{
    let mut draft = Draft::new();
    read_words(text, &mut draft)?;
    let rules = draft.rules.as_slice();
    if rules.len() > table.len() {
        return Err(SheetFault::TableTooShort);
    }
    table[..rules.len()].copy_from_slice(rules);
    let state = &draft.reader.state;
    Ok(Reading {
        form: state.form,
        prefix: Prefix::new(state.length, state.reports).unwrap(),
        rules: rules.len(),
    })
}

// Reads the sheet that a text says. Its rules stand at the front of the table,
// and the rest of the table is left alone; on a refusal the table is as it was.
pub fn read_sheet(text: &[u8], table: &mut [Rule]) -> Result<Reading, SheetFault>
    ensures meant { Meant text.now result table.old table.new }
    ensures decided { Decided text.now }
    ensures named { EachNamed text.now }
    ensures outcome { Outcome (read_text text.now) result table.old table.new }
    ensures grammar { ReadAsSaid text.now }
    ensures faults { RefusedAsFound text.now }
{
    read_into(text, table)
}
