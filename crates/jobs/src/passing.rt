// Says whether a site's book may pass: whether it means a policy that wins on the site's sheet.
ghost use Rattle.std.specs.Prelude.{◌≡◌, length, take, MatchResult};
ghost use Rattle.prefix.specs.Prefixes.{kinds};
ghost use Rattle.sheet.specs.Rules.{rules_kept};
ghost use Rattle.play.specs.CheckFaults.{Refused};
ghost use Rattle.play.specs.Checking.{Concludes};
ghost use Rattle.book.specs.RowGuards.{row_guards};
ghost use Rattle.jobs.specs.Inputs.{taken as counted};
ghost use Rattle.jobs.specs.Passing.{Passed};

use crate::fault::JobFault;
use crate::input::taken;
use crate::judgement::Judgement;
use crate::rows::UNUSED_ROW;
use book::{Row, RowBook};
use book_file::read_rows;
use book_file::reading::MOST_ROWS;
use play::{CheckFault, Checked, check};
use prefix::Prefix;
use sheet::rule::MOST_RULES;
use sheet::{ClauseSheet, Form, Rule, TermSheet};
use sheet_text::read_sheet;
use std::alloc::Global;

// What the book of this file comes to on the sheet that the text says; a text or a file of more
// than 65,536 bytes counts as empty.
pub fn pass(heap: Global, sheet: &[u8], book: &[u8]) -> Result<Judgement, JobFault>
    ensures { Passed (counted sheet.now) (counted book.now) result }
{
    let mut rules = vec![in heap; Rule::empty(); MOST_RULES]?;
    let mut rows = vec![in heap; UNUSED_ROW; MOST_ROWS]?;
    pass_in(&mut rules, &mut rows, taken(sheet), taken(book))
}

// The same in tables that have a place for each rule that a sheet may have, and for each row
// that a file may have.
fn pass_in(
    rules: &mut [Rule],
    rows: &mut [Row],
    text: &[u8],
    file: &[u8],
) -> Result<Judgement, JobFault>
    requires rules { length rules.old ≡ 256 }
    requires rows { length rows.old ≡ 65535 }
    ensures { Passed text.now file.now result }
{
    let sheet = read_sheet(text, rules)?;
    let book = read_rows(file, rows)?;
    let rules = &rules[..sheet.rules];
    let rows = RowBook::new(book.prefix, &rows[..book.rows]);
    let checked = check_rows(sheet.form, sheet.prefix, rules, &rows)?;
    Ok(Judgement {
        prefix: sheet.prefix,
        checked,
    })
}

// What checking a book comes to on the sheet of these rules, read as clauses or as terms; of
// more than 256 rules the first 256 count.
fn check_rows(
    form: Form,
    prefix: Prefix,
    rules: &[Rule],
    book: &RowBook<'_>,
) -> Result<Checked, CheckFault>
    ensures { MatchResult result
        (λ checked. (prefix ≡ book.now.prefix) × Concludes (rules_kept form prefix.length (take 256 rules.now)) (row_guards book.now.prefix book.now.rows.now) (kinds prefix) checked)
        (λ fault. Refused prefix book.now.prefix fault) }
{
    match form {
        Form::Cnf => check(&ClauseSheet::new(prefix, rules), book),
        Form::Dnf => check(&TermSheet::new(prefix, rules), book),
    }
}
