// What the public calls say of one sheet, beside its verdict.
use crate::difference::Difference;
use crate::dual::{dual_prefix, dual_rules};
use book::{Book, Row, RowBook, Side, TableBook};
use book_file::{list_rows, read_rows, write_rows};
use play::{Verdict, check, search};
use prefix::Prefix;
use sheet::rule::MOST_RULES;
use sheet::{ClauseSheet, Form, Rule, Sheet, TermSheet};
use sheet_text::read_sheet;
use std::alloc::Global;
use worth::{WorthStack, count_policies_of, has_winning_policy};

// The refusal of a search where no policy wins.
const NO_POLICY: u8 = 16;

// Enough bytes for the three numbers before the rows of a file, and for the four of a row.
const HEADER_BYTES: usize = 12;

const ROW_BYTES: usize = 16;

const UNUSED_ROW: Row = Row {
    position: 0,
    side: Side::On,
    looked_at: 0,
    wanted_on: 0,
};

// What was tried of a sheet beyond the questions that every sheet is asked.
#[derive(Clone, Copy)]
pub(crate) struct Trial {
    // a book was searched, written, read again, and accepted
    pub(crate) book: bool,
    // the dual sheet was asked about
    pub(crate) dual: bool,
}

// Tries the calls on a sheet's text, where the other solver says whether some policy wins.
pub(crate) fn try_sheet(heap: Global, text: &[u8], wins: bool) -> Result<Trial, Difference> {
    let mut table = vec![in heap; Rule::empty(); MOST_RULES]?;
    let reading = read_sheet(text, &mut table).map_err(|fault| Difference::Text {
        number: fault.number(),
        place: fault.place(),
    })?;
    if reading.form != Form::Cnf {
        return Err(Difference::Terms);
    }
    table.truncate(reading.rules);
    try_rules(heap, reading.prefix, &table, wins)
}

fn try_rules(
    heap: Global,
    prefix: Prefix,
    rules: &[Rule],
    wins: bool,
) -> Result<Trial, Difference> {
    let sheet = ClauseSheet::new(prefix, rules);
    if asked(heap, &sheet)? != wins {
        return Err(Difference::Winning);
    }
    if count_policies_of(Form::Cnf, prefix, rules).is_none() == wins {
        return Err(Difference::Count);
    }
    let book = try_search(heap, &sheet, wins)?;
    let dual = try_dual(heap, prefix, rules, wins)?;
    Ok(Trial { book, dual })
}

// Whether some policy wins a sheet.
fn asked<F: Sheet>(heap: Global, sheet: &F) -> Result<bool, Difference> {
    let mut cells = vec![in heap; false; sheet.prefix().len()]?;
    has_winning_policy(&mut WorthStack::new(&mut cells), sheet).map_err(|_| Difference::Winning)
}

// Searches a book, which has to be found exactly where a policy wins, and to be accepted; whether
// there is one.
fn try_search<F: Sheet>(heap: Global, sheet: &F, wins: bool) -> Result<bool, Difference> {
    let prefix = sheet.prefix();
    let mut cells = vec![in heap; false; prefix.len()]?;
    let mut words = vec![in heap; 0; TableBook::word_count(prefix)]?;
    let mut book = TableBook::new(prefix, &mut words);
    match search(&mut WorthStack::new(&mut cells), sheet, &mut book) {
        Ok(()) if wins => {
            try_book(heap, sheet, &book)?;
            Ok(true)
        }
        Err(fault) if !wins && fault.number() == NO_POLICY => Ok(false),
        _ => Err(Difference::Search),
    }
}

// Checks a book, writes it as rows to a file, and tries that.
fn try_book<F: Sheet, B: Book>(heap: Global, sheet: &F, book: &B) -> Result<(), Difference> {
    let verdict = verdict_on(sheet, book)?;
    if !verdict.is_accepted() {
        return Err(Difference::Table(verdict));
    }
    let prefix = book.prefix();
    let mut listed = vec![in heap; UNUSED_ROW; prefix.point_count()]?;
    let rows = list_rows(book, &mut listed).map_err(|fault| Difference::Listing(fault.number()))?;
    listed.truncate(rows);
    let mut file = vec![in heap; 0; HEADER_BYTES + ROW_BYTES * prefix.point_count()]?;
    let bytes = write_rows(prefix, &listed, &mut file);
    let size = bytes.map_err(|fault| Difference::Writing(fault.number()))?;
    file.truncate(size);
    try_file(heap, sheet, &listed, &file)
}

// Reads a book's file, which says these rows, and checks the book.
fn try_file<F: Sheet>(
    heap: Global,
    sheet: &F,
    listed: &[Row],
    file: &[u8],
) -> Result<(), Difference> {
    let mut rows = vec![in heap; UNUSED_ROW; listed.len()]?;
    let reading = read_rows(file, &mut rows).map_err(|fault| Difference::Reading(fault.number()))?;
    rows.truncate(reading.rows);
    if reading.prefix != sheet.prefix() || rows.as_slice() != listed {
        return Err(Difference::Rows);
    }
    let verdict = verdict_on(sheet, &RowBook::new(reading.prefix, &rows))?;
    if !verdict.is_accepted() {
        return Err(Difference::RowBook(verdict));
    }
    Ok(())
}

// What a check says of a book.
fn verdict_on<F: Sheet, B: Book>(sheet: &F, book: &B) -> Result<Verdict, Difference> {
    let checked = check(sheet, book).map_err(|_| Difference::Check)?;
    Ok(checked.verdict)
}

// Asks about the dual sheet, which is won exactly where the sheet is not; whether there is one.
fn try_dual(heap: Global, prefix: Prefix, rules: &[Rule], wins: bool) -> Result<bool, Difference> {
    let Some(dual) = dual_prefix(prefix) else {
        return Ok(false);
    };
    let rules = dual_rules(heap, rules)?;
    if asked(heap, &TermSheet::new(dual, &rules))? == wins {
        return Err(Difference::Dual);
    }
    Ok(true)
}
