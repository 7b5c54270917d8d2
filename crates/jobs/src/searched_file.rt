// Writes the file of the policy that a search finds; the tables that this takes are the job's own.
ghost use Rattle.std.specs.Prelude.{◌≡◌, length, take, IfOk};
ghost use Rattle.prefix.specs.Points.{point_count};
ghost use Rattle.prefix.specs.Policies.{Policy};
ghost use Rattle.prefix.specs.Prefixes.{kinds};
ghost use Rattle.sheet.specs.Rules.{rules_kept};
ghost use Rattle.book.specs.Guards.{Means};
ghost use Rattle.book_file.specs.Files.{Fit};
ghost use Rattle.jobs.specs.FileSteps.{SheetWritten, FileOf, ListedFile};

use crate::fault::JobFault;
use crate::rows::UNUSED_ROW;
use crate::writing_books::BookFile;
use book::{Book, Row, TableBook};
use book_file::{list_rows, write_rows};
use play::search;
use prefix::Prefix;
use sheet::{ClauseSheet, Form, Rule, Sheet, TermSheet};
use std::alloc::{AllocError, Global};
use worth::WorthStack;

// So many bytes are enough for the three numbers before the rows, and for the four of a row:
// no number takes more than four.
const HEADER_BYTES: usize = 12;

const ROW_BYTES: usize = 16;

// The file on the sheet of these rules, read as clauses or as terms; of more than 256 rules the
// first 256 count.
pub(crate) fn searched_file_of(
    heap: Global,
    form: Form,
    prefix: Prefix,
    rules: &[Rule],
) -> Result<BookFile, JobFault>
    ensures { SheetWritten (rules_kept form prefix.length (take 256 rules.now)) prefix result }
{
    match form {
        Form::Cnf => searched_file(heap, &ClauseSheet::new(prefix, rules)),
        Form::Dnf => searched_file(heap, &TermSheet::new(prefix, rules)),
    }
}

// The file of the policy that a search finds on a sheet.
fn searched_file<F: Sheet>(heap: Global, sheet: &F) -> Result<BookFile, JobFault>
    ensures { SheetWritten (F.Sheet.kept sheet.now) (F.Sheet.prefix sheet.now) result }
{
    let prefix = sheet.prefix();
    let mut cells = vec![in heap; false; prefix.len()]?;
    let mut words = vec![in heap; 0; TableBook::word_count(prefix)]?;
    let mut stack = WorthStack::new(&mut cells);
    let mut book = TableBook::new(prefix, &mut words);
    search(&mut stack, sheet, &mut book)?;
    Ok(listed_file(heap, &book)?)
}

// The file of a book that means a policy, so that it is listed as one row for each point.
fn listed_file<B: Book>(heap: Global, book: &B) -> Result<BookFile, AllocError>
    requires policy { (policy : Policy) × Means (kinds (B.Book.prefix book.now)) (B.Book.guards book.now) policy }
    ensures { IfOk result (λ f. ListedFile (B.Book.prefix book.now) (B.Book.guards book.now) f) }
{
    let mut table = vec![in heap; UNUSED_ROW; book.prefix().point_count()]?;
    listed_file_in(heap, book, &mut table)
}

// The same in a table that has a place for each point.
fn listed_file_in<B: Book>(
    heap: Global,
    book: &B,
    table: &mut [Row],
) -> Result<BookFile, AllocError>
    requires policy { (policy : Policy) × Means (kinds (B.Book.prefix book.now)) (B.Book.guards book.now) policy }
    requires table { length table.old ≡ point_count (kinds (B.Book.prefix book.now)) }
    ensures { IfOk result (λ f. ListedFile (B.Book.prefix book.now) (B.Book.guards book.now) f) }
{
    let rows = list_rows(book, table).unwrap();
    written_file(heap, book.prefix(), &table[..rows])
}

// The file of rows that a file may have.
fn written_file(heap: Global, prefix: Prefix, rows: &[Row]) -> Result<BookFile, AllocError>
    requires fit { Fit prefix rows.now }
    ensures { IfOk result (λ f. FileOf prefix rows.now f) }
{
    let mut bytes = vec![in heap; 0; HEADER_BYTES + ROW_BYTES * rows.len()]?;
    let size = write_rows(prefix, rows, &mut bytes).unwrap();
    bytes.truncate(size);
    let rows = rows.len();
    Ok(BookFile { rows, bytes })
}
