// The points gone through in listing: position by position, and at each position setting by
// setting. The rows past the end of the table are counted and not written.
ghost use Rattle.std.specs.Prelude.{◌≡◌, ◌+◌, ◌-◌, ◌*◌, ◌%◌, ◌^◌, ◌<◌, ◌≤◌, cond, List, [], ◌∷◌, ◌++◌};
ghost use Rattle.prefix.specs.Points.{points_at};
ghost use Rattle.prefix.specs.Prefixes.{kinds};
ghost use Rattle.book.specs.declared.row.Row.{Row};
ghost use Rattle.book_file.specs.ListSteps.{place, ListedTo, AllListed};
ghost use Rattle.book_file.specs.Steps.{InTable};

use crate::table::put_row;
use book::{Book, Row, Side};
use prefix::{Line, Prefix};

// Writes the rows of a book into a table, as many as it has places for. How many there are.
pub(super) fn list_into<B: Book>(book: &B, table: &mut [Row]) -> usize
    ensures { AllListed (B.Book.prefix book.now) (B.Book.guards book.now) table.old table.new result }
{
    let prefix = book.prefix();
    let mut listed = 0;
    for position in 1..=prefix.len() {
        listed = list_at(book, prefix, position, table, listed);
    }
    listed
}

// Lists the rows of one position after those of all positions before it: at most 8192, two
// for each setting.
fn list_at<B: Book>(
    book: &B,
    prefix: Prefix,
    position: usize,
    table: &mut [Row],
    mut listed: usize,
) -> usize
    requires prefix { B.Book.prefix book.now ≡ prefix }
    requires inside { position ≤ 24 }
    requires few { listed ≤ 8192 * position }
    ensures few { result ≤ 8192 * (position + 1) }
    ensures listed { (start : List Row) → ListedTo prefix (B.Book.guards book.now) (place position 0 0) start table.old listed
        → ListedTo prefix (B.Book.guards book.now) (place (position + 1) 0 0) start table.new result }
{
    for number in 0..prefix.points_at(position) {
        listed = list_point(book, prefix, position, number, table, listed);
    }
    listed
}

// Lists the rows of one point after those of all points before it.
fn list_point<B: Book>(
    book: &B,
    prefix: Prefix,
    position: usize,
    number: usize,
    table: &mut [Row],
    listed: usize,
) -> usize
    requires prefix { B.Book.prefix book.now ≡ prefix }
    requires point { number < points_at (kinds prefix) position }
    requires room { listed + 2 ≤ usize.MAX }
    ensures few { result ≤ listed + 2 }
    ensures listed { (start : List Row) → ListedTo prefix (B.Book.guards book.now) (place position number 0) start table.old listed
        → ListedTo prefix (B.Book.guards book.now) (place position (number + 1) 0) start table.new result }
{
    // each number below `points_at` is that of a setting
    let line = prefix.setting_line(position, number).unwrap();
    let on = book.on(position, line);
    let on_row = row_at(prefix, Side::On, position, line);
    let with_on = list_row(on, on_row, table, listed);
    let off = book.off(position, line);
    let off_row = row_at(prefix, Side::Off, position, line);
    list_row(off, off_row, table, with_on)
}

// The row that looks at every report before a position and wants a line's values there.
fn row_at(prefix: Prefix, side: Side, position: usize, line: Line) -> Row
    ensures { result ≡ record { position = position; side = side; looked_at = prefix.reports % 2 ^ (position - 1); wanted_on = line.mask } }
{
    Row {
        position,
        side,
        looked_at: prefix.report_mask_before(position),
        wanted_on: line.mask(),
    }
}

// Lists a row after others, if `yes`. How many are listed then.
fn list_row(yes: bool, row: Row, table: &mut [Row], listed: usize) -> usize
    requires room { listed < usize.MAX }
    ensures few { result ≤ listed + 1 }
    ensures listed { (start rows : List Row) → InTable start rows table.old listed → InTable start (cond yes (rows ++ row ∷ []) rows) table.new result }
{
    if !yes {
        return listed;
    }
    put_row(row, table, listed);
    listed + 1
}
