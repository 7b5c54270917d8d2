// Reads a book's file.
ghost use Rattle.std.specs.Prelude.{◌≡◌};
ghost use Rattle.book_file.specs.Refusing.{Decided};
ghost use Rattle.book_file.specs.Reading.{Read, ReadsBack};
ghost use Rattle.book_file.specs.Steps.{ReadInto};

use crate::cursor::Cursor;
use crate::fault::BookFault;
use crate::reading::Reading;
use crate::table::put_row;
use book::Row;

// Reads the prefix and the rows that a file says. The rows stand at the front of the table, and
// the rest of the table is left alone; on a refusal the table is as it was.
pub fn read_rows(file: &[u8], table: &mut [Row]) -> Result<Reading, BookFault>
    ensures read { Read file.now result table.old table.new }
    ensures decided { Decided file.now }
    ensures back { ReadsBack file.now result table.old table.new }
{
    read_checked(file, table)
}

// Goes through the file once without a table, so that a fault leaves the caller's as it was.
fn read_checked(file: &[u8], table: &mut [Row]) -> Result<Reading, BookFault>
    ensures { Read file.now result table.old table.new }
{
    let reading = read_into(file, &mut [])?;
    if reading.rows > table.len() {
        return Err(BookFault::TableTooShort);
    }
    read_into(file, table)
}

// Reads a whole file, and puts the rows into the table as far as it reaches.
fn read_into(file: &[u8], table: &mut [Row]) -> Result<Reading, BookFault>
    ensures { ReadInto file.now result table.old table.new }
{
    let mut cursor = Cursor::new(file);
    let reading = cursor.header()?;
    for index in 0..reading.rows {
        let row = cursor.row(reading.prefix, index)?;
        put_row(row, table, index);
    }
    cursor.end()?;
    Ok(reading)
}
