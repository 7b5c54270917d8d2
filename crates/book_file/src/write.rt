// Writes rows as a book's file.
ghost use Rattle.std.specs.Prelude.{◌≡◌, ◌≤◌, length, MatchOption};
ghost use Rattle.book_file.specs.Files.{Fit, file_bytes};
ghost use Rattle.book_file.specs.Steps.{with_at};
ghost use Rattle.book_file.specs.Writing.{Written, SaysWritten, FirstUnfit};

mod numbers;

use crate::reading::MOST_ROWS;
use crate::write_fault::WriteFault;
use book::Row;
use numbers::{header_numbers, put_numbers, row_numbers, size_of};
use prefix::Prefix;

// Writes the file of these rows over a prefix at the front of the buffer, and says how many
// bytes it has. The rest of the buffer is left alone; on a refusal the buffer is as it was.
pub fn write_rows(prefix: Prefix, rows: &[Row], buffer: &mut [u8]) -> Result<usize, WriteFault>
    ensures written { Written prefix rows.now result buffer.old buffer.new }
    ensures says { SaysWritten prefix rows.now result buffer.new }
{
    if let Some(index) = first_unfit(prefix, rows) {
        return Err(WriteFault::Row { index });
    }
    let size = file_size(prefix, rows);
    if size > buffer.len() {
        return Err(WriteFault::BufferTooShort);
    }
    put_file(prefix, rows, buffer);
    Ok(size)
}

// The index of the first row that no file may have.
fn first_unfit(prefix: Prefix, rows: &[Row]) -> Option<usize>
    ensures { MatchOption result (Fit prefix rows.now) (λ i. FirstUnfit prefix rows.now i) }
{
    for index in 0..rows.len() {
        if index >= MOST_ROWS || !rows[index].is_well_made(prefix) {
            return Some(index);
        }
    }
    None
}

// How many bytes the file has.
fn file_size(prefix: Prefix, rows: &[Row]) -> usize
    requires { Fit prefix rows.now }
    ensures { result ≡ length (file_bytes prefix rows.now) }
{
    let mut size = size_of(&header_numbers(prefix, rows.len()));
    for &row in rows {
        size += size_of(&row_numbers(row));
    }
    size
}

// Writes the file into a buffer that is long enough.
fn put_file(prefix: Prefix, rows: &[Row], buffer: &mut [u8])
    requires fit { Fit prefix rows.now }
    requires room { length (file_bytes prefix rows.now) ≤ length buffer.old }
    ensures { buffer.new ≡ with_at 0 (file_bytes prefix rows.now) buffer.old }
{
    let mut place = put_numbers(&header_numbers(prefix, rows.len()), buffer, 0);
    for &row in rows {
        place = put_numbers(&row_numbers(row), buffer, place);
    }
}
