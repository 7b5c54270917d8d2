// The numbers of a book's file, some at a time.
ghost use Rattle.std.specs.Prelude.{All, ◌≡◌, ◌+◌, ◌<◌, ◌≤◌, ◌^◌, [], ◌∷◌, length};
ghost use Rattle.book_file.specs.Files.{row_numbers, side_number};
ghost use Rattle.book_file.specs.Numbers.{number_bytes, bytes_of};
ghost use Rattle.book_file.specs.Steps.{with_at};

use crate::number::groups_of;
use book::{Row, Side};
use prefix::Prefix;

// Those before the rows.
pub(super) fn header_numbers(prefix: Prefix, rows: usize) -> [u32; 3]
    requires { rows ≤ 65535 }
    ensures { result ≡ prefix.length ∷ prefix.reports ∷ rows ∷ [] }
{
    [
        prefix.len() as u32,
        prefix.report_mask_before(prefix.len() + 1),
        rows as u32,
    ]
}

// Those of a row.
pub(super) fn row_numbers(row: Row) -> [u32; 4]
    requires { row.position ≤ 24 }
    ensures { result ≡ row_numbers row }
{
    [
        row.position as u32,
        side_number(row.side),
        row.looked_at,
        row.wanted_on,
    ]
}

fn side_number(side: Side) -> u32
    ensures { result ≡ side_number side }
{
    match side {
        Side::On => 1,
        Side::Off => 0,
    }
}

// How many bytes some numbers have.
pub(super) fn size_of(numbers: &[u32]) -> usize
    requires small { All (λ n. n < 2 ^ 28) numbers.now }
    requires few { length numbers.now ≤ 4 }
    ensures value { result ≡ length (bytes_of numbers.now) }
    ensures few { result ≤ 16 }
{
    let mut size = 0;
    for &number in numbers {
        size += groups_of(number).len();
    }
    size
}

// Writes some numbers into a buffer that is long enough, from a place on, and says where they end.
pub(super) fn put_numbers(numbers: &[u32], buffer: &mut [u8], start: usize) -> usize
    requires small { All (λ n. n < 2 ^ 28) numbers.now }
    requires room { start + length (bytes_of numbers.now) ≤ length buffer.old }
    ensures place { result ≡ start + length (bytes_of numbers.now) }
    ensures buffer { buffer.new ≡ with_at start (bytes_of numbers.now) buffer.old }
{
    let mut place = start;
    for &number in numbers {
        place = put_number(number, buffer, place);
    }
    place
}

// Writes a number into a buffer that is long enough, and says where it ends.
fn put_number(number: u32, buffer: &mut [u8], start: usize) -> usize
    requires small { number < 2 ^ 28 }
    requires room { start + length (number_bytes number) ≤ length buffer.old }
    ensures place { result ≡ start + length (number_bytes number) }
    ensures buffer { buffer.new ≡ with_at start (number_bytes number) buffer.old }
{
    let groups = groups_of(number);
    let end = start + groups.len();
    buffer[start..end].copy_from_slice(groups.as_slice());
    end
}
