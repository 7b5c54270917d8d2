// What reading a book's file gives.

use prefix::Prefix;

// The most rows of a file.
pub const MOST_ROWS: usize = 65_535;

// The prefix of the book, and how many rows stand at the front of the table.
#[derive(Clone, Copy, PartialEq, Eq, Debug)]
pub struct Reading {
    pub prefix: Prefix,
    pub rows: usize,
}
