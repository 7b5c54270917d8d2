// What several tests are made of: rows, and site F.
use book::{Row, Side};
use std::alloc::{AllocError, Global};

pub(crate) fn row(position: usize, side: Side, looked_at: u32, wanted_on: u32) -> Row {
    Row {
        position,
        side,
        looked_at,
        wanted_on,
    }
}

// What stands in a table that no row was put into.
pub(crate) const REST: Row = Row {
    position: 9,
    side: Side::Off,
    looked_at: 7,
    wanted_on: 5,
};

// Reports 1 and 3, replies 2 and 4; one policy wins.
pub(crate) const SITE_F: &[u8] =
    b"p cnf 4 4\na 1 0\ne 2 0\na 3 0\ne 4 0\n2 3 0\n-2 -3 4 0\n-2 3 -1 -4 0\n-2 3 1 4 0\n";

// The rows of a book that means this policy.
pub(crate) fn site_f_rows() -> [Row; 4] {
    [
        row(2, Side::On, 0b0000, 0b0000),
        row(4, Side::On, 0b0100, 0b0100),
        row(4, Side::On, 0b0101, 0b0000),
        row(4, Side::Off, 0b0101, 0b0001),
    ]
}

// Their file; each number is one byte.
pub(crate) const SITE_F_BOOK: &[u8] = &[4, 5, 4, 2, 1, 0, 0, 4, 1, 4, 4, 4, 1, 5, 0, 4, 0, 5, 1];

// A good text, made longer by empty lines: two policies for its one reply.
pub(crate) fn one_reply(heap: Global, length: usize) -> Result<Vec<u8>, AllocError> {
    let mut text = b"p cnf 1 0\ne 1 0\n".to_vec(heap)?;
    text.resize(length, b'\n')?;
    Ok(text)
}
