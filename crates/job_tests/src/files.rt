// What files are read as, and how they are refused.
use crate::common::{REST, SITE_F_BOOK, site_f_rows};
use book::Row;
use book_file::{BookFault, Field, Reading, read_rows};
use faults::Layer;
use prefix::Prefix;
use std::test::Fail;

// A table with a place for each row of a short file.
const TABLE: [Row; 6] = [REST; 6];

#[test]
fn a_file_is_read_into_the_front_of_a_table(rt: HostRuntime) -> Result<(), Fail> {
    let prefix = Prefix::new(4, 0b0101).ok_or("refused")?;
    let [a, b, c, d] = site_f_rows();
    let mut table = TABLE;
    let reading = read_rows(SITE_F_BOOK, &mut table);
    assert_eq!(rt; reading, Ok(Reading { prefix, rows: 4 }));
    assert_eq!(rt; table, [a, b, c, d, REST, REST]);
    let mut exact = [REST; 4];
    let reading = read_rows(SITE_F_BOOK, &mut exact);
    assert_eq!(rt; reading, Ok(Reading { prefix, rows: 4 }));
    assert_eq!(rt; exact, [a, b, c, d]);
    let mut short = [REST; 3];
    let reading = read_rows(SITE_F_BOOK, &mut short);
    assert_eq!(rt; reading, Err(BookFault::TableTooShort));
    assert_eq!(rt; short, [REST; 3]);
    Ok(())
}

// Files without rows: how many positions, and the mask of the reports.
const HEADERS: &[(&[u8], usize, u32)] = &[
    (&[1, 0, 0], 1, 0),
    (&[1, 1, 0], 1, 1),
    (&[4, 15, 0], 4, 0b1111),
    (&[24, 0, 0], 24, 0),
    (&[12, 255, 31, 0], 12, 0x000fff),
    (&[24, 128, 224, 255, 7, 0], 24, 0xfff000),
];

#[test]
fn prefixes_are_read(rt: HostRuntime) -> Result<(), Fail> {
    for &(file, length, reports) in HEADERS {
        let prefix = Prefix::new(length, reports).ok_or("refused")?;
        let reading = read_rows(file, &mut []);
        assert_eq!(rt; reading, Ok(Reading { prefix, rows: 0 }));
    }
    Ok(())
}

// A file, the number that it is refused with, and the place.
type RefusedFile = (&'static [u8], u8, usize);

const REFUSED_HEADERS: &[RefusedFile] = &[
    // positions
    (&[0, 0, 0], 10, 0),
    (&[25, 0, 0], 10, 0),
    (&[128, 1, 0, 0], 10, 0),
    // a report past the last position; thirteen reports, the first or the last positions
    (&[4, 16, 0], 10, 1),
    (&[13, 255, 63, 0], 10, 1),
    (&[24, 128, 240, 255, 7, 0], 10, 1),
    (&[24, 255, 255, 255, 127, 0], 10, 1),
    // 65,535 rows are said, and the first is wanted; 65,536
    (&[4, 5, 255, 255, 3], 9, 5),
    (&[4, 5, 128, 128, 4], 10, 2),
    // cut off, or not in the shortest form, whatever its value would be
    (&[], 9, 0),
    (&[128], 9, 0),
    (&[153], 9, 0),
    (&[132, 0, 5, 0], 9, 0),
    (&[128, 0, 5, 0], 9, 0),
    (&[4, 133], 9, 1),
    (&[4, 133, 0, 0], 9, 1),
    (&[4, 255, 255, 255, 255, 0], 9, 1),
    (&[4, 5, 255, 255], 9, 2),
    (&[4, 5, 128, 0], 9, 2),
    // what comes first counts
    (&[0, 128], 10, 0),
    (&[128, 0, 255], 9, 0),
];

// After the header of a file of one row, over report, reply, report, reply.
const REFUSED_ROWS: &[RefusedFile] = &[
    // at no position, at a report, past the last position
    (&[4, 5, 1, 0, 1, 0, 0], 10, 3),
    (&[4, 5, 1, 1, 1, 0, 0], 10, 3),
    (&[4, 5, 1, 3, 1, 0, 0], 10, 3),
    (&[4, 5, 1, 5, 1, 0, 0], 10, 3),
    (&[4, 5, 1, 255, 255, 255, 127, 1, 0, 0], 10, 3),
    (&[4, 5, 1, 130, 0, 1, 0, 0], 9, 3),
    // sides
    (&[4, 5, 1, 2, 2, 0, 0], 10, 4),
    (&[4, 5, 1, 2, 129, 0, 0, 0], 9, 4),
    // looks at a reply, at itself, past the last position, at a report after it
    (&[4, 5, 1, 4, 1, 2, 0], 10, 5),
    (&[4, 5, 1, 4, 1, 8, 0], 10, 5),
    (&[4, 5, 1, 4, 1, 16, 0], 10, 5),
    (&[4, 5, 1, 2, 1, 4, 0], 10, 5),
    (&[4, 5, 1, 2, 1, 5, 0], 10, 5),
    (&[4, 5, 1, 2, 1, 132, 0, 0], 9, 5),
    // wants on where it does not look
    (&[4, 5, 1, 4, 1, 0, 1], 10, 6),
    (&[4, 5, 1, 4, 1, 1, 4], 10, 6),
    (&[4, 5, 1, 4, 1, 5, 7], 10, 6),
    (&[4, 5, 1, 4, 1, 5, 128], 9, 6),
    // a value that is wrong, and then bytes too many
    (&[4, 5, 1, 4, 1, 5, 7, 0], 10, 6),
    // bytes too many
    (&[4, 5, 1, 4, 1, 5, 5, 0], 11, 7),
    (&[4, 5, 0, 128], 11, 3),
    // in the second row
    (&[4, 5, 2, 4, 1, 5, 5, 4, 2, 5, 5], 10, 8),
];

// A table that is too short changes nothing: 8 comes last.
#[test]
fn faults_have_their_numbers_and_places(rt: HostRuntime) -> Result<(), Fail> {
    for &(file, number, place) in REFUSED_HEADERS.iter().chain(REFUSED_ROWS) {
        let mut table = TABLE;
        let fault = read_rows(file, &mut table).err().ok_or("read")?;
        assert_eq!(rt; fault.number(), number);
        assert_eq!(rt; fault.place(), place);
        assert_eq!(rt; fault.layer(), Layer::Book);
        assert_eq!(rt; table, TABLE);
        assert_eq!(rt; read_rows(file, &mut []), Err(fault));
    }
    Ok(())
}

// The field that the number of this index is, in a file of a few rows.
fn field_at(index: usize) -> Field {
    match index {
        0 => Field::Length,
        1 => Field::Reports,
        2 => Field::RowCount,
        _ => {
            let row = (index - 3) / 4;
            match (index - 3) % 4 {
                0 => Field::Position { row },
                1 => Field::Side { row },
                2 => Field::LookedAt { row },
                _ => Field::WantedOn { row },
            }
        }
    }
}

#[test]
fn a_file_cut_short_ends_before_a_number(rt: HostRuntime) -> Result<(), Fail> {
    for length in 0..SITE_F_BOOK.len() {
        let file = SITE_F_BOOK.get(..length).ok_or("too short")?;
        let mut table = TABLE;
        let fault = BookFault::Number {
            place: length,
            field: field_at(length),
        };
        assert_eq!(rt; read_rows(file, &mut table), Err(fault));
        assert_eq!(rt; table, TABLE);
    }
    Ok(())
}

// The mask has four bytes, from byte 1 on.
#[test]
fn a_number_cut_off_is_at_its_first_byte(rt: HostRuntime) {
    let mask = [24, 128, 224, 255, 7];
    let fault = BookFault::Number {
        place: 1,
        field: Field::Reports,
    };
    for length in 1..mask.len() {
        assert_eq!(rt; read_rows(&mask[..length], &mut []), Err(fault));
    }
    let fault = BookFault::Number {
        place: 5,
        field: Field::RowCount,
    };
    assert_eq!(rt; read_rows(&mask, &mut []), Err(fault));
}

#[test]
fn a_file_with_a_byte_more_is_refused(rt: HostRuntime) -> Result<(), Fail> {
    for byte in 0..=255 {
        let mut file = SITE_F_BOOK.to_vec(rt.alloc())?;
        file.push(byte)?;
        let fault = BookFault::ExtraBytes { place: 19 };
        assert_eq!(rt; read_rows(&file, &mut TABLE), Err(fault));
        assert_eq!(rt; read_rows(&file, &mut []), Err(fault));
    }
    Ok(())
}

// One for each kind of fault.
#[test]
fn faults_are_explained(rt: HostRuntime) -> Result<(), Fail> {
    let heap = rt.alloc();
    for (fault, message) in [
        (
            BookFault::Number {
                place: 1,
                field: Field::Reports,
            },
            "byte 1, the mask of reports: the file ends here, or no number stands here; one has one to four bytes, 128 or more in each but the last, below 128 in the last, and a last byte of 0 only in the number 0",
        ),
        (
            BookFault::Value {
                place: 8,
                field: Field::Side { row: 1 },
            },
            "byte 8, the side of row 1 (from 0): a number that may not stand here; 1 for on, 0 for off",
        ),
        (
            BookFault::ExtraBytes { place: 19 },
            "byte 19: bytes after the last row; as many rows as the number of rows says, and nothing after them",
        ),
        (
            BookFault::TableTooShort,
            "a table of rows that is too short; it needs a place for each row of the file",
        ),
    ] {
        assert_eq!(rt; fault.to_string(heap)?.as_str(), message);
    }
    Ok(())
}
