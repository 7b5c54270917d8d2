// What is listed of chosen books.
use crate::common::{REST, row};
use book::{FillableBook, ListBook, Record, RowBook, Side};
use book_file::{ListFault, list_rows};
use prefix::{Line, Prefix};
use std::test::Fail;

// A row that looks at nothing is one row for each setting, and a guard that two rows make
// yes is one row.
#[test]
fn a_book_as_rows_of_points(rt: HostRuntime) -> Result<(), Fail> {
    let prefix = Prefix::new(4, 0b0101).ok_or("refused")?;
    let rows = [
        row(4, Side::Off, 0b0001, 0b0001),
        row(4, Side::On, 0b0101, 0b0101),
        row(2, Side::On, 0, 0),
        row(4, Side::Off, 0b0101, 0b0001),
    ];
    let book = RowBook::new(prefix, &rows);
    let mut table = [REST; 6];
    assert_eq!(rt; list_rows(&book, &mut table), Ok(5));
    assert_eq!(rt;
        table,
        [
            row(2, Side::On, 0b0001, 0b0000),
            row(2, Side::On, 0b0001, 0b0001),
            row(4, Side::Off, 0b0101, 0b0001),
            row(4, Side::On, 0b0101, 0b0101),
            row(4, Side::Off, 0b0101, 0b0101),
            REST,
        ]
    );
    Ok(())
}

// Records in another order than rows are listed in, one with both guards. The rows of a point
// look at all reports before its position.
#[test]
fn a_list_book_as_rows_of_points(rt: HostRuntime) -> Result<(), Fail> {
    let prefix = Prefix::new(4, 0b0101).ok_or("refused")?;
    let mut memory = [Record::default(); 6];
    let mut book = ListBook::new(prefix, &mut memory);
    for (side, position, mask) in [
        (Side::Off, 4, 0b0101),
        (Side::Off, 2, 0b0001),
        (Side::On, 4, 0b0100),
        (Side::On, 4, 0b0101),
        (Side::On, 2, 0b0000),
    ] {
        book.add(side, position, Line::from_mask(mask));
    }
    let mut table = [REST; 6];
    assert_eq!(rt; list_rows(&book, &mut table), Ok(5));
    assert_eq!(rt;
        table,
        [
            row(2, Side::On, 0b0001, 0b0000),
            row(2, Side::Off, 0b0001, 0b0001),
            row(4, Side::On, 0b0101, 0b0100),
            row(4, Side::On, 0b0101, 0b0101),
            row(4, Side::Off, 0b0101, 0b0101),
            REST,
        ]
    );
    let mut short = [REST; 4];
    assert_eq!(rt; list_rows(&book, &mut short), Err(ListFault::TableTooShort));
    assert_eq!(rt; short, [REST; 4]);
    Ok(())
}

#[test]
fn a_table_too_short_is_as_it_was(rt: HostRuntime) -> Result<(), Fail> {
    let prefix = Prefix::new(4, 0b0101).ok_or("refused")?;
    let rows = [row(2, Side::On, 0, 0)];
    let book = RowBook::new(prefix, &rows);
    let mut table = [REST; 1];
    assert_eq!(rt; list_rows(&book, &mut table), Err(ListFault::TableTooShort));
    assert_eq!(rt; table, [REST]);
    Ok(())
}
