// What rows, and books of them, answer at chosen prefixes and lines.
use crate::common::{SITE_F_ROWS, row, rows};
use book::{Book, Row, RowBook, Side};
use prefix::{Line, Prefix};
use std::test::Fail;

// Position 2 at both settings of report 1, position 4 at the settings 0 to 3 of the reports
// 1 and 3, and then at lines that are on at replies and past the last position as well.
#[test]
fn a_book_answers_at_its_points(rt: HostRuntime) -> Result<(), Fail> {
    let prefix = Prefix::new(4, 0b0101).ok_or("refused")?;
    let rows = rows(rt.alloc(), SITE_F_ROWS)?;
    let book = RowBook::new(prefix, &rows);
    for (position, mask, on, off) in [
        (2, 0b0000, true, false),
        (2, 0b0001, true, false),
        (4, 0b0000, true, false),
        (4, 0b0100, true, false),
        (4, 0b0001, false, true),
        (4, 0b0101, true, false),
        (4, 0xffff_fffa, true, false),
        (4, 0xffff_fffb, false, true),
    ] {
        let line = Line::from_mask(mask);
        assert_eq!(rt; book.on(position, line), on);
        assert_eq!(rt; book.off(position, line), off);
    }
    Ok(())
}

#[test]
fn a_book_says_no_where_no_reply_stands(rt: HostRuntime) -> Result<(), Fail> {
    let prefix = Prefix::new(4, 0b0101).ok_or("refused")?;
    let rows = rows(rt.alloc(), SITE_F_ROWS)?;
    let book = RowBook::new(prefix, &rows);
    for position in [0, 1, 3, 5, 25, usize::MAX] {
        for mask in [0b0000, 0b0001, 0b0100, 0b0101] {
            let line = Line::from_mask(mask);
            assert_eq!(rt; book.on(position, line), false);
            assert_eq!(rt; book.off(position, line), false);
        }
    }
    Ok(())
}

// Rows of no reply; then rows that look at a reply, at a report after theirs, at their own
// position and past the last; then rows that want on where they do not look. Beside a good
// row they change nothing.
#[test]
fn a_row_that_is_not_well_made_agrees_with_nothing(rt: HostRuntime) -> Result<(), Fail> {
    let prefix = Prefix::new(4, 0b0101).ok_or("refused")?;
    for (position, looked_at, wanted_on) in [
        (0, 0b0000, 0b0000),
        (1, 0b0000, 0b0000),
        (5, 0b0000, 0b0000),
        (usize::MAX, 0b0000, 0b0000),
        (4, 0b0010, 0b0000),
        (4, 0b0010, 0b0010),
        (2, 0b0100, 0b0000),
        (2, 0b0100, 0b0100),
        (4, 0b1000, 0b0000),
        (4, 0b1_0000, 0b0000),
        (4, 0b1_0000, 0b1_0000),
        (4, 0x8000_0000, 0x8000_0000),
        (2, 0b0000, 0b0001),
        (4, 0b0001, 0b0100),
        (4, 0b0001, 0x8000_0001),
    ] {
        let rows = [row(position, Side::On, looked_at, wanted_on)];
        let book = RowBook::new(prefix, &rows);
        let two = [rows[0], row(4, Side::On, 0b0101, 0b0101)];
        let beside = RowBook::new(prefix, &two);
        assert_eq!(rt; rows[0].is_well_made(prefix), false);
        for mask in [0, 0b0101, 0xffff_fffa] {
            let line = Line::from_mask(mask);
            assert_eq!(rt; rows[0].agrees(prefix, line), false);
            assert_eq!(rt; book.on(position, line), false);
            assert_eq!(rt; beside.on(4, line), mask == 0b0101);
        }
    }
    Ok(())
}

// Reports at 1 and 23 of 24 positions, and the row of the last.
#[test]
fn a_row_looks_at_reports_before_its_position(rt: HostRuntime) -> Result<(), Fail> {
    let prefix = Prefix::new(24, 0x400001).ok_or("refused")?;
    let last = row(24, Side::On, 0x400001, 0x400000);
    assert_eq!(rt; last.is_well_made(prefix), true);
    for (mask, agrees) in [
        (0x000000, false),
        (0x400000, true),
        (0x000001, false),
        (0x400001, false),
        (0xfffffffe, true),
    ] {
        assert_eq!(rt; last.agrees(prefix, Line::from_mask(mask)), agrees);
    }
    Ok(())
}

// One reply after one report: no row, one row for each value of the report, and one row
// for each side, so that both guards are yes where the report is on.
#[test]
fn several_rows_of_one_reply(rt: HostRuntime) -> Result<(), Fail> {
    let prefix = Prefix::new(2, 0b01).ok_or("refused")?;
    let none: [Row; 0] = [];
    let on_off = [row(2, Side::On, 0b01, 0b00), row(2, Side::On, 0b01, 0b01)];
    let both = [row(2, Side::On, 0b00, 0b00), row(2, Side::Off, 0b01, 0b01)];
    for (mask, off) in [(0b00, false), (0b01, true)] {
        let line = Line::from_mask(mask);
        assert_eq!(rt; RowBook::new(prefix, &none).on(2, line), false);
        assert_eq!(rt; RowBook::new(prefix, &none).off(2, line), false);
        assert_eq!(rt; RowBook::new(prefix, &on_off).on(2, line), true);
        assert_eq!(rt; RowBook::new(prefix, &on_off).off(2, line), false);
        assert_eq!(rt; RowBook::new(prefix, &both).on(2, line), true);
        assert_eq!(rt; RowBook::new(prefix, &both).off(2, line), off);
    }
    Ok(())
}
