// What files are written of rows.
use crate::common::{REST, SITE_F_BOOK, row, site_f_rows};
use book::{Row, Side};
use book_file::{Reading, WriteFault, read_rows, write_rows};
use faults::Layer;
use prefix::Prefix;
use std::test::Fail;

#[test]
fn a_file_is_written_at_the_front_of_a_buffer(rt: HostRuntime) -> Result<(), Fail> {
    let prefix = Prefix::new(4, 0b0101).ok_or("refused")?;
    let rows = site_f_rows();
    let mut buffer = [99; 21];
    assert_eq!(rt; write_rows(prefix, &rows, &mut buffer), Ok(19));
    assert_eq!(rt; buffer.get(..19), Some(SITE_F_BOOK));
    assert_eq!(rt; buffer.get(19..), Some([99, 99].as_slice()));
    let mut exact = [99; 19];
    assert_eq!(rt; write_rows(prefix, &rows, &mut exact), Ok(19));
    assert_eq!(rt; exact.as_slice(), SITE_F_BOOK);
    let mut short = [99; 18];
    let fault = write_rows(prefix, &rows, &mut short);
    assert_eq!(rt; fault, Err(WriteFault::BufferTooShort));
    assert_eq!(rt; short, [99; 18]);
    Ok(())
}

// Twelve reports, at the odd positions: masks of three and four bytes.
#[test]
fn large_masks_are_written(rt: HostRuntime) -> Result<(), Fail> {
    let prefix = Prefix::new(24, 0x555555).ok_or("refused")?;
    let rows = [row(24, Side::Off, 0x555555, 0x111111)];
    let wanted = [
        24, 213, 170, 213, 2, 1, 24, 0, 213, 170, 213, 2, 145, 162, 68,
    ];
    let mut buffer = [0; 15];
    assert_eq!(rt; write_rows(prefix, &rows, &mut buffer), Ok(15));
    assert_eq!(rt; buffer, wanted);
    Ok(())
}

// Rows over report, reply, report, reply that no file may have.
const UNFIT_ROWS: &[(usize, u32, u32)] = &[
    (0, 0b0000, 0b0000),
    (1, 0b0000, 0b0000),
    (5, 0b0000, 0b0000),
    (usize::MAX, 0b0000, 0b0000),
    (2, 0b0010, 0b0000),
    (2, 0b0100, 0b0000),
    (4, 0b1000, 0b0000),
    (4, 0xffff_ffff, 0b0000),
    (4, 0b0001, 0b0100),
];

// The first of two such rows, whatever the buffer.
#[test]
fn the_first_unfit_row_is_refused(rt: HostRuntime) -> Result<(), Fail> {
    let prefix = Prefix::new(4, 0b0101).ok_or("refused")?;
    let good = row(4, Side::On, 0b0101, 0b0001);
    for &(position, looked_at, wanted_on) in UNFIT_ROWS {
        let unfit = row(position, Side::On, looked_at, wanted_on);
        let rows = [good, unfit, good, unfit];
        let mut buffer = [99; 40];
        let fault = write_rows(prefix, &rows, &mut buffer).err();
        let fault = fault.ok_or("written")?;
        assert_eq!(rt; fault, WriteFault::Row { index: 1 });
        assert_eq!(rt; fault.number(), 10);
        assert_eq!(rt; fault.place(), 1);
        assert_eq!(rt; fault.layer(), Layer::Book);
        assert_eq!(rt; buffer, [99; 40]);
        assert_eq!(rt; write_rows(prefix, &rows, &mut []), Err(fault));
    }
    Ok(())
}

// Five bytes stand before 65,535 rows, and each row that looks at nothing takes four.
const FULL_SIZE: usize = 5 + 4 * 65_535;

#[test]
fn a_full_file_is_written_and_read(rt: HostRuntime) -> Result<(), Fail> {
    let heap = rt.alloc();
    let prefix = Prefix::new(4, 0b0101).ok_or("refused")?;
    let rows = vec![in heap; row(2, Side::On, 0, 0); 65_535]?;
    let mut buffer = vec![in heap; 99; FULL_SIZE]?;
    assert_eq!(rt; write_rows(prefix, &rows, &mut buffer), Ok(FULL_SIZE));
    let start = [4, 5, 255, 255, 3, 2, 1, 0, 0, 2];
    assert_eq!(rt; buffer.get(..10), Some(start.as_slice()));
    let mut table = vec![in heap; REST; 65_535]?;
    let reading = read_rows(&buffer, &mut table).ok().ok_or("refused")?;
    assert_eq!(rt; reading.rows, 65_535);
    assert!(rt; table == rows);
    Ok(())
}

#[test]
fn a_full_file_needs_each_of_its_bytes(rt: HostRuntime) -> Result<(), Fail> {
    let heap = rt.alloc();
    let prefix = Prefix::new(4, 0b0101).ok_or("refused")?;
    let rows = vec![in heap; row(2, Side::On, 0, 0); 65_535]?;
    let mut buffer = vec![in heap; 99; FULL_SIZE - 1]?;
    let fault = write_rows(prefix, &rows, &mut buffer)
        .err()
        .ok_or("written")?;
    assert_eq!(rt; fault, WriteFault::BufferTooShort);
    assert_eq!(rt; fault.number(), 12);
    assert_eq!(rt; fault.place(), 0);
    assert!(rt; buffer.iter().all(|byte| *byte == 99));
    Ok(())
}

#[test]
fn a_row_more_than_a_file_has_is_refused(rt: HostRuntime) -> Result<(), Fail> {
    let prefix = Prefix::new(4, 0b0101).ok_or("refused")?;
    let rows = vec![in rt.alloc(); row(2, Side::On, 0, 0); 65_536]?;
    let fault = write_rows(prefix, &rows, &mut []).err().ok_or("written")?;
    assert_eq!(rt; fault, WriteFault::Row { index: 65_535 });
    Ok(())
}

// A prefix, and rows over it.
#[derive(Clone, Copy)]
struct RowTable {
    length: usize,
    reports: u32,
    rows: &'static [Row],
}

const ROW_TABLES: &[RowTable] = &[
    RowTable {
        length: 1,
        reports: 0,
        rows: &[],
    },
    // one row twice, and the same for the other side
    RowTable {
        length: 3,
        reports: 0b011,
        rows: &[
            Row {
                position: 3,
                side: Side::On,
                looked_at: 0b011,
                wanted_on: 0b010,
            },
            Row {
                position: 3,
                side: Side::On,
                looked_at: 0b011,
                wanted_on: 0b010,
            },
            Row {
                position: 3,
                side: Side::Off,
                looked_at: 0b011,
                wanted_on: 0b010,
            },
        ],
    },
    // numbers of one, two, three and four bytes
    RowTable {
        length: 24,
        reports: 0x7c03f8,
        rows: &[
            Row {
                position: 24,
                side: Side::Off,
                looked_at: 0x7c03f8,
                wanted_on: 0x0003f8,
            },
            Row {
                position: 24,
                side: Side::On,
                looked_at: 0x1c0080,
                wanted_on: 0x000080,
            },
            Row {
                position: 11,
                side: Side::On,
                looked_at: 0x000018,
                wanted_on: 0x000000,
            },
        ],
    },
];

#[test]
fn what_is_written_is_read_back(rt: HostRuntime) -> Result<(), Fail> {
    for &RowTable {
        length,
        reports,
        rows,
    } in ROW_TABLES {
        let prefix = Prefix::new(length, reports).ok_or("refused")?;
        let mut buffer = [0; 60];
        let size = write_rows(prefix, rows, &mut buffer).ok().ok_or("refused")?;
        let mut table = vec![in rt.alloc(); REST; rows.len()]?;
        let file = buffer.get(..size).ok_or("too long")?;
        let reading = read_rows(file, &mut table);
        let wanted = Reading {
            prefix,
            rows: rows.len(),
        };
        assert_eq!(rt; reading, Ok(wanted));
        assert_eq!(rt; table.as_slice(), rows);
    }
    Ok(())
}
