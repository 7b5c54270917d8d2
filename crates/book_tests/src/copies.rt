// Copying rows, tables and lists into tables and lists, and the refusals.
use crate::common::{REST, RowParts, SITE_F_ROWS, add_all, record, rows};
use book::{Book, CopyFault, FillableBook, ListBook, RowBook, Side, TableBook, copy_into};
use prefix::{Line, Prefix};
use std::test::Fail;

// Site F's rows, with one second that agrees with nothing, and one last that makes both guards
// of position 4 yes where report 3 is on.
const MIXED_ROWS: &[RowParts] = &[
    (2, Side::On, 0b0000, 0b0000),
    (2, Side::Off, 0b0100, 0b0100),
    (4, Side::On, 0b0100, 0b0100),
    (4, Side::On, 0b0101, 0b0000),
    (4, Side::Off, 0b0101, 0b0001),
    (4, Side::Off, 0b0100, 0b0100),
];

#[test]
fn a_copy_has_the_same_guards(rt: HostRuntime) -> Result<(), Fail> {
    let prefix = Prefix::new(4, 0b0101).ok_or("refused")?;
    let all = rows(rt.alloc(), MIXED_ROWS)?;
    let rows = RowBook::new(prefix, &all);
    let mut words = [u64::MAX; 5];
    let mut table = TableBook::new(prefix, &mut words);
    assert_eq!(rt; copy_into(&rows, &mut table), Ok(()));
    for position in 0..6 {
        for mask in 0..16 {
            let line = Line::from_mask(mask);
            assert_eq!(rt; table.on(position, line), rows.on(position, line));
            assert_eq!(rt; table.off(position, line), rows.off(position, line));
        }
    }
    // settings 0 to 3 of position 4: on at 0, 1 and 3, off at 1, 2 and 3
    assert_eq!(rt; words, [0b11, 0, 0b1011, 0b1110, u64::MAX]);
    Ok(())
}

// A list gets its points by position, and then by setting.
#[test]
fn a_copy_into_a_list(rt: HostRuntime) -> Result<(), Fail> {
    let prefix = Prefix::new(4, 0b0101).ok_or("refused")?;
    let all = rows(rt.alloc(), MIXED_ROWS)?;
    let rows = RowBook::new(prefix, &all);
    let mut memory = [REST; 7];
    let mut list = ListBook::new(prefix, &mut memory);
    // gone after the copy
    list.add(Side::Off, 2, Line::from_mask(0));
    assert_eq!(rt; copy_into(&rows, &mut list), Ok(()));
    assert_eq!(rt; list.records().len(), 6);
    let expected = [
        record(2, 0, true, false),
        record(2, 1, true, false),
        record(4, 0, true, false),
        record(4, 1, true, true),
        record(4, 2, false, true),
        record(4, 3, true, true),
        REST,
    ];
    assert_eq!(rt; memory, expected);
    Ok(())
}

// Off at both settings of position 2, and of position 4 on at 0, both at 3; nothing at 1 and 2.
#[test]
fn a_copy_of_a_list(rt: HostRuntime) -> Result<(), Fail> {
    let prefix = Prefix::new(4, 0b0101).ok_or("refused")?;
    let mut memory = [REST; 6];
    let mut list = ListBook::new(prefix, &mut memory);
    let adds = [
        (Side::Off, 2, 0b0000),
        (Side::On, 4, 0b0101),
        (Side::On, 4, 0b0000),
        (Side::Off, 2, 0b0001),
        (Side::Off, 4, 0b0101),
    ];
    add_all(&mut list, &adds);
    let mut words = [u64::MAX; 5];
    let mut table = TableBook::new(prefix, &mut words);
    assert_eq!(rt; copy_into(&list, &mut table), Ok(()));
    assert_eq!(rt; words, [0, 0b11, 0b1001, 0b1000, u64::MAX]);
    Ok(())
}

// Seven reports, then two replies: two words a block.
#[test]
fn a_copy_of_a_table(rt: HostRuntime) -> Result<(), Fail> {
    let prefix = Prefix::new(9, 0x7f).ok_or("refused")?;
    let mut words = [0x0123_4567_89ab_cdef; 9];
    let table = TableBook::new(prefix, &mut words);
    let mut more = [u64::MAX; 9];
    let mut copy = TableBook::new(prefix, &mut more);
    assert_eq!(rt; copy_into(&table, &mut copy), Ok(()));
    let mut expected = [0x0123_4567_89ab_cdef; 9];
    expected[8] = u64::MAX;
    assert_eq!(rt; more, expected);
    Ok(())
}

// Of garbage only what guards say is copied, and no rows leave every block 0.
#[test]
fn copies_of_garbage_and_of_nothing(rt: HostRuntime) -> Result<(), Fail> {
    let prefix = Prefix::new(4, 0b0101).ok_or("refused")?;
    let mut words = [u64::MAX; 4];
    let garbage = TableBook::new(prefix, &mut words);
    let mut more = [7; 4];
    let mut copy = TableBook::new(prefix, &mut more);
    assert_eq!(rt; copy_into(&garbage, &mut copy), Ok(()));
    assert_eq!(rt;
        copy_into(
            &RowBook::new(prefix, &[]),
            &mut TableBook::new(prefix, &mut words)
        ),
        Ok(())
    );
    assert_eq!(rt; more, [0b11, 0b11, 0b1111, 0b1111]);
    assert_eq!(rt; words, [0; 4]);
    Ok(())
}

#[test]
fn refused_copies_alter_nothing(rt: HostRuntime) -> Result<(), Fail> {
    let prefix = Prefix::new(4, 0b0101).ok_or("refused")?;
    let all = rows(rt.alloc(), SITE_F_ROWS)?;
    let rows = RowBook::new(prefix, &all);
    for (length, reports, count, fault) in [
        (4, 0b0101, 3, CopyFault::NoRoom),
        (4, 0b0011, 4, CopyFault::PrefixesDiffer),
        (5, 0b0101, 8, CopyFault::PrefixesDiffer),
        // both: the prefixes come first
        (4, 0b0011, 0, CopyFault::PrefixesDiffer),
    ] {
        let other = Prefix::new(length, reports).ok_or("refused")?;
        let mut words = [u64::MAX; 8];
        let mut table = TableBook::new(other, &mut words[..count]);
        assert_eq!(rt; copy_into(&rows, &mut table), Err(fault));
        assert_eq!(rt; words, [u64::MAX; 8]);
    }
    Ok(())
}

// A list without room holds no records; one with room, over another prefix, keeps its own.
#[test]
fn refused_copies_into_lists(rt: HostRuntime) -> Result<(), Fail> {
    let prefix = Prefix::new(4, 0b0101).ok_or("refused")?;
    let all = rows(rt.alloc(), SITE_F_ROWS)?;
    let rows = RowBook::new(prefix, &all);
    let mut memory = [REST; 5];
    let mut list = ListBook::new(prefix, &mut memory);
    assert_eq!(rt; copy_into(&rows, &mut list), Err(CopyFault::NoRoom));
    assert_eq!(rt; list.records().len(), 0);
    assert_eq!(rt; memory, [REST; 5]);
    let other = Prefix::new(3, 0b011).ok_or("refused")?;
    let mut list = ListBook::new(other, &mut memory);
    list.add(Side::Off, 3, Line::from_mask(0b010));
    let kept = record(3, 1, false, true);
    assert_eq!(rt; copy_into(&rows, &mut list), Err(CopyFault::PrefixesDiffer));
    assert_eq!(rt; list.records(), [kept].as_slice());
    assert_eq!(rt; memory, [kept, REST, REST, REST, REST]);
    Ok(())
}

#[test]
fn refusals_have_numbers_and_words(rt: HostRuntime) -> Result<(), Fail> {
    for (fault, number, words) in [
        (
            CopyFault::PrefixesDiffer,
            13,
            "the two books have different prefixes",
        ),
        (CopyFault::NoRoom, 15, "the book to fill has no room"),
    ] {
        assert_eq!(rt; fault.number(), number);
        assert_eq!(rt; fault.to_string(rt.alloc())?.as_str(), words);
    }
    Ok(())
}
