// List books: the records that adding makes, room, garbage, and positions where no reply
// stands.
use crate::common::{Add, REST, add_all, record};
use book::{Book, FillableBook, ListBook, Record, Side};
use prefix::{Line, Prefix};
use std::test::Fail;

// There is room where there are as many records as points, and not with one less.
#[test]
fn records_that_give_room(rt: HostRuntime) -> Result<(), Fail> {
    let heap = rt.alloc();
    for (length, reports, points) in [
        (1, 0b0, 1),
        (3, 0b000, 3),
        (3, 0b111, 0),
        (4, 0b0011, 8),
        (4, 0b0101, 6),
        (5, 0b01111, 16),
        // the last is a report, before which no reply stands but those counted
        (2, 0b10, 1),
        (4, 0b1001, 4),
        (13, 0xfff, 4096),
        // twelve replies, then twelve reports; in turn; the other way round
        (24, 0xfff000, 12),
        (24, 0x555555, 8190),
        (24, 0x000fff, 49152),
    ] {
        let prefix = Prefix::new(length, reports).ok_or("refused")?;
        let mut memory = vec![in heap; REST; points]?;
        assert_eq!(rt; ListBook::new(prefix, &mut memory).room(), true);
        if points > 0 {
            let less = &mut memory[..points - 1];
            assert_eq!(rt; ListBook::new(prefix, less).room(), false);
        }
    }
    Ok(())
}

// A record's position and setting, and its guards for on and for off.
type Parts = (usize, usize, bool, bool);

// Guards that are added one after the other over report, reply, report, reply, and the
// records that stand then.
#[derive(Clone, Copy)]
struct Order {
    name: &'static str,
    adds: &'static [Add],
    records: &'static [Parts],
}

const ORDERS: &[Order] = &[
    Order {
        name: "as a search goes",
        adds: &[
            (Side::On, 2, 0b0000),
            (Side::On, 4, 0b0000),
            (Side::Off, 4, 0b0100),
            (Side::Off, 2, 0b0001),
            (Side::On, 4, 0b0001),
            (Side::Off, 4, 0b0101),
        ],
        records: &[
            (2, 0, true, false),
            (4, 0, true, false),
            (4, 1, false, true),
            (2, 1, false, true),
            (4, 2, true, false),
            (4, 3, false, true),
        ],
    },
    Order {
        name: "backwards",
        adds: &[
            (Side::On, 4, 0b0101),
            (Side::On, 4, 0b0001),
            (Side::On, 2, 0b0001),
            (Side::On, 4, 0b0100),
            (Side::On, 4, 0b0000),
            (Side::On, 2, 0b0000),
        ],
        records: &[
            (4, 3, true, false),
            (4, 2, true, false),
            (2, 1, true, false),
            (4, 1, true, false),
            (4, 0, true, false),
            (2, 0, true, false),
        ],
    },
    Order {
        name: "both sides, and then again",
        adds: &[
            (Side::Off, 4, 0b0100),
            (Side::On, 4, 0b0100),
            (Side::On, 4, 0b0100),
            (Side::Off, 4, 0b0100),
        ],
        records: &[(4, 1, true, true)],
    },
    Order {
        name: "the same guard twice",
        adds: &[(Side::Off, 2, 0b0000), (Side::Off, 2, 0b0000)],
        records: &[(2, 0, false, true)],
    },
    Order {
        name: "as a search goes, then not, and each second point again",
        adds: &[
            (Side::On, 2, 0b0000),
            (Side::On, 4, 0b0000),
            (Side::On, 4, 0b0101),
            (Side::Off, 4, 0b0100),
            (Side::On, 2, 0b0001),
            (Side::Off, 4, 0b0000),
            (Side::Off, 4, 0b0101),
            (Side::Off, 2, 0b0001),
            (Side::Off, 4, 0b0001),
            (Side::On, 4, 0b0100),
        ],
        records: &[
            (2, 0, true, false),
            (4, 0, true, true),
            (4, 3, true, true),
            (4, 1, true, true),
            (2, 1, true, true),
            (4, 2, false, true),
        ],
    },
    // What a line says at replies and at reports that come later does not count.
    Order {
        name: "other lines of the same points",
        adds: &[
            (Side::On, 4, 0b1011),
            (Side::Off, 2, 0b1110),
            (Side::Off, 4, 0b0001),
            (Side::On, 2, 0b0100),
            (Side::On, 2, 0xffff_ffff),
            (Side::On, 4, 0xffff_fffe),
            (Side::Off, 2, 0b0011),
        ],
        records: &[
            (4, 2, true, true),
            (2, 0, true, true),
            (2, 1, true, true),
            (4, 1, true, false),
        ],
    },
];

// What records say at a position and a setting: their guards for on and for off.
fn said(records: &[Parts], position: usize, setting: usize) -> (bool, bool) {
    for (of, at, on, off) in records {
        if *of == position && *at == setting {
            return (*on, *off);
        }
    }
    (false, false)
}

// Memory past the records is as it was.
#[test]
fn records_stand_in_the_order_of_first_adding(rt: HostRuntime) -> Result<(), Fail> {
    let prefix = Prefix::new(4, 0b0101).ok_or("refused")?;
    for order in ORDERS {
        let name = order.name;
        let mut memory = [REST; 7];
        let mut book = ListBook::new(prefix, &mut memory);
        add_all(&mut book, order.adds);
        assert_eq!(rt; book.records().len(), order.records.len(), "{name}");
        for (at, found) in memory.iter().enumerate() {
            let expected = match order.records.get(at) {
                Some((position, setting, on, off)) => record(*position, *setting, *on, *off),
                None => REST,
            };
            assert_eq!(rt; *found, expected, "{name}: {at}");
        }
    }
    Ok(())
}

#[test]
fn a_list_answers_as_its_records_say(rt: HostRuntime) -> Result<(), Fail> {
    let prefix = Prefix::new(4, 0b0101).ok_or("refused")?;
    for order in ORDERS {
        let name = order.name;
        let mut memory = [REST; 6];
        let mut book = ListBook::new(prefix, &mut memory);
        add_all(&mut book, order.adds);
        for (mask, two, four) in [
            (0b0000, 0, 0),
            (0b0001, 1, 2),
            (0b0100, 0, 1),
            (0b0101, 1, 3),
            (0b1010, 0, 0),
            (0b1011, 1, 2),
            (0xffff_fffe, 0, 1),
            (0xffff_ffff, 1, 3),
        ] {
            let line = Line::from_mask(mask);
            for (position, setting) in [(2, two), (4, four)] {
                let (on, off) = said(order.records, position, setting);
                assert_eq!(rt; book.on(position, line), on, "{name}: {position} {mask}");
                assert_eq!(rt; book.off(position, line), off, "{name}: {position} {mask}");
            }
        }
    }
    Ok(())
}

// Reports at the first and the last position, so that a search finds no new point at every
// second setting. Then replies only, which have one setting.
#[test]
fn lists_of_other_prefixes(rt: HostRuntime) -> Result<(), Fail> {
    let prefix = Prefix::new(4, 0b1001).ok_or("refused")?;
    let mut memory = [REST; 4];
    let mut book = ListBook::new(prefix, &mut memory);
    let adds = [
        (Side::On, 2, 0b0000),
        (Side::Off, 3, 0b1000),
        (Side::Off, 2, 0b0001),
        (Side::On, 3, 0b1001),
        (Side::Off, 2, 0b1000),
    ];
    add_all(&mut book, &adds);
    let expected = [
        record(2, 0, true, true),
        record(3, 0, false, true),
        record(2, 1, false, true),
        record(3, 1, true, false),
    ];
    assert_eq!(rt; memory, expected);
    let prefix = Prefix::new(3, 0b000).ok_or("refused")?;
    let mut memory = [REST; 3];
    let mut book = ListBook::new(prefix, &mut memory);
    let adds = [
        (Side::On, 2, 0b000),
        (Side::Off, 1, 0b111),
        (Side::Off, 3, 0b010),
        (Side::Off, 2, 0b101),
    ];
    add_all(&mut book, &adds);
    let expected = [
        record(2, 0, true, true),
        record(1, 0, false, true),
        record(3, 0, false, true),
    ];
    assert_eq!(rt; memory, expected);
    Ok(())
}

#[test]
fn positions_where_no_reply_stands(rt: HostRuntime) -> Result<(), Fail> {
    let prefix = Prefix::new(4, 0b0101).ok_or("refused")?;
    let mut memory = [REST; 6];
    let mut book = ListBook::new(prefix, &mut memory);
    book.add(Side::On, 2, Line::from_mask(0));
    for position in [0, 1, 3, 5, 25, usize::MAX] {
        for mask in [0, u32::MAX] {
            let line = Line::from_mask(mask);
            book.add(Side::On, position, line);
            book.add(Side::Off, position, line);
            assert_eq!(rt; book.on(position, line), false);
            assert_eq!(rt; book.off(position, line), false);
        }
    }
    assert_eq!(rt; book.records().len(), 1);
    let mut expected = [REST; 6];
    expected[0] = record(2, 0, true, false);
    assert_eq!(rt; memory, expected);
    Ok(())
}

#[test]
fn garbage_before_the_first_guard(rt: HostRuntime) -> Result<(), Fail> {
    let prefix = Prefix::new(4, 0b0101).ok_or("refused")?;
    let mut memory = [REST; 6];
    let book = ListBook::new(prefix, &mut memory);
    assert_eq!(rt; book.prefix(), prefix);
    assert_eq!(rt; book.records().len(), 0);
    for position in 0..6 {
        for mask in 0..16 {
            let line = Line::from_mask(mask);
            assert_eq!(rt; book.on(position, line), false);
            assert_eq!(rt; book.off(position, line), false);
        }
    }
    assert_eq!(rt; memory, [REST; 6]);
    Ok(())
}

fn is_yes(book: &ListBook<'_>, (side, position, mask): Add) -> bool {
    let line = Line::from_mask(mask);
    match side {
        Side::On => book.on(position, line),
        Side::Off => book.off(position, line),
    }
}

#[test]
fn a_cleared_list_is_filled_from_the_front(rt: HostRuntime) -> Result<(), Fail> {
    let prefix = Prefix::new(4, 0b0101).ok_or("refused")?;
    let mut memory = [REST; 6];
    let mut book = ListBook::new(prefix, &mut memory);
    // the first two as a search puts them
    let first = [
        (Side::On, 2, 0b0000),
        (Side::On, 4, 0b0000),
        (Side::Off, 4, 0b0101),
    ];
    add_all(&mut book, &first);
    book.clear();
    assert_eq!(rt; book.records().len(), 0);
    assert_eq!(rt; book.room(), true);
    for guard in [
        (Side::On, 2, 0b0101),
        (Side::On, 4, 0b0000),
        (Side::Off, 4, 0b0101),
    ] {
        assert_eq!(rt; is_yes(&book, guard), false);
    }
    let second = [(Side::On, 4, 0b0101), (Side::Off, 2, 0b0101)];
    add_all(&mut book, &second);
    assert_eq!(rt; book.records().len(), 2);
    for (guard, yes) in [
        ((Side::On, 4, 0b0101), true),
        ((Side::Off, 4, 0b0101), false),
        ((Side::On, 4, 0b0000), false),
    ] {
        assert_eq!(rt; is_yes(&book, guard), yes);
    }
    let mut expected = [REST; 6];
    expected[0] = record(4, 3, true, false);
    expected[1] = record(2, 1, false, true);
    // left by the first filling
    expected[2] = record(4, 3, false, true);
    assert_eq!(rt; memory, expected);
    Ok(())
}

// Clearing alone leaves all memory as it is.
#[test]
fn clear_leaves_the_memory(rt: HostRuntime) -> Result<(), Fail> {
    let prefix = Prefix::new(4, 0b0101).ok_or("refused")?;
    let mut memory = [REST; 8];
    let mut book = ListBook::new(prefix, &mut memory);
    book.add(Side::Off, 4, Line::from_mask(0b0001));
    book.add(Side::On, 2, Line::from_mask(0b0001));
    book.clear();
    book.clear();
    let mut expected = [REST; 8];
    expected[0] = record(4, 2, false, true);
    expected[1] = record(2, 1, true, false);
    assert_eq!(rt; memory, expected);
    Ok(())
}

// One record less than there are points.
#[test]
fn without_room_nothing_is_altered(rt: HostRuntime) -> Result<(), Fail> {
    let prefix = Prefix::new(4, 0b0101).ok_or("refused")?;
    let mut memory = [REST; 5];
    let mut book = ListBook::new(prefix, &mut memory);
    for position in 0..6 {
        for mask in 0..16 {
            let line = Line::from_mask(mask);
            book.add(Side::On, position, line);
            book.add(Side::Off, position, line);
            assert_eq!(rt; book.on(position, line), false);
            assert_eq!(rt; book.off(position, line), false);
        }
    }
    book.clear();
    assert_eq!(rt; book.records().len(), 0);
    assert_eq!(rt; book.room(), false);
    assert_eq!(rt; memory, [REST; 5]);
    Ok(())
}

// The first and the last points, and memory for no more than all 49,152.
#[test]
fn a_list_over_24_positions(rt: HostRuntime) -> Result<(), Fail> {
    let prefix = Prefix::new(24, 0x000fff).ok_or("refused")?;
    let mut memory = vec![in rt.alloc(); Record::default(); Prefix::MOST_POINTS]?;
    let mut book = ListBook::new(prefix, &mut memory);
    let last = Line::from_mask(0xffff_ffff);
    let first = Line::from_mask(0xffff_f000);
    for (side, position, line) in [
        (Side::On, 24, last),
        (Side::Off, 13, first),
        (Side::On, 12, first),
        (Side::On, 25, first),
        // report 12 weighs least
        (Side::On, 13, Line::from_mask(0x000800)),
    ] {
        book.add(side, position, line);
    }
    for (position, line, on, off) in [
        (24, last, true, false),
        (13, first, false, true),
        (24, first, false, false),
        (13, last, false, false),
    ] {
        assert_eq!(rt; book.on(position, line), on);
        assert_eq!(rt; book.off(position, line), off);
    }
    let expected = [
        record(24, 4095, true, false),
        record(13, 0, false, true),
        record(13, 1, true, false),
    ];
    assert_eq!(rt; book.records(), expected.as_slice());
    Ok(())
}
