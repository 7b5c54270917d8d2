// What a search writes into a list book, and its refusals.
use crate::common::{SITE_F, lost_site_f, record, rules};
use crate::searches::SEARCHED;
use book::{FillableBook, ListBook, Record, Side};
use play::{SearchFault, search_list};
use prefix::{Line, Prefix};
use sheet::{ClauseSheet, Form, TermSheet};
use std::test::Fail;
use worth::WorthStack;

// Memory that no record was written to.
const UNUSED: Record = Record {
    position: 9,
    setting: 9,
    on: true,
    off: true,
};

// Position, setting number and value of each point of site F, as the search meets them.
const SITE_F_POINTS: [(usize, usize, bool); 6] = [
    (2, 0, true),
    (4, 0, true),
    (4, 1, true),
    (2, 1, true),
    (4, 2, false),
    (4, 3, true),
];

// The record of a point at which the policy says so.
fn reply(position: usize, setting: usize, on: bool) -> Record {
    record(position, setting, on, !on)
}

#[test]
fn site_f_is_listed(rt: HostRuntime) -> Result<(), Fail> {
    let prefix = Prefix::new(4, 0b0101).ok_or("refused")?;
    let rules = rules(rt.alloc(), SITE_F)?;
    let mut memory = [UNUSED; 7];
    let mut cells = [true; 4];
    let mut stack = WorthStack::new(&mut cells);
    let mut book = ListBook::new(prefix, &mut memory);
    let found = search_list(&mut stack, &ClauseSheet::new(prefix, &rules), &mut book);
    assert_eq!(rt; found, Ok(()));
    assert_eq!(rt; book.records().len(), 6);
    for (found, (position, setting, on)) in book.records().iter().zip(SITE_F_POINTS) {
        assert_eq!(rt; *found, reply(position, setting, on));
    }
    assert_eq!(rt; memory[6], UNUSED);
    assert_eq!(rt; cells, [false; 4]);
    Ok(())
}

// The lists were worked out by a program apart from `play`.
#[test]
fn sheets_are_searched_into_lists(rt: HostRuntime) -> Result<(), Fail> {
    let heap = rt.alloc();
    for case in SEARCHED {
        let prefix = Prefix::new(case.length, case.reports).ok_or("refused")?;
        let rules = rules(heap, case.rules)?;
        let mut memory = vec![in heap; UNUSED; case.points.len()]?;
        let mut cells = [true; 14];
        let mut stack = WorthStack::new(&mut cells);
        let mut book = ListBook::new(prefix, &mut memory);
        let found = match case.form {
            Form::Cnf => search_list(&mut stack, &ClauseSheet::new(prefix, &rules), &mut book),
            Form::Dnf => search_list(&mut stack, &TermSheet::new(prefix, &rules), &mut book),
        };
        assert_eq!(rt; found, Ok(()));
        assert_eq!(rt; book.records().len(), case.points.len());
        for (found, (position, setting, on)) in memory.iter().zip(case.points) {
            assert_eq!(rt; *found, reply(*position, *setting, *on));
        }
    }
    Ok(())
}

// A list that had other records: they are gone, and the memory is filled from the front.
#[test]
fn a_list_is_searched_again(rt: HostRuntime) -> Result<(), Fail> {
    let heap = rt.alloc();
    let prefix = Prefix::new(4, 0b0101).ok_or("refused")?;
    let first = rules(heap, SITE_F)?;
    let second = rules(heap, &[&[1, -2], &[-1, 2, 3, 4], &[-1, 2, -3, -4]])?;
    let mut memory = [UNUSED; 6];
    let mut cells = [false; 4];
    let mut stack = WorthStack::new(&mut cells);
    let mut book = ListBook::new(prefix, &mut memory);
    book.add(Side::Off, 4, Line::from_mask(0b0101));
    let found = search_list(&mut stack, &ClauseSheet::new(prefix, &first), &mut book);
    assert_eq!(rt; found, Ok(()));
    let again = search_list(&mut stack, &TermSheet::new(prefix, &second), &mut book);
    assert_eq!(rt; again, Ok(()));
    let expected = [
        reply(2, 0, true),
        reply(4, 0, false),
        reply(4, 1, true),
        reply(2, 1, false),
        reply(4, 2, true),
        reply(4, 3, true),
    ];
    assert_eq!(rt; memory, expected);
    Ok(())
}

// Length and reports of the book's prefix, how many cells and records there are, and whether
// some policy wins. A list with room has a record before, which stays.
#[test]
fn refused_searches_leave_the_list(rt: HostRuntime) -> Result<(), Fail> {
    let heap = rt.alloc();
    let prefix = Prefix::new(4, 0b0101).ok_or("refused")?;
    let won = rules(heap, SITE_F)?;
    let lost = lost_site_f(heap)?;
    for (length, reports, cells, records, wins, fault) in [
        (4, 0b0011, 4, 8, true, SearchFault::PrefixesDiffer),
        (5, 0b0101, 5, 10, true, SearchFault::PrefixesDiffer),
        (4, 0b0101, 3, 6, true, SearchFault::StackTooShort),
        (4, 0b0101, 4, 5, true, SearchFault::NoRoom),
        (4, 0b0101, 4, 6, false, SearchFault::NoPolicy),
        (4, 0b0101, 5, 7, false, SearchFault::NoPolicy),
        (4, 0b0011, 3, 7, false, SearchFault::PrefixesDiffer),
        (4, 0b0101, 3, 5, false, SearchFault::StackTooShort),
        (4, 0b0101, 4, 5, false, SearchFault::NoRoom),
    ] {
        let other = Prefix::new(length, reports).ok_or("refused")?;
        let rules = if wins { &won } else { &lost };
        let mut memory = vec![in heap; UNUSED; records]?;
        let mut worths = vec![in heap; true; cells]?;
        let mut book = ListBook::new(other, &mut memory);
        book.add(Side::Off, 4, Line::from_mask(0b0001));
        let before = book.records().to_vec(heap)?;
        let found = search_list(
            &mut WorthStack::new(&mut worths),
            &ClauseSheet::new(prefix, rules),
            &mut book,
        );
        assert_eq!(rt; found, Err(fault));
        assert_eq!(rt; book.records(), before.as_slice());
        for (at, found) in memory.iter().enumerate() {
            assert_eq!(rt; *found, *before.get(at).unwrap_or(&UNUSED));
        }
        for worth in &worths {
            assert_eq!(rt; *worth, fault != SearchFault::NoPolicy);
        }
    }
    Ok(())
}
