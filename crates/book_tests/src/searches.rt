// What a search writes into a table, what it leaves in the stack, and its refusals.
use crate::common::{SITE_F, lost_site_f, rules};
use book::{Book, TableBook};
use play::{SearchFault, search};
use prefix::{Line, Prefix};
use sheet::{ClauseSheet, Form, TermSheet};
use std::test::Fail;
use worth::WorthStack;

#[test]
fn site_f_is_searched(rt: HostRuntime) -> Result<(), Fail> {
    let prefix = Prefix::new(4, 0b0101).ok_or("refused")?;
    let rules = rules(rt.alloc(), SITE_F)?;
    let mut words = [u64::MAX; 5];
    let mut cells = [true; 6];
    let mut stack = WorthStack::new(&mut cells);
    let mut book = TableBook::new(prefix, &mut words);
    let found = search(&mut stack, &ClauseSheet::new(prefix, &rules), &mut book);
    assert_eq!(rt; found, Ok(()));
    for (position, mask, on) in [
        (2, 0b0000, true),
        (2, 0b0001, true),
        (4, 0b0000, true),
        (4, 0b0100, true),
        (4, 0b0001, false),
        (4, 0b0101, true),
    ] {
        let line = Line::from_mask(mask);
        assert_eq!(rt; book.on(position, line), on);
        assert_eq!(rt; book.off(position, line), !on);
    }
    assert_eq!(rt; words, [0b11, 0, 0b1011, 0b0100, u64::MAX]);
    assert_eq!(rt; cells, [false; 6]);
    Ok(())
}

// A sheet, the words that a search makes of garbage, and the points in the order in which it
// meets them: position, the setting's number, and whether the reply is on.
#[derive(Clone, Copy)]
pub(crate) struct Searched {
    pub(crate) length: usize,
    pub(crate) reports: u32,
    pub(crate) form: Form,
    pub(crate) rules: &'static [&'static [i32]],
    words: &'static [u64],
    pub(crate) points: &'static [(usize, usize, bool)],
}

pub(crate) const SEARCHED: &[Searched] = &[
    // three policies win; the searched one is at both positions as report 1
    Searched {
        length: 3,
        reports: 0b001,
        form: Form::Cnf,
        rules: &[&[-3, 1], &[-2, 1], &[3, 2, -1]],
        words: &[0b10, 0b01, 0b10, 0b01],
        points: &[(2, 0, false), (3, 0, false), (2, 1, true), (3, 1, true)],
    },
    // begins and ends with reports: position 2 as report 1, position 3 the other way
    Searched {
        length: 4,
        reports: 0b1001,
        form: Form::Cnf,
        rules: &[&[-2, 1], &[2, 3, 4], &[-3, -2, -4]],
        words: &[0b10, 0b01, 0b01, 0b10],
        points: &[(2, 0, false), (3, 0, true), (2, 1, true), (3, 1, false)],
    },
    // replies only: off, on, off
    Searched {
        length: 3,
        reports: 0b000,
        form: Form::Cnf,
        rules: &[&[-1, 2], &[-1, -2], &[-2, -3]],
        words: &[0, 1, 1, 0, 0, 1],
        points: &[(1, 0, false), (2, 0, true), (3, 0, false)],
    },
    // reports only: no points
    Searched {
        length: 2,
        reports: 0b11,
        form: Form::Cnf,
        rules: &[],
        words: &[],
        points: &[],
    },
    // one reply, then twelve reports: on, then off
    Searched {
        length: 13,
        reports: 0x1ffe,
        form: Form::Cnf,
        rules: &[&[1, 2]],
        words: &[1, 0],
        points: &[(1, 0, true)],
    },
    Searched {
        length: 13,
        reports: 0x1ffe,
        form: Form::Cnf,
        rules: &[&[-1, 2]],
        words: &[0, 1],
        points: &[(1, 0, false)],
    },
    // terms: position 2 on where report 1 is off, position 4 off where both reports are
    Searched {
        length: 4,
        reports: 0b0101,
        form: Form::Dnf,
        rules: &[&[1, -2], &[-1, 2, 3, 4], &[-1, 2, -3, -4]],
        words: &[0b01, 0b10, 0b1110, 0b0001],
        points: &[
            (2, 0, true),
            (4, 0, false),
            (4, 1, true),
            (2, 1, false),
            (4, 2, true),
            (4, 3, true),
        ],
    },
    // a term without literals: every policy wins
    Searched {
        length: 3,
        reports: 0b101,
        form: Form::Dnf,
        rules: &[&[]],
        words: &[0b11, 0],
        points: &[(2, 0, true), (2, 1, true)],
    },
];

#[test]
fn sheets_are_searched(rt: HostRuntime) -> Result<(), Fail> {
    let heap = rt.alloc();
    for case in SEARCHED {
        let prefix = Prefix::new(case.length, case.reports).ok_or("refused")?;
        let rules = rules(heap, case.rules)?;
        let mut words = vec![in heap; u64::MAX; case.words.len()]?;
        let mut cells = [true; 14];
        let mut stack = WorthStack::new(&mut cells);
        let mut book = TableBook::new(prefix, &mut words);
        let found = match case.form {
            Form::Cnf => search(&mut stack, &ClauseSheet::new(prefix, &rules), &mut book),
            Form::Dnf => search(&mut stack, &TermSheet::new(prefix, &rules), &mut book),
        };
        assert_eq!(rt; found, Ok(()));
        assert_eq!(rt; words.as_slice(), case.words);
        assert_eq!(rt; cells, [false; 14]);
    }
    Ok(())
}

// Twelve reports, then a reply that has to be as report 1, which weighs most: on in the
// second half of the settings.
#[test]
fn a_reply_after_twelve_reports(rt: HostRuntime) -> Result<(), Fail> {
    let prefix = Prefix::new(13, 0xfff).ok_or("refused")?;
    let rules = rules(rt.alloc(), &[&[-13, 1], &[13, -1]])?;
    let mut words = [0x0123_4567_89ab_cdef; 128];
    let mut cells = [true; 13];
    let mut stack = WorthStack::new(&mut cells);
    let mut book = TableBook::new(prefix, &mut words);
    let found = search(&mut stack, &ClauseSheet::new(prefix, &rules), &mut book);
    assert_eq!(rt; found, Ok(()));
    for (at, word) in words.iter().enumerate() {
        let all = at >= 32 && at < 96;
        assert_eq!(rt; *word, if all { u64::MAX } else { 0 });
    }
    assert_eq!(rt; cells, [false; 13]);
    Ok(())
}

// Site F first, then the first term sheet of SEARCHED, which leaves the same words here.
#[test]
fn a_book_is_searched_again(rt: HostRuntime) -> Result<(), Fail> {
    let heap = rt.alloc();
    let prefix = Prefix::new(4, 0b0101).ok_or("refused")?;
    let first = rules(heap, SITE_F)?;
    let second = rules(heap, &[&[1, -2], &[-1, 2, 3, 4], &[-1, 2, -3, -4]])?;
    let mut words = [0; 4];
    let mut cells = [false; 4];
    let mut stack = WorthStack::new(&mut cells);
    let mut book = TableBook::new(prefix, &mut words);
    let found = search(&mut stack, &ClauseSheet::new(prefix, &first), &mut book);
    assert_eq!(rt; found, Ok(()));
    let again = search(&mut stack, &TermSheet::new(prefix, &second), &mut book);
    assert_eq!(rt; again, Ok(()));
    assert_eq!(rt; words, [0b01, 0b10, 0b1110, 0b0001]);
    Ok(())
}

// Length and reports of the book's prefix, how many cells and words there are, and whether
// some policy wins: each cause alone, and then several, of which the first is given.
#[test]
fn refused_searches(rt: HostRuntime) -> Result<(), Fail> {
    let heap = rt.alloc();
    let prefix = Prefix::new(4, 0b0101).ok_or("refused")?;
    let won = rules(heap, SITE_F)?;
    let lost = lost_site_f(heap)?;
    for (length, reports, cells, words, wins, fault) in [
        (4, 0b0011, 4, 4, true, SearchFault::PrefixesDiffer),
        (5, 0b0101, 5, 6, true, SearchFault::PrefixesDiffer),
        (4, 0b0101, 3, 4, true, SearchFault::StackTooShort),
        (4, 0b0101, 0, 4, true, SearchFault::StackTooShort),
        (4, 0b0101, 4, 3, true, SearchFault::NoRoom),
        (4, 0b0101, 6, 5, false, SearchFault::NoPolicy),
        (4, 0b0011, 3, 4, true, SearchFault::PrefixesDiffer),
        (4, 0b0011, 4, 3, true, SearchFault::PrefixesDiffer),
        (4, 0b0011, 4, 4, false, SearchFault::PrefixesDiffer),
        (4, 0b0011, 3, 3, false, SearchFault::PrefixesDiffer),
        (4, 0b0101, 3, 3, true, SearchFault::StackTooShort),
        (4, 0b0101, 3, 4, false, SearchFault::StackTooShort),
        (4, 0b0101, 3, 3, false, SearchFault::StackTooShort),
        (4, 0b0101, 4, 3, false, SearchFault::NoRoom),
    ] {
        let other = Prefix::new(length, reports).ok_or("refused")?;
        let rules = if wins { &won } else { &lost };
        let mut table = vec![in heap; u64::MAX; words]?;
        let mut worths = vec![in heap; true; cells]?;
        let found = search(
            &mut WorthStack::new(&mut worths),
            &ClauseSheet::new(prefix, rules),
            &mut TableBook::new(other, &mut table),
        );
        assert_eq!(rt; found, Err(fault));
        for word in &table {
            assert_eq!(rt; *word, u64::MAX);
        }
        for worth in &worths {
            assert_eq!(rt; *worth, fault != SearchFault::NoPolicy);
        }
    }
    Ok(())
}

#[test]
fn refusals_have_numbers_and_words(rt: HostRuntime) -> Result<(), Fail> {
    for (fault, number, words) in [
        (
            SearchFault::PrefixesDiffer,
            13,
            "the sheet and the book have different prefixes",
        ),
        (
            SearchFault::StackTooShort,
            14,
            "the stack has fewer cells than the prefix has positions",
        ),
        (SearchFault::NoRoom, 15, "the book has no room"),
        (SearchFault::NoPolicy, 16, "no policy wins"),
    ] {
        assert_eq!(rt; fault.number(), number);
        assert_eq!(rt; fault.to_string(rt.alloc())?.as_str(), words);
    }
    Ok(())
}
