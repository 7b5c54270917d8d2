// What checking a book comes to, at chosen sheets and books.
use crate::common::{RowParts, SITE_F, SITE_F_ROWS, rows, rules};
use book::{Book, RowBook, Side, TableBook};
use play::{CheckFault, Checked, Verdict, check};
use prefix::Prefix;
use sheet::{ClauseSheet, Form, Rule, TermSheet};
use std::test::Fail;

// A sheet, and books to check for it.
#[derive(Clone, Copy)]
struct SheetCase {
    length: usize,
    reports: u32,
    form: Form,
    rules: &'static [&'static [i32]],
    books: &'static [BookCase],
}

// The rows of a book, and what checking it comes to.
#[derive(Clone, Copy)]
struct BookCase {
    name: &'static str,
    rows: &'static [RowParts],
    verdict: &'static str,
}

// On at position 2, and on or off at position 4 at each setting of the reports 1 and 3, by
// its number.
const TWO_ON: RowParts = (2, Side::On, 0b0000, 0b0000);

const ON_AT_0: RowParts = (4, Side::On, 0b0101, 0b0000);

const ON_AT_1: RowParts = (4, Side::On, 0b0101, 0b0100);

const ON_AT_2: RowParts = (4, Side::On, 0b0101, 0b0001);

const ON_AT_3: RowParts = (4, Side::On, 0b0101, 0b0101);

const OFF_AT_0: RowParts = (4, Side::Off, 0b0101, 0b0000);

const OFF_AT_1: RowParts = (4, Side::Off, 0b0101, 0b0100);

const OFF_AT_2: RowParts = (4, Side::Off, 0b0101, 0b0001);

const OFF_AT_3: RowParts = (4, Side::Off, 0b0101, 0b0101);

const SHEETS: &[SheetCase] = &[
    // site F
    SheetCase {
        length: 4,
        reports: 0b0101,
        form: Form::Cnf,
        rules: SITE_F,
        books: &[
            BookCase {
                name: "the policy of site F",
                rows: SITE_F_ROWS,
                verdict: "accepted",
            },
            BookCase {
                name: "a row more that agrees with nothing",
                rows: &[
                    (2, Side::Off, 0b0100, 0b0100),
                    TWO_ON,
                    ON_AT_0,
                    ON_AT_1,
                    OFF_AT_2,
                    ON_AT_3,
                ],
                verdict: "accepted",
            },
            BookCase {
                name: "no rows",
                rows: &[],
                verdict: "silent 2 0",
            },
            BookCase {
                name: "silent at the first setting",
                rows: &[TWO_ON, ON_AT_1, OFF_AT_2, ON_AT_3],
                verdict: "silent 4 0",
            },
            BookCase {
                name: "silent within",
                rows: &[TWO_ON, (4, Side::On, 0b0100, 0b0100), ON_AT_0],
                verdict: "silent 4 2",
            },
            BookCase {
                name: "silent at the last setting",
                rows: &[TWO_ON, ON_AT_0, ON_AT_1, OFF_AT_2],
                verdict: "silent 4 3",
            },
            BookCase {
                name: "torn at the first setting",
                rows: &[TWO_ON, ON_AT_0, OFF_AT_0, ON_AT_1, OFF_AT_2, ON_AT_3],
                verdict: "torn 4 0",
            },
            BookCase {
                name: "torn within",
                rows: &[
                    TWO_ON,
                    (4, Side::On, 0b0100, 0b0100),
                    ON_AT_0,
                    OFF_AT_2,
                    (4, Side::Off, 0b0100, 0b0100),
                ],
                verdict: "torn 4 1",
            },
            BookCase {
                name: "torn at the last setting",
                rows: &[TWO_ON, ON_AT_0, ON_AT_1, OFF_AT_2, ON_AT_3, OFF_AT_3],
                verdict: "torn 4 3",
            },
            BookCase {
                name: "broken at the first setting",
                rows: &[TWO_ON, OFF_AT_0, ON_AT_1, OFF_AT_2, ON_AT_3],
                verdict: "broken 0 0",
            },
            BookCase {
                name: "broken within",
                rows: &[TWO_ON, (4, Side::On, 0b0100, 0b0100), ON_AT_0, ON_AT_2],
                verdict: "broken 0 2",
            },
            BookCase {
                name: "broken at the last setting",
                rows: &[TWO_ON, ON_AT_0, ON_AT_1, OFF_AT_2, OFF_AT_3],
                verdict: "broken 0 3",
            },
            BookCase {
                name: "silent, and at the later reply torn",
                rows: &[
                    (2, Side::On, 0b0001, 0b0000),
                    ON_AT_0,
                    ON_AT_1,
                    ON_AT_2,
                    OFF_AT_2,
                    ON_AT_3,
                ],
                verdict: "silent 2 2",
            },
            BookCase {
                name: "torn, and at the later reply silent",
                rows: &[
                    TWO_ON,
                    (2, Side::Off, 0b0001, 0b0001),
                    ON_AT_0,
                    ON_AT_1,
                    ON_AT_3,
                ],
                verdict: "torn 2 2",
            },
            BookCase {
                name: "silent at the later reply, then torn at the first",
                rows: &[
                    TWO_ON,
                    (2, Side::Off, 0b0001, 0b0001),
                    ON_AT_0,
                    OFF_AT_2,
                    ON_AT_3,
                ],
                verdict: "silent 4 1",
            },
            BookCase {
                name: "torn at the later reply, then silent at the first",
                rows: &[
                    (2, Side::On, 0b0001, 0b0000),
                    ON_AT_0,
                    ON_AT_1,
                    OFF_AT_1,
                    OFF_AT_2,
                    ON_AT_3,
                ],
                verdict: "torn 4 1",
            },
            BookCase {
                name: "broken, then silent",
                rows: &[TWO_ON, OFF_AT_0, ON_AT_1, ON_AT_3],
                verdict: "broken 0 0",
            },
            BookCase {
                name: "broken, then torn",
                rows: &[TWO_ON, ON_AT_0, OFF_AT_1, ON_AT_2, OFF_AT_2, ON_AT_3],
                verdict: "broken 0 1",
            },
            BookCase {
                name: "silent, then broken",
                rows: &[TWO_ON, ON_AT_0, ON_AT_2, ON_AT_3],
                verdict: "silent 4 1",
            },
            BookCase {
                name: "torn, then broken",
                rows: &[TWO_ON, ON_AT_0, ON_AT_1, OFF_AT_1, ON_AT_2, ON_AT_3],
                verdict: "torn 4 1",
            },
        ],
    },
    // The reply has to be as the report after it. No well-made row of it looks at anything, so
    // a book of such rows says the same whatever comes: silent, torn, on or off.
    SheetCase {
        length: 2,
        reports: 0b10,
        form: Form::Cnf,
        rules: &[&[1, -2], &[-1, 2]],
        books: &[
            BookCase {
                name: "rows that look at a later report",
                rows: &[(1, Side::On, 0b10, 0b10), (1, Side::Off, 0b10, 0b00)],
                verdict: "silent 1 0",
            },
            BookCase {
                name: "torn, whatever comes",
                rows: &[(1, Side::On, 0b00, 0b00), (1, Side::Off, 0b00, 0b00)],
                verdict: "torn 1 0",
            },
            BookCase {
                name: "on, whatever comes",
                rows: &[(1, Side::On, 0b00, 0b00)],
                verdict: "broken 0 0",
            },
            BookCase {
                name: "off, whatever comes",
                rows: &[(1, Side::Off, 0b00, 0b00)],
                verdict: "broken 0 1",
            },
        ],
    },
    // replies only
    SheetCase {
        length: 2,
        reports: 0b00,
        form: Form::Cnf,
        rules: &[&[1], &[-2]],
        books: &[
            BookCase {
                name: "on and off",
                rows: &[(1, Side::On, 0b00, 0b00), (2, Side::Off, 0b00, 0b00)],
                verdict: "accepted",
            },
            BookCase {
                name: "on and silent",
                rows: &[(1, Side::On, 0b00, 0b00)],
                verdict: "silent 2 0",
            },
            BookCase {
                name: "torn and off",
                rows: &[
                    (1, Side::On, 0b00, 0b00),
                    (1, Side::Off, 0b00, 0b00),
                    (2, Side::Off, 0b00, 0b00),
                ],
                verdict: "torn 1 0",
            },
            BookCase {
                name: "on and on",
                rows: &[(1, Side::On, 0b00, 0b00), (2, Side::On, 0b00, 0b00)],
                verdict: "broken 0 0",
            },
        ],
    },
    // reports only
    SheetCase {
        length: 2,
        reports: 0b11,
        form: Form::Cnf,
        rules: &[],
        books: &[BookCase {
            name: "no clauses",
            rows: &[],
            verdict: "accepted",
        }],
    },
    SheetCase {
        length: 2,
        reports: 0b11,
        form: Form::Dnf,
        rules: &[],
        books: &[BookCase {
            name: "no terms",
            rows: &[],
            verdict: "broken 0 0",
        }],
    },
    SheetCase {
        length: 2,
        reports: 0b11,
        form: Form::Cnf,
        rules: &[&[1, -2]],
        books: &[BookCase {
            name: "broken where only report 2 is on",
            rows: &[],
            verdict: "broken 0 1",
        }],
    },
    SheetCase {
        length: 2,
        reports: 0b11,
        form: Form::Cnf,
        rules: &[&[-1, 2]],
        books: &[BookCase {
            name: "broken where only report 1 is on",
            rows: &[],
            verdict: "broken 0 2",
        }],
    },
    // one reply after twelve reports
    SheetCase {
        length: 13,
        reports: 0xfff,
        form: Form::Cnf,
        rules: &[&[-1, -2, -3, -4, -5, -6, -7, -8, -9, -10, -11, -12, -13]],
        books: &[
            BookCase {
                name: "off",
                rows: &[(13, Side::Off, 0x000, 0x000)],
                verdict: "accepted",
            },
            BookCase {
                name: "broken at the last of 4096 settings",
                rows: &[(13, Side::On, 0x000, 0x000)],
                verdict: "broken 0 4095",
            },
            BookCase {
                name: "torn at the last of 4096 settings",
                rows: &[(13, Side::Off, 0x000, 0x000), (13, Side::On, 0xfff, 0xfff)],
                verdict: "torn 13 4095",
            },
            BookCase {
                name: "silent where report 12 is on",
                rows: &[(13, Side::Off, 0x800, 0x000)],
                verdict: "silent 13 1",
            },
            BookCase {
                name: "silent where report 1 is on",
                rows: &[(13, Side::Off, 0x001, 0x000)],
                verdict: "silent 13 2048",
            },
        ],
    },
    // terms
    SheetCase {
        length: 4,
        reports: 0b0101,
        form: Form::Dnf,
        rules: &[&[1, -2], &[-1, 2, 3, 4], &[-1, 2, -3, -4]],
        books: &[
            BookCase {
                name: "each setting by a term",
                rows: &[
                    (2, Side::On, 0b0001, 0b0000),
                    (2, Side::Off, 0b0001, 0b0001),
                    OFF_AT_0,
                    ON_AT_1,
                    ON_AT_2,
                    ON_AT_3,
                ],
                verdict: "accepted",
            },
            BookCase {
                name: "no term at the first setting",
                rows: &[
                    (2, Side::On, 0b0001, 0b0000),
                    (2, Side::Off, 0b0001, 0b0001),
                    (4, Side::On, 0b0000, 0b0000),
                ],
                verdict: "broken 0 0",
            },
            BookCase {
                name: "no term from the third setting on",
                rows: &[
                    (2, Side::On, 0b0000, 0b0000),
                    OFF_AT_0,
                    ON_AT_1,
                    ON_AT_2,
                    ON_AT_3,
                ],
                verdict: "broken 0 2",
            },
        ],
    },
];

fn check_rules<B: Book>(
    prefix: Prefix,
    form: Form,
    rules: &[Rule],
    book: &B,
) -> Result<Checked, CheckFault> {
    match form {
        Form::Cnf => check(&ClauseSheet::new(prefix, rules), book),
        Form::Dnf => check(&TermSheet::new(prefix, rules), book),
    }
}

// The verdicts were worked out apart from `play`, setting by setting.
#[test]
fn books_of_rows_are_checked(rt: HostRuntime) -> Result<(), Fail> {
    let heap = rt.alloc();
    for sheet in SHEETS {
        let prefix = Prefix::new(sheet.length, sheet.reports).ok_or("refused")?;
        let rules = rules(heap, sheet.rules)?;
        for case in sheet.books {
            let rows = rows(heap, case.rows)?;
            let book = RowBook::new(prefix, &rows);
            let checked = check_rules(prefix, sheet.form, &rules, &book)?;
            let verdict = checked.verdict.to_string(heap)?;
            assert_eq!(rt; verdict.as_str(), case.verdict, "{}", case.name);
            assert!(rt; checked.tried >= 1, "{}", case.name);
            assert!(rt; checked.tried <= prefix.setting_count(), "{}", case.name);
        }
    }
    Ok(())
}

// Over site F: of position 2 the words of its guards for on and for off, then of position 4.
#[test]
fn books_of_tables_are_checked(rt: HostRuntime) -> Result<(), Fail> {
    let heap = rt.alloc();
    let prefix = Prefix::new(4, 0b0101).ok_or("refused")?;
    let rules = rules(heap, SITE_F)?;
    let tables: [(&[u64], &str); 11] = [
        (&[0b11, 0b00, 0b1011, 0b0100], "accepted"),
        // bits and words past the last guard
        (&[0b11, 0b00, 0b1_1011, 0b0100, u64::MAX], "accepted"),
        (&[0b11, 0b00, 0b1011, 0b0000], "silent 4 2"),
        (&[0b11, 0b00, 0b0011, 0b0100], "silent 4 3"),
        (&[0b11, 0b00, 0b1011, 0b0110], "torn 4 1"),
        (&[0b11, 0b00, 0b1011, 0b1100], "torn 4 3"),
        (&[0b00, 0b11, 0b1011, 0b0100], "broken 0 0"),
        (&[0b11, 0b00, 0b1111, 0b0000], "broken 0 2"),
        (&[0, 0, 0, 0], "silent 2 0"),
        (&[u64::MAX, u64::MAX, u64::MAX, u64::MAX], "torn 2 0"),
        // no room
        (&[0b11, 0b00, 0b1011], "silent 2 0"),
    ];
    for (words, expected) in tables {
        let mut table = words.to_vec(heap)?;
        let book = TableBook::new(prefix, &mut table);
        let checked = check_rules(prefix, Form::Cnf, &rules, &book)?;
        let verdict = checked.verdict.to_string(heap)?;
        assert_eq!(rt; verdict.as_str(), expected);
        assert!(rt; checked.tried >= 1 && checked.tried <= 4);
    }
    Ok(())
}

#[test]
fn verdicts_have_numbers_and_words(rt: HostRuntime) -> Result<(), Fail> {
    let silent = Verdict::Silent {
        position: 4,
        setting: 2,
    };
    let torn = Verdict::Torn {
        position: 4,
        setting: 1,
    };
    for (verdict, number, position, setting, words) in [
        (Verdict::Accepted, 0, 0, None, "accepted"),
        (silent, 1, 4, Some(2), "silent 4 2"),
        (torn, 2, 4, Some(1), "torn 4 1"),
        (Verdict::Broken { setting: 2 }, 3, 0, Some(2), "broken 0 2"),
    ] {
        assert_eq!(rt; verdict.number(), number);
        assert_eq!(rt; verdict.is_accepted(), number == 0);
        assert_eq!(rt; verdict.position(), position);
        assert_eq!(rt; verdict.setting(), setting);
        assert_eq!(rt; verdict.to_string(rt.alloc())?.as_str(), words);
    }
    Ok(())
}
