// Lists of records that are checked, and that rounds are played from.
use crate::common::{Add, REST, SITE_F, add_all, rules};
use book::{ListBook, Side};
use play::{Answer, Call, check, play_calls, search_list};
use prefix::Prefix;
use sheet::ClauseSheet;
use std::test::Fail;
use worth::WorthStack;

// Guards added over site F one after the other, and what checking the list comes to.
const CHECKED: &[(&[Add], &str)] = &[
    (&[], "silent 2 0"),
    // site F's policy, as a search adds it
    (
        &[
            (Side::On, 2, 0b0000),
            (Side::On, 4, 0b0000),
            (Side::On, 4, 0b0100),
            (Side::On, 2, 0b0001),
            (Side::Off, 4, 0b0001),
            (Side::On, 4, 0b0101),
        ],
        "accepted",
    ),
    // the same from the end to the front
    (
        &[
            (Side::On, 4, 0b0101),
            (Side::Off, 4, 0b0001),
            (Side::On, 2, 0b0001),
            (Side::On, 4, 0b0100),
            (Side::On, 4, 0b0000),
            (Side::On, 2, 0b0000),
        ],
        "accepted",
    ),
    // a point left out
    (
        &[
            (Side::On, 4, 0b0101),
            (Side::On, 2, 0b0001),
            (Side::On, 4, 0b0100),
            (Side::On, 4, 0b0000),
            (Side::On, 2, 0b0000),
        ],
        "silent 4 2",
    ),
    // both guards of a point
    (
        &[
            (Side::On, 2, 0b0000),
            (Side::On, 4, 0b0000),
            (Side::On, 4, 0b0100),
            (Side::On, 2, 0b0001),
            (Side::Off, 4, 0b0001),
            (Side::On, 4, 0b0101),
            (Side::Off, 4, 0b0100),
        ],
        "torn 4 1",
    ),
    // on where off was
    (
        &[
            (Side::On, 2, 0b0000),
            (Side::On, 4, 0b0000),
            (Side::On, 4, 0b0100),
            (Side::On, 2, 0b0001),
            (Side::On, 4, 0b0001),
            (Side::On, 4, 0b0101),
        ],
        "broken 0 2",
    ),
];

#[test]
fn lists_are_checked(rt: HostRuntime) -> Result<(), Fail> {
    let heap = rt.alloc();
    let prefix = Prefix::new(4, 0b0101).ok_or("refused")?;
    let rules = rules(heap, SITE_F)?;
    let sheet = ClauseSheet::new(prefix, &rules);
    for (adds, expected) in CHECKED {
        let mut memory = [REST; 6];
        let mut book = ListBook::new(prefix, &mut memory);
        add_all(&mut book, adds);
        let verdict = check(&sheet, &book)?.verdict.to_string(heap)?;
        assert_eq!(rt; verdict.as_str(), *expected);
    }
    Ok(())
}

// A list that is searched is accepted, and a round is played from it: off at position 4 where
// report 1 is on and report 3 is not, and on after the report is taken back and told again.
#[test]
fn a_round_from_a_list(rt: HostRuntime) -> Result<(), Fail> {
    let prefix = Prefix::new(4, 0b0101).ok_or("refused")?;
    let rules = rules(rt.alloc(), SITE_F)?;
    let sheet = ClauseSheet::new(prefix, &rules);
    let mut memory = [REST; 6];
    let mut cells = [true; 4];
    let mut book = ListBook::new(prefix, &mut memory);
    search_list(&mut WorthStack::new(&mut cells), &sheet, &mut book)?;
    assert_eq!(rt; check(&sheet, &book)?.verdict.is_accepted(), true);
    let calls = [
        Call::Tell(true),
        Call::Reply,
        Call::Tell(false),
        Call::Reply,
        Call::Back(2),
        Call::Tell(true),
        Call::Reply,
    ];
    let mut answers = [Answer::WentBack; 7];
    let played = play_calls(&sheet, &book, &calls, &mut answers)?;
    assert_eq!(rt; played.calls, 7);
    let expected = [
        Answer::Told,
        Answer::Replied(true),
        Answer::Told,
        Answer::Replied(false),
        Answer::WentBack,
        Answer::Told,
        Answer::Replied(true),
    ];
    assert_eq!(rt; answers, expected);
    assert_eq!(rt; played.so_far.length, 4);
    Ok(())
}
