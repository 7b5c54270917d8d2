// Opening a round, and its calls.
use crate::common::{RowParts, SITE_F, SITE_F_ROWS, rows, rules};
use book::{Book, FillableBook, ListBook, Record, RowBook, Side, TableBook};
use play::{Answer, Call, CheckFault, Checked, OpenFault, RoundFault, Verdict, check, open};
use prefix::{Kind, Line, PartLine, Prefix};
use sheet::{ClauseSheet, Sheet};
use std::process::Abort;
use std::test::Fail;

// The policy's book over its own prefix and over others; then its rows without the last, off
// where report 1 is on and report 3 is not, and with others in the last one's place.
#[test]
fn rounds_are_opened_or_not(rt: HostRuntime) -> Result<(), Fail> {
    let heap = rt.alloc();
    let prefix = Prefix::new(4, 0b0101).ok_or("refused")?;
    let rules = rules(heap, SITE_F)?;
    let sheet = ClauseSheet::new(prefix, &rules);
    let site_f = rows(heap, SITE_F_ROWS)?;
    assert!(rt; open(&sheet, &RowBook::new(prefix, &site_f)).is_ok());
    // other kinds, a position less, a position more
    let differ = CheckFault::PrefixesDiffer;
    for (length, reports) in [(4, 0b0110), (3, 0b101), (5, 0b0_0101)] {
        let other = Prefix::new(length, reports).ok_or("refused")?;
        let book = RowBook::new(other, &site_f);
        assert_eq!(rt; check(&sheet, &book), Err(differ));
        assert_eq!(rt; open(&sheet, &book).err(), Some(OpenFault::Check(differ)));
    }
    let silent = Verdict::Silent {
        position: 4,
        setting: 2,
    };
    let torn = Verdict::Torn {
        position: 4,
        setting: 1,
    };
    let books: [(&[RowParts], Verdict); 3] = [
        (&[], silent),
        (
            &[
                (4, Side::Off, 0b0101, 0b0001),
                (4, Side::Off, 0b0100, 0b0100),
            ],
            torn,
        ),
        (
            &[(4, Side::On, 0b0101, 0b0001)],
            Verdict::Broken { setting: 2 },
        ),
    ];
    for (more, verdict) in books {
        let mut all = rows(heap, SITE_F_ROWS)?;
        let _ = all.pop();
        for row in rows(heap, more)? {
            all.push(row)?;
        }
        let book = RowBook::new(prefix, &all);
        let checked = check(&sheet, &book)?;
        assert_eq!(rt; checked.verdict, verdict);
        assert_eq!(rt;
            open(&sheet, &book).err(),
            Some(OpenFault::NotAccepted(checked))
        );
    }
    Ok(())
}

// Whose turn it is, a call, its answer, and the values after it.
type Step = (Option<Kind>, Call, Answer, &'static str);

const REPORT: Option<Kind> = Some(Kind::Report);

const REPLY: Option<Kind> = Some(Kind::Reply);

const OTHER_TURN: Answer = Answer::Refused(RoundFault::OtherTurn);

const COMPLETE: Answer = Answer::Refused(RoundFault::Complete);

const BACK_TOO_FAR: Answer = Answer::Refused(RoundFault::BackTooFar);

fn answer_of(made: Result<(), RoundFault>, done: Answer) -> Answer {
    match made {
        Ok(()) => done,
        Err(fault) => Answer::Refused(fault),
    }
}

// Whether these are the values of a round so far, a digit for each.
fn has_digits(so_far: PartLine, digits: &str) -> bool {
    for (position, digit) in (1..).zip(digits.bytes()) {
        if so_far.line.value(position) != (digit == b'1') {
            return false;
        }
    }
    so_far.length == digits.len()
}

// Opens a round and makes the calls. Generic, so that a table or a list can be the book.
fn follow<F: Sheet, B: Book>(
    rt: &impl Abort,
    sheet: &F,
    book: &B,
    steps: &[Step],
) -> Result<(), OpenFault> {
    let mut round = open(sheet, book)?;
    assert!(rt; has_digits(round.so_far(), ""));
    for (turn, call, answer, after) in steps {
        assert_eq!(rt; round.next_kind(), *turn, "{call:?}");
        let found = match *call {
            Call::Tell(value) => answer_of(round.tell(value), Answer::Told),
            Call::Reply => match round.reply() {
                Ok(on) => Answer::Replied(on),
                Err(fault) => Answer::Refused(fault),
            },
            Call::Back(kept) => answer_of(round.back(kept), Answer::WentBack),
        };
        assert_eq!(rt; found, *answer, "{call:?}");
        assert!(rt; has_digits(round.so_far(), after), "{call:?}");
    }
    Ok(())
}

// Site F's book is on at position 2, and off at position 4 where report 1 is on and report 3
// is not.
const SITE_F_STEPS: &[Step] = &[
    // at the start it is the report's turn
    (REPORT, Call::Reply, OTHER_TURN, ""),
    (REPORT, Call::Back(1), BACK_TOO_FAR, ""),
    (REPORT, Call::Back(0), Answer::WentBack, ""),
    // a whole line
    (REPORT, Call::Tell(true), Answer::Told, "1"),
    (REPLY, Call::Tell(false), OTHER_TURN, "1"),
    (REPLY, Call::Reply, Answer::Replied(true), "11"),
    (REPORT, Call::Tell(false), Answer::Told, "110"),
    (REPLY, Call::Reply, Answer::Replied(false), "1100"),
    (None, Call::Tell(true), COMPLETE, "1100"),
    (None, Call::Reply, COMPLETE, "1100"),
    (None, Call::Back(5), BACK_TOO_FAR, "1100"),
    (None, Call::Back(4), Answer::WentBack, "1100"),
    // back and on with the other value
    (None, Call::Back(2), Answer::WentBack, "11"),
    (REPORT, Call::Reply, OTHER_TURN, "11"),
    (REPORT, Call::Tell(true), Answer::Told, "111"),
    (REPLY, Call::Reply, Answer::Replied(true), "1111"),
    (None, Call::Back(0), Answer::WentBack, ""),
];

#[test]
fn a_round_of_site_f(rt: HostRuntime) -> Result<(), Fail> {
    let heap = rt.alloc();
    let prefix = Prefix::new(4, 0b0101).ok_or("refused")?;
    let rules = rules(heap, SITE_F)?;
    let sheet = ClauseSheet::new(prefix, &rules);
    let rows = rows(heap, SITE_F_ROWS)?;
    follow(&rt, &sheet, &RowBook::new(prefix, &rows), SITE_F_STEPS)?;
    Ok(())
}

const REPLY_FIRST_STEPS: &[Step] = &[
    (REPLY, Call::Tell(true), OTHER_TURN, ""),
    (REPLY, Call::Reply, Answer::Replied(true), "1"),
    (REPORT, Call::Reply, OTHER_TURN, "1"),
    (REPORT, Call::Tell(false), Answer::Told, "10"),
];

#[test]
fn a_round_that_begins_with_a_reply(rt: HostRuntime) -> Result<(), Fail> {
    let prefix = Prefix::new(2, 0b10).ok_or("refused")?;
    let rules = rules(rt.alloc(), &[&[1, 2]])?;
    let sheet = ClauseSheet::new(prefix, &rules);
    let mut words = [1, 0];
    let table = TableBook::new(prefix, &mut words);
    follow(&rt, &sheet, &table, REPLY_FIRST_STEPS)?;
    let mut memory = [Record::default()];
    let mut list = ListBook::new(prefix, &mut memory);
    list.add(Side::On, 1, Line::from_mask(0));
    follow(&rt, &sheet, &list, REPLY_FIRST_STEPS)?;
    Ok(())
}

const REPORTS_STEPS: &[Step] = &[
    (REPORT, Call::Reply, OTHER_TURN, ""),
    (REPORT, Call::Tell(true), Answer::Told, "1"),
    (REPORT, Call::Reply, OTHER_TURN, "1"),
    (REPORT, Call::Tell(false), Answer::Told, "10"),
    (None, Call::Tell(true), COMPLETE, "10"),
    (None, Call::Reply, COMPLETE, "10"),
];

// On and then off.
const REPLIES_STEPS: &[Step] = &[
    (REPLY, Call::Tell(true), OTHER_TURN, ""),
    (REPLY, Call::Reply, Answer::Replied(true), "1"),
    (REPLY, Call::Tell(true), OTHER_TURN, "1"),
    (REPLY, Call::Reply, Answer::Replied(false), "10"),
    (None, Call::Tell(true), COMPLETE, "10"),
    (None, Call::Reply, COMPLETE, "10"),
];

#[test]
fn rounds_of_one_side(rt: HostRuntime) -> Result<(), Fail> {
    let heap = rt.alloc();
    let reports = Prefix::new(2, 0b11).ok_or("refused")?;
    let none = ClauseSheet::new(reports, &[]);
    follow(&rt, &none, &RowBook::new(reports, &[]), REPORTS_STEPS)?;
    let replies = Prefix::new(2, 0b00).ok_or("refused")?;
    let rules = rules(heap, &[&[1], &[-2]])?;
    let sheet = ClauseSheet::new(replies, &rules);
    let rows = rows(heap, &[(1, Side::On, 0, 0), (2, Side::Off, 0, 0)])?;
    follow(&rt, &sheet, &RowBook::new(replies, &rows), REPLIES_STEPS)?;
    Ok(())
}

#[test]
fn refusals_of_rounds_have_numbers_and_words(rt: HostRuntime) -> Result<(), Fail> {
    let heap = rt.alloc();
    let differ = CheckFault::PrefixesDiffer;
    assert_eq!(rt; differ.number(), 13);
    let words = "the sheet and the book have different prefixes";
    assert_eq!(rt; differ.to_string(heap)?.as_str(), words);
    let torn = Checked {
        verdict: Verdict::Torn {
            position: 4,
            setting: 1,
        },
        tried: 2,
    };
    for (fault, number, verdict, words) in [
        (OpenFault::Check(differ), 13, None, words),
        (
            OpenFault::NotAccepted(torn),
            17,
            Some(torn.verdict),
            "the book is not accepted: torn 4 1",
        ),
    ] {
        assert_eq!(rt; fault.number(), number);
        assert_eq!(rt; fault.verdict(), verdict);
        assert_eq!(rt; fault.to_string(heap)?.as_str(), words);
    }
    for (fault, number, words) in [
        (RoundFault::Complete, 18, "the round is complete"),
        (RoundFault::OtherTurn, 19, "it is the other side's turn"),
        (
            RoundFault::BackTooFar,
            20,
            "fewer values stand than are to be kept",
        ),
    ] {
        assert_eq!(rt; fault.number(), number);
        assert_eq!(rt; fault.to_string(heap)?.as_str(), words);
    }
    Ok(())
}
