// Calls played from an opening.
use crate::common::{RowParts, SITE_F, SITE_F_ROWS, rows, rules};
use book::{RowBook, Side};
use play::{Answer, Call, RoundFault, play_calls};
use prefix::{PartLine, Prefix, first_positions};
use sheet::ClauseSheet;
use std::test::Fail;

// A sheet, a book, and what every four of the calls below come to in a plain round, a list of
// values that is fed the calls. The table was worked out by a program apart from `play`.
//
// A line for each two first calls, in order: the answers of the two; of each third call; of
// each fourth call after each third; and, as `values_digit` writes them, the values that
// stand after that fourth call.
#[derive(Clone, Copy)]
struct Plain {
    length: usize,
    reports: u32,
    rules: &'static [&'static [i32]],
    rows: &'static [RowParts],
    table: [&'static str; 36],
}

const PLAIN: &[Plain] = &[
    // report, reply, report; the reply is as report 1
    Plain {
        length: 3,
        reports: 0b101,
        rules: &[&[2, -1], &[-2, 1]],
        rows: &[(2, Side::On, 0b001, 0b001), (2, Side::Off, 0b001, 0b000)],
        table: [
            "to oo1bbf oo1bbfoo1bbfttobbbttobffoo1bbfoo1bbf 337133337133fe7137321111337133337133",
            "to oo1bbf oo1bbfoo1bbfttobbbttobffoo1bbfoo1bbf 337133337133fe7137321111337133337133",
            "t1 ttobbb cccbbbcccbbbttobbbttobffoo1bbfttobbb fff137eee137fe7137321111337133fe7137",
            "tb ttobff oo1bbfoo0bbfttobffttobffttobffttobff 337133224122321111321111321111321111",
            "tb oo1bbf oo1bbfoo1bbfttobbbttobffoo1bbfoo1bbf 337133337133fe7137321111337133337133",
            "tf oo1bbf oo1bbfoo1bbfttobbbttobffoo1bbfoo1bbf 337133337133fe7137321111337133337133",
            "to oo0bbf oo0bbfoo0bbfttobbbttobffoo0bbfoo0bbf 224122224122984124321111224122224122",
            "to oo0bbf oo0bbfoo0bbfttobbbttobffoo0bbfoo0bbf 224122224122984124321111224122224122",
            "t0 ttobbb cccbbbcccbbbttobbbttobffoo0bbfttobbb 999124888124984124321111224122984124",
            "tb ttobff oo1bbfoo0bbfttobffttobffttobffttobff 337133224122321111321111321111321111",
            "tb oo0bbf oo0bbfoo0bbfttobbbttobffoo0bbfoo0bbf 224122224122984124321111224122224122",
            "tf oo0bbf oo0bbfoo0bbfttobbbttobffoo0bbfoo0bbf 224122224122984124321111224122224122",
            "ot oo1bbf oo1bbfoo1bbfttobbbttobffoo1bbfoo1bbf 337133337133fe7137321111337133337133",
            "ot oo0bbf oo0bbfoo0bbfttobbbttobffoo0bbfoo0bbf 224122224122984124321111224122224122",
            "oo ttobff oo1bbfoo0bbfttobffttobffttobffttobff 337133224122321111321111321111321111",
            "ob ttobff oo1bbfoo0bbfttobffttobffttobffttobff 337133224122321111321111321111321111",
            "of ttobff oo1bbfoo0bbfttobffttobffttobffttobff 337133224122321111321111321111321111",
            "of ttobff oo1bbfoo0bbfttobffttobffttobffttobff 337133224122321111321111321111321111",
            "bt oo1bbf oo1bbfoo1bbfttobbbttobffoo1bbfoo1bbf 337133337133fe7137321111337133337133",
            "bt oo0bbf oo0bbfoo0bbfttobbbttobffoo0bbfoo0bbf 224122224122984124321111224122224122",
            "bo ttobff oo1bbfoo0bbfttobffttobffttobffttobff 337133224122321111321111321111321111",
            "bb ttobff oo1bbfoo0bbfttobffttobffttobffttobff 337133224122321111321111321111321111",
            "bf ttobff oo1bbfoo0bbfttobffttobffttobffttobff 337133224122321111321111321111321111",
            "bf ttobff oo1bbfoo0bbfttobffttobffttobffttobff 337133224122321111321111321111321111",
            "ft oo1bbf oo1bbfoo1bbfttobbbttobffoo1bbfoo1bbf 337133337133fe7137321111337133337133",
            "ft oo0bbf oo0bbfoo0bbfttobbbttobffoo0bbfoo0bbf 224122224122984124321111224122224122",
            "fo ttobff oo1bbfoo0bbfttobffttobffttobffttobff 337133224122321111321111321111321111",
            "fb ttobff oo1bbfoo0bbfttobffttobffttobffttobff 337133224122321111321111321111321111",
            "ff ttobff oo1bbfoo0bbfttobffttobffttobffttobff 337133224122321111321111321111321111",
            "ff ttobff oo1bbfoo0bbfttobffttobffttobffttobff 337133224122321111321111321111321111",
            "ft oo1bbf oo1bbfoo1bbfttobbbttobffoo1bbfoo1bbf 337133337133fe7137321111337133337133",
            "ft oo0bbf oo0bbfoo0bbfttobbbttobffoo0bbfoo0bbf 224122224122984124321111224122224122",
            "fo ttobff oo1bbfoo0bbfttobffttobffttobffttobff 337133224122321111321111321111321111",
            "fb ttobff oo1bbfoo0bbfttobffttobffttobffttobff 337133224122321111321111321111321111",
            "ff ttobff oo1bbfoo0bbfttobffttobffttobffttobff 337133224122321111321111321111321111",
            "ff ttobff oo1bbfoo0bbfttobffttobffttobffttobff 337133224122321111321111321111321111",
        ],
    },
    // reply, report, reply: the first is on, the last the other way than report 2
    Plain {
        length: 3,
        reports: 0b010,
        rules: &[&[1], &[2, 3], &[-2, -3]],
        rows: &[
            (1, Side::On, 0b000, 0b000),
            (3, Side::On, 0b010, 0b000),
            (3, Side::Off, 0b010, 0b010),
        ],
        table: [
            "oo oo1bff oo1bffoo1bffttobbfoo1bffoo1bffoo1bff 113111113111763133113111113111113111",
            "oo oo1bff oo1bffoo1bffttobbfoo1bffoo1bffoo1bff 113111113111763133113111113111113111",
            "o1 ttobbf oo0bbboo1bbbttobbfoo1bffttobbfttobbf 77e13766d136763133113111763133763133",
            "ob oo1bff oo1bffoo1bffttobbfoo1bffoo1bffoo1bff 113111113111763133113111113111113111",
            "of oo1bff oo1bffoo1bffttobbfoo1bffoo1bffoo1bff 113111113111763133113111113111113111",
            "of oo1bff oo1bffoo1bffttobbfoo1bffoo1bffoo1bff 113111113111763133113111113111113111",
            "oo oo1bff oo1bffoo1bffttobbfoo1bffoo1bffoo1bff 113111113111763133113111113111113111",
            "oo oo1bff oo1bffoo1bffttobbfoo1bffoo1bffoo1bff 113111113111763133113111113111113111",
            "o1 ttobbf oo0bbboo1bbbttobbfoo1bffttobbfttobbf 77e13766d136763133113111763133763133",
            "ob oo1bff oo1bffoo1bffttobbfoo1bffoo1bffoo1bff 113111113111763133113111113111113111",
            "of oo1bff oo1bffoo1bffttobbfoo1bffoo1bffoo1bff 113111113111763133113111113111113111",
            "of oo1bff oo1bffoo1bffttobbfoo1bffoo1bffoo1bff 113111113111763133113111113111113111",
            "1t oo0bbb oo0bbboo0bbbcccbbboo1bffttobbfoo0bbb 77e13777e137eee13711311176313377e137",
            "1t oo1bbb oo1bbboo1bbbcccbbboo1bffttobbfoo1bbb 66d13666d136ddd13611311176313366d136",
            "1o ttobbf oo0bbboo1bbbttobbfoo1bffttobbfttobbf 77e13766d136763133113111763133763133",
            "1b oo1bff oo1bffoo1bffttobbfoo1bffoo1bffoo1bff 113111113111763133113111113111113111",
            "1b ttobbf oo0bbboo1bbbttobbfoo1bffttobbfttobbf 77e13766d136763133113111763133763133",
            "1f ttobbf oo0bbboo1bbbttobbfoo1bffttobbfttobbf 77e13766d136763133113111763133763133",
            "bo oo1bff oo1bffoo1bffttobbfoo1bffoo1bffoo1bff 113111113111763133113111113111113111",
            "bo oo1bff oo1bffoo1bffttobbfoo1bffoo1bffoo1bff 113111113111763133113111113111113111",
            "b1 ttobbf oo0bbboo1bbbttobbfoo1bffttobbfttobbf 77e13766d136763133113111763133763133",
            "bb oo1bff oo1bffoo1bffttobbfoo1bffoo1bffoo1bff 113111113111763133113111113111113111",
            "bf oo1bff oo1bffoo1bffttobbfoo1bffoo1bffoo1bff 113111113111763133113111113111113111",
            "bf oo1bff oo1bffoo1bffttobbfoo1bffoo1bffoo1bff 113111113111763133113111113111113111",
            "fo oo1bff oo1bffoo1bffttobbfoo1bffoo1bffoo1bff 113111113111763133113111113111113111",
            "fo oo1bff oo1bffoo1bffttobbfoo1bffoo1bffoo1bff 113111113111763133113111113111113111",
            "f1 ttobbf oo0bbboo1bbbttobbfoo1bffttobbfttobbf 77e13766d136763133113111763133763133",
            "fb oo1bff oo1bffoo1bffttobbfoo1bffoo1bffoo1bff 113111113111763133113111113111113111",
            "ff oo1bff oo1bffoo1bffttobbfoo1bffoo1bffoo1bff 113111113111763133113111113111113111",
            "ff oo1bff oo1bffoo1bffttobbfoo1bffoo1bffoo1bff 113111113111763133113111113111113111",
            "fo oo1bff oo1bffoo1bffttobbfoo1bffoo1bffoo1bff 113111113111763133113111113111113111",
            "fo oo1bff oo1bffoo1bffttobbfoo1bffoo1bffoo1bff 113111113111763133113111113111113111",
            "f1 ttobbf oo0bbboo1bbbttobbfoo1bffttobbfttobbf 77e13766d136763133113111763133763133",
            "fb oo1bff oo1bffoo1bffttobbfoo1bffoo1bffoo1bff 113111113111763133113111113111113111",
            "ff oo1bff oo1bffoo1bffttobbfoo1bffoo1bffoo1bff 113111113111763133113111113111113111",
            "ff oo1bff oo1bffoo1bffttobbfoo1bffoo1bffoo1bff 113111113111763133113111113111113111",
        ],
    },
];

// The six calls, by a number's rest by 6.
fn call(number: usize) -> Call {
    match number % 6 {
        0 => Call::Tell(true),
        1 => Call::Tell(false),
        2 => Call::Reply,
        3 => Call::Back(0),
        4 => Call::Back(1),
        _ => Call::Back(2),
    }
}

fn answer_letter(answer: Answer) -> char {
    match answer {
        Answer::Told => 't',
        Answer::Replied(false) => '0',
        Answer::Replied(true) => '1',
        Answer::WentBack => 'b',
        Answer::Refused(RoundFault::Complete) => 'c',
        Answer::Refused(RoundFault::OtherTurn) => 'o',
        Answer::Refused(RoundFault::BackTooFar) => 'f',
    }
}

// Up to three values in base two, after a 1, as one digit in base sixteen.
fn values_digit(so_far: PartLine) -> Option<char> {
    let mut number = 1;
    for position in 1..=so_far.length {
        number = number << 1 | u32::from(so_far.line.value(position));
    }
    char::from_digit(number, 16)
}

#[test]
fn calls_in_every_order(rt: HostRuntime) -> Result<(), Fail> {
    let heap = rt.alloc();
    for plain in PLAIN {
        let prefix = Prefix::new(plain.length, plain.reports).ok_or("refused")?;
        let rules = rules(heap, plain.rules)?;
        let sheet = ClauseSheet::new(prefix, &rules);
        let rows = rows(heap, plain.rows)?;
        let book = RowBook::new(prefix, &rows);
        for (two, line) in plain.table.iter().enumerate() {
            let line = line.as_bytes();
            for more in 0..36 {
                let calls = [call(two / 6), call(two), call(more / 6), call(more)];
                let mut answers = [Answer::Told; 4];
                let played = play_calls(&sheet, &book, &calls, &mut answers)?;
                assert_eq!(rt; played.calls, 4);
                for (answer, place) in answers.iter().zip([0, 1, 3 + more / 6, 10 + more]) {
                    let letter = line.get(place).ok_or("short")?;
                    assert_eq!(rt; answer_letter(*answer), char::from(*letter), "{calls:?}");
                }
                let digit = line.get(47 + more).ok_or("short")?;
                let expected = Some(char::from(*digit));
                assert_eq!(rt; values_digit(played.so_far), expected, "{calls:?}");
            }
        }
    }
    Ok(())
}

#[test]
fn answers_have_numbers_and_values(rt: HostRuntime) -> Result<(), Fail> {
    for (answer, number, value) in [
        (Answer::Told, 0, None),
        (Answer::Replied(true), 1, Some(true)),
        (Answer::Replied(false), 1, Some(false)),
        (Answer::WentBack, 2, None),
        (Answer::Refused(RoundFault::Complete), 18, None),
        (Answer::Refused(RoundFault::OtherTurn), 19, None),
        (Answer::Refused(RoundFault::BackTooFar), 20, None),
    ] {
        assert_eq!(rt; answer.number(), number);
        assert_eq!(rt; answer.value(), value);
    }
    Ok(())
}

// Of four calls on site F so many, and so many answers; then how many calls are played, the
// answers after that, and of the values that stand how many there are and their mask.
#[test]
fn more_calls_than_answers_or_fewer(rt: HostRuntime) -> Result<(), Fail> {
    let heap = rt.alloc();
    let prefix = Prefix::new(4, 0b0101).ok_or("refused")?;
    let rules = rules(heap, SITE_F)?;
    let sheet = ClauseSheet::new(prefix, &rules);
    let rows = rows(heap, SITE_F_ROWS)?;
    let book = RowBook::new(prefix, &rows);
    let all = [
        Call::Tell(true),
        Call::Reply,
        Call::Tell(false),
        Call::Reply,
    ];
    for (calls, answers, played, letters, length, mask) in [
        (4, 4, 4, "t1t0", 4, 0b0011),
        (4, 3, 3, "t1t", 3, 0b011),
        (4, 0, 0, "", 0, 0b0),
        (2, 4, 2, "t1ff", 2, 0b11),
        (1, 2, 1, "tf", 1, 0b1),
        (0, 2, 0, "ff", 0, 0b0),
        (0, 0, 0, "", 0, 0b0),
    ] {
        let calls = all.get(..calls).ok_or("short")?;
        let mut given = vec![in heap; Answer::Refused(RoundFault::BackTooFar); answers]?;
        let done = play_calls(&sheet, &book, calls, &mut given)?;
        assert_eq!(rt; done.calls, played);
        for (answer, letter) in given.iter().zip(letters.chars()) {
            assert_eq!(rt; answer_letter(*answer), letter, "{letters}");
        }
        assert_eq!(rt; done.so_far.length, length);
        assert_eq!(rt; done.so_far.line.mask() & first_positions(length), mask);
    }
    Ok(())
}

// The book has another prefix, or is silent at each reply.
#[test]
fn a_refused_opening_leaves_the_answers(rt: HostRuntime) -> Result<(), Fail> {
    let heap = rt.alloc();
    let prefix = Prefix::new(4, 0b0101).ok_or("refused")?;
    let rules = rules(heap, SITE_F)?;
    let rows = rows(heap, SITE_F_ROWS)?;
    let other = Prefix::new(4, 0b0110).ok_or("refused")?;
    let sheet = ClauseSheet::new(prefix, &rules);
    for (book, number) in [
        (RowBook::new(other, &rows), 13),
        (RowBook::new(prefix, &[]), 17),
    ] {
        let before = [Answer::Replied(true), Answer::WentBack];
        let mut answers = before;
        let played = play_calls(
            &sheet,
            &book,
            &[Call::Tell(true), Call::Reply],
            &mut answers,
        );
        assert_eq!(rt; played.err().map(|fault| fault.number()), Some(number));
        assert_eq!(rt; answers, before);
    }
    Ok(())
}
