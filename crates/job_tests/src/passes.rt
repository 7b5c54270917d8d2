// What books come to on sheets, from the texts and the files.
use crate::common::{SITE_F, SITE_F_BOOK, one_reply};
use book_file::{BookFault, Field};
use faults::{Layer, SheetFault, TextFault};
use jobs::{JobFault, pass};
use play::CheckFault;
use std::alloc::{AllocError, Global};
use std::test::Fail;

// A book's file for a sheet, and what is printed of the two, first for a program and then for a
// person.
#[derive(Clone, Copy)]
struct PassedBook {
    sheet: &'static [u8],
    book: &'static [u8],
    printed: &'static str,
    words: &'static str,
}

const PASSED_BOOKS: &[PassedBook] = &[
    PassedBook {
        sheet: SITE_F,
        book: SITE_F_BOOK,
        printed: "accepted",
        words: "the book means a policy that wins",
    },
    // without the row that is off
    PassedBook {
        sheet: SITE_F,
        book: &[4, 5, 3, 2, 1, 0, 0, 4, 1, 4, 4, 4, 1, 5, 0],
        printed: "silent 4 2",
        words: "setting 2: report 1 on, report 3 off; reply 4 has no guard that is yes",
    },
    // with one that is off wherever report 3 is on
    PassedBook {
        sheet: SITE_F,
        book: &[
            4, 5, 5, 2, 1, 0, 0, 4, 1, 4, 4, 4, 1, 5, 0, 4, 0, 5, 1, 4, 0, 4, 4,
        ],
        printed: "torn 4 1",
        words: "setting 1: report 1 off, report 3 on; reply 4 has two guards that are yes",
    },
    // on in place of off
    PassedBook {
        sheet: SITE_F,
        book: &[4, 5, 4, 2, 1, 0, 0, 4, 1, 4, 4, 4, 1, 5, 0, 4, 1, 5, 1],
        printed: "broken 0 2",
        words: "setting 2: report 1 on, report 3 off; the sheet does not keep the line",
    },
    // terms
    PassedBook {
        sheet: b"p dnf 1 1\ne 1 0\n-1 0\n",
        book: &[1, 0, 1, 1, 0, 0, 0],
        printed: "accepted",
        words: "the book means a policy that wins",
    },
    // no report, and so one setting
    PassedBook {
        sheet: b"p cnf 1 0\ne 1 0\n",
        book: &[1, 0, 0],
        printed: "silent 1 0",
        words: "setting 0; reply 1 has no guard that is yes",
    },
];

#[test]
fn books_pass_or_have_a_fault(rt: HostRuntime) -> Result<(), Fail> {
    let heap = rt.alloc();
    for &PassedBook {
        sheet,
        book,
        printed,
        words,
    } in PASSED_BOOKS {
        let judgement = pass(heap, sheet, book)?;
        assert_eq!(rt; judgement.to_string(heap)?.as_str(), printed);
        assert_eq!(rt; judgement.words().to_string(heap)?.as_str(), words);
    }
    Ok(())
}

// A text and a file of which one is refused, and how.
#[derive(Clone, Copy)]
struct RefusedPair {
    sheet: &'static [u8],
    book: &'static [u8],
    fault: JobFault,
    number: u8,
    place: Option<usize>,
    layer: Option<Layer>,
}

const BAD_BYTE: JobFault = JobFault::Sheet(SheetFault::Text(TextFault::Byte { place: 1 }));

const CUT_OFF: JobFault = JobFault::Book(BookFault::Number {
    place: 1,
    field: Field::Reports,
});

const REFUSED_PAIRS: &[RefusedPair] = &[
    RefusedPair {
        sheet: b"c\tx\n",
        book: SITE_F_BOOK,
        fault: BAD_BYTE,
        number: 1,
        place: Some(1),
        layer: Some(Layer::Text),
    },
    RefusedPair {
        sheet: SITE_F,
        book: &[4],
        fault: CUT_OFF,
        number: 9,
        place: Some(1),
        layer: Some(Layer::Book),
    },
    // the sheet's fault comes first
    RefusedPair {
        sheet: b"c\tx\n",
        book: &[4],
        fault: BAD_BYTE,
        number: 1,
        place: Some(1),
        layer: Some(Layer::Text),
    },
    // report 1 alone
    RefusedPair {
        sheet: SITE_F,
        book: &[4, 1, 0],
        fault: JobFault::Check(CheckFault::PrefixesDiffer),
        number: 13,
        place: None,
        layer: None,
    },
    // and a byte too many, which comes first
    RefusedPair {
        sheet: SITE_F,
        book: &[4, 1, 0, 0],
        fault: JobFault::Book(BookFault::ExtraBytes { place: 3 }),
        number: 11,
        place: Some(3),
        layer: Some(Layer::Book),
    },
];

#[test]
fn what_is_wrong_first_is_refused(rt: HostRuntime) -> Result<(), Fail> {
    for case in REFUSED_PAIRS {
        let fault = pass(rt.alloc(), case.sheet, case.book).err();
        let fault = fault.ok_or("passed")?;
        assert_eq!(rt; fault, case.fault);
        assert_eq!(rt; fault.number(), Some(case.number));
        assert_eq!(rt; fault.place(), case.place);
        assert_eq!(rt; fault.layer(), case.layer);
    }
    Ok(())
}

// A book of 16,383 rows, each of which has reply 1 on, in 65,536 bytes; and then bytes more.
fn many_rows(heap: Global, more: usize) -> Result<Vec<u8>, AllocError> {
    let mut file = vec![in heap; 1, 0, 255, 127]?;
    for _ in 0..16_383 {
        file.extend_from_slice(&[1, 1, 0, 0])?;
    }
    for _ in 0..more {
        file.push(0)?;
    }
    Ok(file)
}

#[test]
fn files_are_taken_up_to_65536_bytes(rt: HostRuntime) -> Result<(), Fail> {
    let heap = rt.alloc();
    let sheet = one_reply(heap, 65_536)?;
    let book = many_rows(heap, 0)?;
    assert_eq!(rt; book.len(), 65_536);
    let judgement = pass(heap, &sheet, &book)?;
    assert_eq!(rt; judgement.to_string(heap)?.as_str(), "accepted");
    let longer = many_rows(heap, 1)?;
    let fault = pass(heap, &sheet, &longer).err().ok_or("passed")?;
    let empty = BookFault::Number {
        place: 0,
        field: Field::Length,
    };
    assert_eq!(rt; fault, JobFault::Book(empty));
    let longer_sheet = one_reply(heap, 65_537)?;
    let fault = pass(heap, &longer_sheet, &book).err().ok_or("passed")?;
    assert_eq!(rt; fault, JobFault::Sheet(SheetFault::Word { place: 0 }));
    Ok(())
}
