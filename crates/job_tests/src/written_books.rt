// What files are written of sheets.
use crate::common::SITE_F;
use faults::SheetFault;
use jobs::{JobFault, pass, write_book};
use play::SearchFault;
use std::test::Fail;

// A sheet, and the file that is written of it.
#[derive(Clone, Copy)]
struct WrittenSheet {
    sheet: &'static [u8],
    bytes: &'static [u8],
    printed: &'static str,
}

// One row for each point, which looks at every report before the reply.
const WRITTEN_SHEETS: &[WrittenSheet] = &[
    WrittenSheet {
        sheet: SITE_F,
        bytes: &[
            4, 5, 6, 2, 1, 1, 0, 2, 1, 1, 1, 4, 1, 5, 0, 4, 1, 5, 4, 4, 0, 5, 1, 4, 1, 5, 5,
        ],
        printed: "written 6 27",
    },
    // terms; off where report 1 is on
    WrittenSheet {
        sheet: b"p dnf 2 2\na 1 0\ne 2 0\n1 -2 0\n-1 2 0\n",
        bytes: &[2, 1, 2, 2, 1, 1, 0, 2, 0, 1, 1],
        printed: "written 2 11",
    },
    // no reply, and so no row
    WrittenSheet {
        sheet: b"p cnf 2 0\na 1 2 0\n",
        bytes: &[2, 3, 0],
        printed: "written 0 3",
    },
];

#[test]
fn files_are_written_and_pass(rt: HostRuntime) -> Result<(), Fail> {
    let heap = rt.alloc();
    for &WrittenSheet {
        sheet,
        bytes,
        printed,
    } in WRITTEN_SHEETS {
        let file = write_book(heap, sheet)?;
        assert_eq!(rt; file.bytes.as_slice(), bytes);
        assert_eq!(rt; file.to_string(heap)?.as_str(), printed);
        let judgement = pass(heap, sheet, &file.bytes)?;
        assert_eq!(rt; judgement.to_string(heap)?.as_str(), "accepted");
    }
    Ok(())
}

// Twelve replies after twelve reports. A row has one byte for position and side each, two for
// the reports that it looks at, and one or two for those that it wants on: one in 128 rows of
// 4,096. Six bytes stand before the rows.
#[test]
fn the_largest_file_is_written(rt: HostRuntime) -> Result<(), Fail> {
    let sheet =
        b"p cnf 24 0\na 1 2 3 4 5 6 7 8 9 10 11 12 0\ne 13 14 15 16 17 18 19 20 21 22 23 24 0\n";
    let file = write_book(rt.alloc(), sheet)?;
    assert_eq!(rt; file.rows, 12 * 4_096);
    assert_eq!(rt; file.bytes.len(), 6 + 12 * (4 * 4_096 + 2 * 4_096 - 128));
    Ok(())
}

#[test]
fn no_file_is_written(rt: HostRuntime) -> Result<(), Fail> {
    let heap = rt.alloc();
    let fault = write_book(heap, b"p cnf 1 1\ne 1 0\n0\n").err();
    let fault = fault.ok_or("written")?;
    assert_eq!(rt; fault, JobFault::Search(SearchFault::NoPolicy));
    assert_eq!(rt; fault.number(), Some(16));
    assert_eq!(rt; fault.place(), None);
    let fault = write_book(heap, b"").err().ok_or("written")?;
    assert_eq!(rt; fault, JobFault::Sheet(SheetFault::Word { place: 0 }));
    Ok(())
}
