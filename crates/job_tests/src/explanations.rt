// What a person is told of an input that is refused.
use faults::SheetFault;
use jobs::{Explanation, JobFault, TextPosition, settle};
use std::alloc::Global;
use std::test::Fail;

#[test]
fn places_have_lines_and_columns(rt: HostRuntime) {
    for (place, line, column) in [
        (0, 1, 1),
        (1, 1, 2),
        (2, 1, 3),
        (3, 2, 1),
        (4, 3, 1),
        (5, 3, 2),
        (6, 3, 2),
        (usize::MAX, 3, 2),
    ] {
        let position = TextPosition { line, column };
        assert_eq!(rt; TextPosition::of(b"ab\n\nc", place), position);
    }
}

// What a person is told of an input that is refused.
fn explained(heap: Global, input: &[u8]) -> Result<String, Fail> {
    match settle(heap, input).err() {
        Some(JobFault::Sheet(fault)) => Ok(Explanation::of(input, fault).to_string(heap)?),
        _ => Err("not refused".into()),
    }
}

// A text that is refused, and the line that explains it.
#[derive(Clone, Copy)]
struct RefusedText {
    text: &'static [u8],
    line: &'static str,
}

// One for each number from 1 to 7; a table is never too short for `settle`.
const REFUSED_TEXTS: &[RefusedText] = &[
    RefusedText {
        text: b"c\tx\n",
        line: "line 1, column 2: a byte that no sheet has; only line ends (byte 10) and printable ASCII (32 to 126) may stand here, no tab, no carriage return",
    },
    RefusedText {
        text: b"p cnf 2 1\na 1 0\ne 2 0\n1 x 0\n",
        line: "line 4, column 3: no number where one is wanted; 1 to 6 digits, no leading zero, a minus only in a literal other than 0, and 0 to end a quantifier line or a rule",
    },
    RefusedText {
        text: b"p cnf 1 0\na 0\n",
        line: "line 2, column 3: a wrong, extra or missing word; the lines are comments (c), one header (p cnf or p dnf, two numbers), variables (a or e, ending in 0), rules (ending in 0), in this order",
    },
    RefusedText {
        text: b"c\n\n  p cnf 25 0\n",
        line: "line 3, column 9: outside a limit; 1 to 24 variables, at most 12 of them reports (a), at most 256 rules, no variable above the header's first number",
    },
    RefusedText {
        text: b"p cnf 1 0\na 1 1 0\n",
        line: "line 2, column 5: a variable named already; each is named once in the quantifier lines (a or e), and at most once in a rule",
    },
    RefusedText {
        text: b"p cnf 2 0\na 1 0\n",
        line: "line 3, column 1: a variable in no quantifier line; each from 1 to the header's first number is named in one (a or e) before the first rule",
    },
    RefusedText {
        text: b"p cnf 1 1\ne 1 0",
        line: "line 2, column 6: not as many rules as the header says; one too many begins here, or the text ends with some missing",
    },
];

#[test]
fn refusals_are_explained(rt: HostRuntime) -> Result<(), Fail> {
    for &RefusedText { text, line } in REFUSED_TEXTS {
        assert_eq!(rt; explained(rt.alloc(), text)?.as_str(), line);
    }
    Ok(())
}
