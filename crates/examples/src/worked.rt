// The worked examples that are proved.
ghost use Rattle.std.specs.List.{AllByRecursion};
ghost use Rattle.examples.specs.Answers.{Only};
ghost use Rattle.examples.specs.Examples.{Holds};

use crate::example::Example;
use jobs::Choice;
use play::Verdict;

// Site F: reports at 1 and 3, replies at 2 and 4.
pub(crate) const SITE_F: &[u8] = b"p cnf 4 4
a 1 0
e 2 0
a 3 0
e 4 0
2 3 0
-2 -3 4 0
-2 3 -1 -4 0
-2 3 1 4 0
";

// The choices of its one policy.
const SITE_F_CHOICES: &[Choice] = &[
    Choice {
        position: 2,
        setting: 0,
        value: true,
    },
    Choice {
        position: 2,
        setting: 1,
        value: true,
    },
    Choice {
        position: 4,
        setting: 0,
        value: true,
    },
    Choice {
        position: 4,
        setting: 1,
        value: true,
    },
    Choice {
        position: 4,
        setting: 2,
        value: false,
    },
    Choice {
        position: 4,
        setting: 3,
        value: true,
    },
];

// Files of books for it; their numbers are below 128, and so a byte each.
const WHOLE: &[u8] = &[4, 5, 4, 2, 1, 0, 0, 4, 1, 4, 4, 4, 1, 5, 0, 4, 0, 5, 1];

const SILENT: &[u8] = &[4, 5, 3, 2, 1, 0, 0, 4, 1, 4, 4, 4, 1, 5, 0];

const TORN: &[u8] = &[
    4, 5, 5, 2, 1, 0, 0, 4, 1, 4, 4, 4, 1, 5, 0, 4, 0, 5, 1, 4, 0, 4, 4,
];

const BROKEN: &[u8] = &[4, 5, 4, 2, 1, 0, 0, 4, 1, 4, 4, 4, 1, 5, 0, 4, 1, 5, 1];

// A report before two replies: each is off where the report is off, and one is on where it is on.
const REPORT_FIRST: &[u8] = b"p cnf 3 3
a 1 0
e 2 3 0
-3 1 0
-2 1 0
3 2 -1 0
";

// The same rules with the report last.
const REPORT_LAST: &[u8] = b"p cnf 3 3
e 2 3 0
a 1 0
-3 1 0
-2 1 0
3 2 -1 0
";

// One reply, and a term without literals.
const EMPTY_TERM: &[u8] = b"p dnf 1 1
e 1 0
0
";

// Each holds, in the definitions that the contracts of the calls are made of, and these leave the
// calls nothing else to answer, unless there is no memory.
pub fn worked_examples() -> [Example; 10]
    ensures holds { AllByRecursion Holds result }
    ensures only { AllByRecursion Only result }
{
    [
        Example::Settled {
            sheet: SITE_F,
            policies: 1,
            choices: SITE_F_CHOICES,
        },
        Example::Judged {
            sheet: SITE_F,
            book: WHOLE,
            verdict: Verdict::Accepted,
        },
        Example::Judged {
            sheet: SITE_F,
            book: SILENT,
            verdict: Verdict::Silent {
                position: 4,
                setting: 2,
            },
        },
        Example::Judged {
            sheet: SITE_F,
            book: TORN,
            verdict: Verdict::Torn {
                position: 4,
                setting: 1,
            },
        },
        Example::Judged {
            sheet: SITE_F,
            book: BROKEN,
            verdict: Verdict::Broken { setting: 2 },
        },
        Example::Counted {
            sheet: REPORT_FIRST,
            policies: 3,
        },
        Example::NoneFound {
            sheet: REPORT_LAST,
            number: 16,
        },
        Example::Counted {
            sheet: EMPTY_TERM,
            policies: 2,
        },
        Example::Coded {
            number: 128,
            bytes: &[128, 1],
        },
        Example::Unread {
            file: &[255, 0],
            number: 9,
            place: 0,
        },
    ]
}
