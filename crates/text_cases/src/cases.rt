// The texts, each with a name. What is wanted of each stands in `stdout`. Some of the
// wrong words are from the edges of the letters, A, Z and z, and @ [ ` { beside them.
use std::alloc::{AllocError, Global};

#[derive(Clone, Copy)]
pub(crate) struct Case<'a> {
    pub(crate) name: &'static str,
    pub(crate) text: &'a [u8],
}

// A text whose rules are all `1 0`: the lines before them, how many rules follow,
// and how many the table has room for.
#[derive(Clone, Copy)]
pub(crate) struct EqualRules {
    pub(crate) name: &'static str,
    opening: &'static [u8],
    count: usize,
    pub(crate) room: usize,
}

impl EqualRules {
    pub(crate) fn text(&self, heap: Global) -> Result<Vec<u8>, AllocError> {
        let mut text = self.opening.to_vec(heap)?;
        text.extend_from_slice(&b"1 0\n".repeat(heap, self.count)?)?;
        Ok(text)
    }
}

// Texts that are read into a table for 256 rules.
pub(crate) const WHOLE_TABLE: &[Case] = &[
    // sheets
    Case {
        name: "site F",
        text: b"p cnf 4 4\na 1 0\ne 2 0\na 3 0\ne 4 0\n2 3 0\n-2 -3 4 0\n-2 3 -1 -4 0\n-2 3 1 4 0\n",
    },
    Case {
        name: "comments",
        text: b"c\nc any ~ words 1x -0\nc p cnf 9 9\np cnf 2 0\ne 1 2 0\n",
    },
    Case {
        name: "blank lines and many spaces",
        text: b"\n   \n  c  x \n\n  p   cnf  2   2 \n \n e  1 2   0  \n\n 1   -2 0 \n\n  0  \n \n",
    },
    Case {
        name: "no line end at the end",
        text: b"p cnf 2 2\ne 1 2 0\n1 0\n2 0",
    },
    Case {
        name: "terms",
        text: b"p dnf 2 2\na 1 0\ne 2 0\n1 2 0\n-1 -2 0\n",
    },
    Case {
        name: "variables out of order",
        text: b"p cnf 3 2\ne 3 1 0\na 2 0\n-3 2 0\n1 0\n",
    },
    Case {
        name: "kinds that follow themselves, reports last",
        text: b"p cnf 4 0\ne 1 0\ne 2 0\na 3 0\na 4 0\n",
    },
    Case {
        name: "empty rules",
        text: b"p cnf 2 2\ne 1 2 0\n0\n0\n",
    },
    Case {
        name: "no rules",
        text: b"p dnf 2 0\na 1 2 0\n",
    },
    Case {
        name: "24 variables",
        text: b"p cnf 24 2\ne 1 2 3 4 5 6 7 8 9 10 11 12 13 14 15 16 17 18 19 20 21 22 23 24 0\n1 -24 0\n24 0\n",
    },
    Case {
        name: "twelve reports",
        text: b"p cnf 13 0\na 1 2 3 4 5 6 7 8 9 10 11 0\ne 12 0\na 13 0\n",
    },
    // 1: a byte
    Case {
        name: "a tab in the first word",
        text: b"\tp cnf 1 0\ne 1 0\n",
    },
    Case {
        name: "a tab for a space",
        text: b"p\tcnf 1 0\ne 1 0\n",
    },
    Case {
        name: "a byte in a comment",
        text: b"c caf\xc3\xa9\np cnf 1 0\ne 1 0\n",
    },
    Case {
        name: "the least byte",
        text: b"c \x00\n",
    },
    Case {
        name: "the byte below the space",
        text: b"c x\x1f\n",
    },
    Case {
        name: "the byte above the tilde",
        text: b"c ~\x7f\n",
    },
    Case {
        name: "a carriage return",
        text: b"p cnf 1 0\r\ne 1 0\r\n",
    },
    Case {
        name: "a byte in the last word",
        text: b"p cnf 1 1\ne 1 0\n1 0\n0\xff",
    },
    Case {
        name: "a byte after another fault",
        text: b"p cnf x \x80\n",
    },
    // 2: a number is wanted
    Case {
        name: "no number of variables",
        text: b"p cnf\n1 0\n",
    },
    Case {
        name: "the text ends before the number of variables",
        text: b"p cnf",
    },
    Case {
        name: "a minus in the header",
        text: b"p cnf -1 0\ne 1 0\n",
    },
    Case {
        name: "no number of rules",
        text: b"p cnf 1\ne 1 0\n",
    },
    Case {
        name: "a quantifier line's letter alone",
        text: b"p cnf 1 0\na\n",
    },
    Case {
        name: "a minus in a quantifier line",
        text: b"p cnf 1 0\ne -1 0\n",
    },
    Case {
        name: "a letter in a quantifier line",
        text: b"p cnf 2 0\ne 1 e 2 0\n",
    },
    Case {
        name: "a quantifier line without its 0",
        text: b"p cnf 1 0\ne 1\n0\n",
    },
    Case {
        name: "a quantifier line that nothing is left for",
        text: b"p cnf 1 0\ne 1 0\na\n",
    },
    Case {
        name: "minus 0",
        text: b"p cnf 1 1\ne 1 0\n1 -0\n",
    },
    Case {
        name: "leading zeros",
        text: b"p cnf 1 1\ne 1 0\n007 0\n",
    },
    Case {
        name: "two zeros",
        text: b"p cnf 1 1\ne 1 0\n1 00\n",
    },
    Case {
        name: "a plus",
        text: b"p cnf 1 1\ne 1 0\n+1 0\n",
    },
    Case {
        name: "seven digits",
        text: b"p cnf 1 1\ne 1 0\n1234567 0\n",
    },
    Case {
        name: "a digit and a letter",
        text: b"p cnf 1 1\ne 1 0\n1x 0\n",
    },
    Case {
        name: "a minus alone",
        text: b"p cnf 1 1\ne 1 0\n- 1 0\n",
    },
    Case {
        name: "a letter in a rule",
        text: b"p cnf 1 1\ne 1 0\n1 a 0\n",
    },
    Case {
        name: "a rule without its 0",
        text: b"p cnf 2 1\ne 1 2 0\n1\n2 0\n",
    },
    Case {
        name: "the text ends in a rule",
        text: b"p cnf 1 1\ne 1 0\n-1",
    },
    Case {
        name: "no number in the last word",
        text: b"p cnf 1 1\ne 1 0\n1 0\n{",
    },
    // 3: a wrong, extra or missing word
    Case {
        name: "the empty text",
        text: b"",
    },
    Case {
        name: "only spaces and line ends",
        text: b"  \n\n ",
    },
    Case {
        name: "only comments",
        text: b"c\nc no header\n",
    },
    Case {
        name: "a letter and more before the header",
        text: b"cc\np cnf 1 0\ne 1 0\n",
    },
    Case {
        name: "a number before the header",
        text: b"1 0\np cnf 1 0\ne 1 0\n",
    },
    Case {
        name: "a quantifier line before the header",
        text: b"e 1 0\np cnf 1 0\n",
    },
    Case {
        name: "the header's letter alone",
        text: b"p\ncnf 1 0\n",
    },
    Case {
        name: "a form in capitals",
        text: b"p CNF 1 0\ne 1 0\n",
    },
    Case {
        name: "a word after the header",
        text: b"p cnf 1 0 0\ne 1 0\n",
    },
    Case {
        name: "a second header",
        text: b"p cnf 1 0\np cnf 1 0\n",
    },
    Case {
        name: "a comment after the header",
        text: b"p cnf 1 0\nc\ne 1 0\n",
    },
    Case {
        name: "a capital for a quantifier",
        text: b"p cnf 1 0\nA 1 0\n",
    },
    Case {
        name: "no variable in a quantifier line",
        text: b"p cnf 1 0\na 0\n",
    },
    Case {
        name: "a word after a quantifier line's 0",
        text: b"p cnf 1 0\ne 1 0 0\n",
    },
    Case {
        name: "a quantifier line after a rule",
        text: b"p cnf 2 1\ne 1 2 0\n1 0\na 2 0\n",
    },
    Case {
        name: "two rules in a line",
        text: b"p cnf 1 2\ne 1 0\n1 0 -1 0\n",
    },
    Case {
        name: "a wrong last word",
        text: b"p cnf 1 1\ne 1 0\n1 0\nz",
    },
    // 4: a limit
    Case {
        name: "no variables",
        text: b"p cnf 0 0\n",
    },
    Case {
        name: "25 variables",
        text: b"p cnf 25 0\ne 1 2 3 4 5 6 7 8 9 10 11 12 13 14 15 16 17 18 19 20 21 22 23 24 25 0\n",
    },
    Case {
        name: "a quantifier line's variable above n",
        text: b"p cnf 2 0\ne 1 3 2 0\n",
    },
    Case {
        name: "thirteen reports",
        text: b"p cnf 13 0\na 1 2 3 4 5 6 7 8 9 10 11 12 13 0\n",
    },
    Case {
        name: "a thirteenth report in a second line",
        text: b"p cnf 13 0\na 1 2 3 4 5 6 7 8 9 10 11 12 0\na 13 0\n",
    },
    Case {
        name: "a literal of six digits",
        text: b"p cnf 1 1\ne 1 0\n-999999 0\n",
    },
    Case {
        name: "a literal above n in the last rule",
        text: b"p cnf 2 1\ne 1 2 0\n1 -3 0\n",
    },
    // 5: a variable twice
    Case {
        name: "a variable twice in a quantifier line",
        text: b"p cnf 2 0\ne 1 1 2 0\n",
    },
    Case {
        name: "a variable of both kinds",
        text: b"p cnf 2 0\na 1 0\ne 1 2 0\n",
    },
    Case {
        name: "a variable on and off in the last rule",
        text: b"p cnf 2 2\ne 1 2 0\n1 0\n2 1 -2 0\n",
    },
    // 6: a variable in no quantifier line
    Case {
        name: "no quantifier line before a rule",
        text: b"p cnf 1 1\n0\n",
    },
    Case {
        name: "no quantifier line at the end",
        text: b"p cnf 1 0",
    },
    Case {
        name: "a variable left out before a rule",
        text: b"p cnf 2 1\ne 1 0\n1 0\n",
    },
    Case {
        name: "a variable left out at the end",
        text: b"p cnf 2 0\ne 2 0\n\n",
    },
    // 7: the number of rules
    Case {
        name: "a rule where none is said",
        text: b"p cnf 1 0\ne 1 0\n0\n",
    },
    Case {
        name: "no rule where one is said",
        text: b"p cnf 1 1\ne 1 0",
    },
    Case {
        name: "a rule too few",
        text: b"p cnf 1 2\ne 1 0\n1 0\n",
    },
    // two faults at one word
    Case {
        name: "1 before 3",
        text: b"x\x80\n",
    },
    Case {
        name: "1 before 2",
        text: b"p cnf 1\x80 0\n",
    },
    Case {
        name: "3 before 2",
        text: b"p cnf 1 1\ne 1 0\nZ 0\n",
    },
    Case {
        name: "2 before 6 at a rule",
        text: b"p cnf 2 1\ne 1 0\n` 0\n",
    },
    Case {
        name: "2 before 6 at the end",
        text: b"p cnf 2 1\ne 1",
    },
    Case {
        name: "2 before 7",
        text: b"p cnf 1 0\ne 1 0\n@\n",
    },
    Case {
        name: "6 before 7 at a rule",
        text: b"p cnf 2 0\ne 1 0\n1 0\n",
    },
    Case {
        name: "6 before 7 at the end",
        text: b"p cnf 2 1\ne 1 0\n",
    },
    Case {
        name: "6 before 4",
        text: b"p cnf 2 1\ne 1 0\n3 0\n",
    },
    Case {
        name: "7 before 4",
        text: b"p cnf 1 0\ne 1 0\n2 0\n",
    },
    Case {
        name: "4 before 5",
        text: b"p cnf 13 0\na 1 2 3 4 5 6 7 8 9 10 11 12 1 0\n",
    },
];

// Texts that are read into a table with room for no rule, which is found last of all.
pub(crate) const NO_TABLE: &[Case] = &[
    Case {
        name: "no table and no rules",
        text: b"p cnf 2 0\ne 1 2 0\n",
    },
    Case {
        name: "no table and a rule",
        text: b"p cnf 1 1\ne 1 0\n0\n",
    },
    Case {
        name: "1 before 8",
        text: b"p cnf 1 1\ne 1 0\n0\n\x7f",
    },
    Case {
        name: "2 before 8",
        text: b"p cnf 1 1\ne 1 0\n0\n[",
    },
    Case {
        name: "3 before 8",
        text: b"p cnf 1 1\ne 1 0\n0\nx",
    },
    Case {
        name: "4 before 8",
        text: b"p cnf 1 1\ne 1 0\n2 0\n",
    },
    Case {
        name: "5 before 8",
        text: b"p cnf 1 1\ne 1 0\n1 1 0\n",
    },
    Case {
        name: "6 before 8",
        text: b"p cnf 1 1\n0\n",
    },
    Case {
        name: "7 before 8",
        text: b"p cnf 1 2\ne 1 0\n0\n",
    },
];

pub(crate) const EQUAL_RULES: &[EqualRules] = &[
    EqualRules {
        name: "256 rules",
        opening: b"p cnf 2 256\ne 1 2 0\n",
        count: 256,
        room: 256,
    },
    EqualRules {
        name: "255 of 256 rules",
        opening: b"p cnf 2 256\ne 1 2 0\n",
        count: 255,
        room: 256,
    },
    EqualRules {
        name: "a 257th rule",
        opening: b"p cnf 2 256\ne 1 2 0\n",
        count: 257,
        room: 256,
    },
    EqualRules {
        name: "257 rules",
        opening: b"p cnf 2 257\ne 1 2 0\n",
        count: 257,
        room: 256,
    },
    EqualRules {
        name: "256 rules, a table for 255",
        opening: b"p cnf 2 256\ne 1 2 0\n",
        count: 256,
        room: 255,
    },
    EqualRules {
        name: "a table as long as the rules",
        opening: b"p cnf 2 4\ne 1 2 0\n",
        count: 4,
        room: 4,
    },
    EqualRules {
        name: "a table one rule short",
        opening: b"p cnf 2 4\ne 1 2 0\n",
        count: 4,
        room: 3,
    },
];
