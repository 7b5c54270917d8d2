// Sheets whose policies are counted without a proof of how many there are.

// A sheet as its text, and what it is called.
pub(crate) struct Sample {
    pub(crate) name: &'static str,
    pub(crate) sheet: &'static [u8],
}

pub(crate) const SAMPLES: [Sample; 5] = [
    Sample {
        name: "one reply without rules",
        sheet: b"p cnf 1 0\ne 1 0\n",
    },
    Sample {
        name: "an empty clause",
        sheet: b"p cnf 1 1\ne 1 0\n0\n",
    },
    Sample {
        name: "no terms",
        sheet: b"p dnf 1 0\ne 1 0\n",
    },
    Sample {
        name: "19 replies without rules",
        sheet: b"p cnf 19 0\ne 1 2 3 4 5 6 7 8 9 10 11 12 13 14 15 16 17 18 19 0\n",
    },
    Sample {
        name: "20 replies without rules",
        sheet: b"p cnf 20 0\ne 1 2 3 4 5 6 7 8 9 10 11 12 13 14 15 16 17 18 19 20 0\n",
    },
];
