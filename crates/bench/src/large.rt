// Large sheets over 24 positions with 256 rules, made by a fixed generator.
// `tools/baseline/walk.c` makes the same.
use anyhow::Context;
use prefix::Prefix;
use sheet::rule::MOST_RULES;
use sheet::{Form, Literal, Rule};
use std::alloc::{AllocError, Global};
use std::iter;

// A sheet by its parts, with how many literals each of its rules has.
pub(crate) struct Large {
    pub(crate) name: &'static str,
    pub(crate) form: Form,
    reports: u32,
    width: usize,
}

impl Large {
    pub(crate) const ALL: &'static [Large] = &[
        Large {
            name: "interleaved",
            form: Form::Cnf,
            reports: 0x555555,
            width: 8,
        },
        Large {
            name: "reports-last",
            form: Form::Cnf,
            reports: 0xfff000,
            width: 11,
        },
        Large {
            name: "replies-only",
            form: Form::Cnf,
            reports: 0,
            width: 6,
        },
        Large {
            name: "reports-first",
            form: Form::Cnf,
            reports: 0x000fff,
            width: 16,
        },
        Large {
            name: "terms",
            form: Form::Dnf,
            reports: 0x000fff,
            width: 3,
        },
        Large {
            name: "in-fours",
            form: Form::Cnf,
            reports: 0x0f0f0f,
            width: 8,
        },
        Large {
            name: "long-terms",
            form: Form::Dnf,
            reports: 0x000fff,
            width: 14,
        },
    ];

    pub(crate) fn named(name: &str) -> anyhow::Result<&'static Large> {
        Large::ALL
            .iter()
            .find(|sheet| sheet.name == name)
            .context("no sheet has that name")
    }

    pub(crate) fn prefix(&self) -> anyhow::Result<Prefix> {
        Prefix::new(Prefix::MOST_POSITIONS, self.reports).context(
            "the prefix is outside the limits",
        )
    }

    pub(crate) fn rules(&self, heap: Global) -> Result<Vec<Rule>, AllocError> {
        let mut numbers = Numbers { seed: 1 };
        iter::repeat_with(|| numbers.rule(self.width))
            .take(MOST_RULES)
            .collect(heap)
    }
}

// Strides that meet every position once; an array, since a number picks one.
const STRIDES: [usize; 8] = [1, 5, 7, 11, 13, 17, 19, 23];

// A linear congruential generator.
#[derive(Drop)]
struct Numbers {
    seed: u32,
}

impl Numbers {
    fn next(&mut self) -> usize {
        self.seed = self
            .seed
            .wrapping_mul(1_664_525)
            .wrapping_add(1_013_904_223);
        (self.seed >> 16) as usize
    }

    // `width` literals, the positions by a first one and a stride.
    fn rule(&mut self, width: usize) -> Rule {
        let place = self.next();
        let values = self.next();
        let stride = STRIDES[place / 24 % STRIDES.len()];
        let mut rule = Rule::empty();
        for k in 0..width.min(16) {
            let position = (place % 24 + k * stride) % 24 + 1;
            let wanted = (values >> k) & 1 == 1;
            rule = rule.with(Literal { position, wanted }).unwrap_or(rule);
        }
        rule
    }
}
