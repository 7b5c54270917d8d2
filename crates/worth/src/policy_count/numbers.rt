// Counts from numbers, and back.
ghost use Rattle.std.specs.Prelude.{◌≡◌, Some, Decides, decimal};
ghost use Rattle.worth.specs.Counts.{capped};

use super::PolicyCount;
use std::fmt;

impl PolicyCount {
    pub const LIMIT: u32 = 1_000_000;

    pub const NONE: PolicyCount = PolicyCount { value: 0 };

    pub const ONE: PolicyCount = PolicyCount { value: 1 };

    // The number, cut down to the limit.
    pub fn new(value: u32) -> PolicyCount
        ensures { result ≡ capped value }
    {
        PolicyCount {
            value: value.min(Self::LIMIT),
        }
    }

    pub fn value(self) -> u32
        ensures { result ≡ self.value }
    {
        self.value
    }

    // Whether it is 0. Of `== PolicyCount::NONE` a caller learns only that the numbers
    // are equal; here it learns that the counts are.
    pub fn is_none(self) -> bool
        ensures { Decides result (self ≡ capped 0) }
    {
        self == Self::NONE
    }
}

// By hand, since a derived message promises no `output`.
impl fmt::Display for PolicyCount {
    ghost output = { λ c. Some (decimal c.value) };

    fn fmt<W: fmt::Write>(&self, f: &mut fmt::Formatter<W>) -> fmt::Result {
        write!(f, "{}", self.value)
    }
}
