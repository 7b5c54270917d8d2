// Sheets that are a table of rules, read in one normal form or the other.
ghost use Rattle.std.specs.Prelude.{◌≡◌, take};

use crate::normal_form::NormalForm;
use crate::rule::{Rule, counted};
use crate::sheet::Sheet;
use prefix::{PartLine, Prefix};
use std::marker::PhantomData;

#[derive(Clone, Copy)]
pub struct RuleSheet<'a, N> {
    prefix: Prefix,
    rules: &'a [Rule],
    form: PhantomData<N>,
}

impl<'a, N> RuleSheet<'a, N> {
    // The sheet of these rules; of a longer table the first 256 count.
    pub fn new(prefix: Prefix, rules: &'a [Rule]) -> RuleSheet<'a, N>
        ensures prefix { result.prefix ≡ prefix }
        ensures rules { result.rules.now ≡ take 256 rules.now }
    {
        RuleSheet {
            prefix,
            rules: counted(rules),
            form: PhantomData,
        }
    }
}

impl<'a, N: NormalForm> Sheet for RuleSheet<'a, N> {
    ghost prefix = { λ s. s.prefix };

    ghost kept = { λ s. N.kept s.prefix.length s.rules.now };

    ghost broken = { λ s. N.broken s.prefix.length s.rules.now };

    fn prefix(&self) -> Prefix {
        self.prefix
    }

    fn broken(&self, part: PartLine) -> bool {
        N::broken(self.rules, self.prefix.len(), part)
    }
}
