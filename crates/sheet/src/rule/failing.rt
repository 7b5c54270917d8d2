// Which literals of a rule fail at the first values of a line: what both normal
// forms ask of a rule, by masks.
ghost use Rattle.std.specs.Prelude.{◌≡◌, ℕ, ◌&&◌};
ghost use Rattle.prefix.specs.Bits.{bit, bits};
ghost use Rattle.prefix.specs.Lines.{values_within};
ghost use Rattle.std.specs.List.{list_any, list_all};
ghost use Rattle.sheet.specs.Rules.{literal_at, literals, fails};

use super::Rule;
use prefix::{PartLine, first_positions};

impl Rule {
    // The mask of the literals that fail.
    #[tactic(auto, using(crate::proofs::Failing::failing_bit))]
    fn failing(self, part: PartLine) -> u32
        ensures { (i : ℕ) → bit result i ≡ (bit self.named i && fails (bits part.length part.line.mask) (literal_at self i)) }
    {
        self.named & (part.line.mask() ^ self.wanted) & first_positions(part.length)
    }

    // Whether all literals within n positions fail, at the first n values at most.
    #[tactic(auto, using(crate::proofs::Failing::all_fail_lem))]
    pub(crate) fn all_fail(self, n: usize, part: PartLine) -> bool
        ensures { result ≡ list_all (fails (values_within n part)) (literals self n) }
    {
        self.failing(part.within(n)) == self.named & first_positions(n)
    }

    // Whether some literal within n positions does.
    #[tactic(auto, using(crate::proofs::Failing::any_fails_lem))]
    pub(crate) fn any_fails(self, n: usize, part: PartLine) -> bool
        ensures { result ≡ list_any (fails (values_within n part)) (literals self n) }
    {
        self.failing(part.within(n)) != 0
    }
}
