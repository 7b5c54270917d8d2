// The normal forms in which a sheet's rules are read: clauses (cnf) or terms (dnf).
ghost use Rattle.std.specs.Prelude.{◌≡◌, ℕ, Bool, List};
ghost use Rattle.prefix.specs.Lines.{values_within};
ghost use Rattle.sheet.specs.Meaning.{Sound};
ghost use Rattle.sheet.specs.declared.rule.Rule.{Rule};

use crate::rule::Rule;
use prefix::PartLine;

// A normal form says which lines over n positions some rules keep.
pub trait NormalForm {
    // Whether the rules keep a whole line.
    ghost kept: { ℕ → List Rule → List Bool → Bool };

    // What the question below answers of a part line.
    ghost broken: { ℕ → List Rule → List Bool → Bool };

    // Whether the values of a part line over n positions break the rules already. The n
    // stands beside the part line: it is the prefix's, and a part line has none.
    fn broken(rules: &[Rule], n: usize, part: PartLine) -> bool
        ensures answer { result ≡ broken n rules.now (values_within n part) }
        ensures sound { Sound n (kept n rules.now) (broken n rules.now) };
}
