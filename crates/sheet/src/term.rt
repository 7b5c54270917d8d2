// Terms (dnf): some rule has to have all its literals holding.
ghost use Rattle.sheet.specs.Rules.{terms_kept, terms_broken};

use crate::normal_form::NormalForm;
use crate::rule::Rule;
use crate::rule_sheet::RuleSheet;
use prefix::PartLine;

#[derive(Clone, Copy)]
pub struct Terms;

pub type TermSheet<'a> = RuleSheet<'a, Terms>;

impl NormalForm for Terms {
    ghost kept = { terms_kept };

    ghost broken = { terms_broken };

    // Whether every rule has a literal among the values given that fails.
    #[tactic(auto, using(crate::proofs::Soundness::terms_sound))]
    fn broken(rules: &[Rule], n: usize, part: PartLine) -> bool {
        // by `for`, as docs/DECISIONS.md says of fixed forms
        for rule in rules {
            if !rule.any_fails(n, part) {
                return false;
            }
        }
        true
    }
}
