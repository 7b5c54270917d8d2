// Clauses (cnf): every rule has to have a literal that holds.
ghost use Rattle.sheet.specs.Rules.{clauses_kept, clauses_broken};

use crate::normal_form::NormalForm;
use crate::rule::Rule;
use crate::rule_sheet::RuleSheet;
use prefix::PartLine;

#[derive(Clone, Copy)]
pub struct Clauses;

pub type ClauseSheet<'a> = RuleSheet<'a, Clauses>;

impl NormalForm for Clauses {
    ghost kept = { clauses_kept };

    ghost broken = { clauses_broken };

    // Whether some rule has all its literals among the values given, and none of
    // them holds.
    #[tactic(auto, using(crate::proofs::Soundness::clauses_sound))]
    fn broken(rules: &[Rule], n: usize, part: PartLine) -> bool {
        // by `for`, as docs/DECISIONS.md says of fixed forms
        for rule in rules {
            if rule.all_fail(n, part) {
                return true;
            }
        }
        false
    }
}
