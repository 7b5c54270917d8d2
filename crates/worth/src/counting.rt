// How many winning policies a sheet has, for callers that keep no stack.
ghost use Rattle.std.specs.Prelude.{◌≡◌, ◌≢◌, ◌↔◌, take};
ghost use Rattle.sheet.specs.Rules.{rules_kept};
ghost use Rattle.worth.specs.Counting.{NoneCounted};
ghost use Rattle.worth.specs.Counts.{capped, count};
ghost use Rattle.worth.specs.Winning.{WinnableOf};
ghost use Rattle.worth.specs.Worth.{worth_of};

use crate::count::Count;
use crate::policy_count::PolicyCount;
use crate::stack::WorthStack;
use prefix::Prefix;
use sheet::{ClauseSheet, Form, Rule, Sheet, TermSheet};

// The sheet's worth on the count scale. The stack has a cell for the most
// positions that a prefix can have, so nothing is refused. `some` stands beside `none`: from
// that alone a caller learns of another count only that "no policy wins" is false, and has no
// policy.
#[tactic(auto, using(crate::proofs::NoneCounted::none_counted, crate::proofs::NoneCounted::some_wins))]
pub fn count_policies<F: Sheet>(sheet: &F) -> PolicyCount
    ensures value { result ≡ worth_of count (F.Sheet.kept sheet.now) (F.Sheet.prefix sheet.now) }
    ensures none { (result ≡ capped 0) ↔ (WinnableOf (F.Sheet.kept sheet.now) (F.Sheet.prefix sheet.now) → ⊥) }
    ensures some { result ≢ capped 0 → WinnableOf (F.Sheet.kept sheet.now) (F.Sheet.prefix sheet.now) }
    ensures worths { NoneCounted }
{
    let mut cells = [PolicyCount::NONE; Prefix::MOST_POSITIONS];
    let mut stack = WorthStack::new(&mut cells);
    stack.worth::<Count, F>(sheet).unwrap()
}

// The same of the sheet of these rules, read as clauses or as terms; of more
// than 256 rules the first 256 count. Three parameters and no struct: callers have
// them apart, and here they are taken apart at once.
pub fn count_policies_of(form: Form, prefix: Prefix, rules: &[Rule]) -> PolicyCount
    ensures value { result ≡ worth_of count (rules_kept form prefix.length (take 256 rules.now)) prefix }
    ensures none { (result ≡ capped 0) ↔ (WinnableOf (rules_kept form prefix.length (take 256 rules.now)) prefix → ⊥) }
    ensures some { result ≢ capped 0 → WinnableOf (rules_kept form prefix.length (take 256 rules.now)) prefix }
{
    // a match, since each form has a walk of its own
    match form {
        Form::Cnf => count_policies(&ClauseSheet::new(prefix, rules)),
        Form::Dnf => count_policies(&TermSheet::new(prefix, rules)),
    }
}
