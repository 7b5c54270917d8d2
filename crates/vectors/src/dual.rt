// The dual of a sheet of clauses: reports and replies change places, and each clause becomes the
// term of the opposite literals, so that the terms are kept exactly where the clauses are broken.
// Some policy wins the dual exactly where none wins the sheet.
use crate::difference::Difference;
use prefix::{Line, Prefix};
use sheet::{Literal, Rule};
use std::alloc::Global;

// The prefix with reports and replies exchanged; none with more than twelve replies.
pub(crate) fn dual_prefix(prefix: Prefix) -> Option<Prefix> {
    let replies = (1..=prefix.len())
        .filter(|position| prefix.is_reply(*position))
        .fold(
            Line::from_mask(0),
            |line, position| line.with(position, true),
        );
    Prefix::new(prefix.len(), replies.mask())
}

pub(crate) fn dual_rules(heap: Global, rules: &[Rule]) -> Result<Vec<Rule>, Difference> {
    rules
        .iter()
        .map(|rule| opposite(*rule).ok_or(Difference::DualRules))
        .try_collect(heap)
}

// The rule of the opposite literals.
fn opposite(rule: Rule) -> Option<Rule> {
    let mut dual = Rule::empty();
    for position in 1..=Prefix::MOST_POSITIONS {
        if let Some(wanted) = rule.wanted(position) {
            dual = dual.with(Literal {
                position,
                wanted: !wanted,
            })?;
        }
    }
    Some(dual)
}
