// What a word may give besides what the reader keeps.
use sheet::Literal;

#[derive(Clone, Copy)]
pub(crate) enum Taken {
    // a literal of the rule that is being read
    Literal { literal: Literal, place: usize },
    // that rule is over
    Rule,
}
