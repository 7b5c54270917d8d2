// What a reader knows of a variable that a quantifier line has named.
use prefix::Kind;

// The kind is there for the definitions; the code reads it in the mask of reports.
#[derive(Clone, Copy)]
pub(crate) struct Variable {
    pub(crate) kind: Kind,
    pub(crate) position: usize,
}
