// What a call says of a sheet that is not what its verdict says.
use play::Verdict;
use std::alloc::AllocError;
use std::fmt;

#[derive(Clone, Copy, PartialEq, Eq, Debug)]
pub(crate) enum Difference {
    // the text is refused, with this number and place
    Text { number: u8, place: usize },
    // the text has terms, where the sheets are of clauses
    Terms,
    // the question whether some policy wins
    Winning,
    // whether the count is 0
    Count,
    // whether the search finds a book, or why it does not
    Search,
    // the verdict on the searched book
    Table(Verdict),
    // a refusal on the way to rows, to a file and back
    Listing(u8),
    Writing(u8),
    Reading(u8),
    // the prefix or the rows that are read are not those that were written
    Rows,
    // the verdict on the book of the rows that were read
    RowBook(Verdict),
    // a check is refused
    Check,
    // the question whether some policy wins the dual sheet
    Dual,
    // a rule of the dual sheet names a position twice
    DualRules,
    // no memory
    Memory,
}

impl fmt::Display for Difference {
    fn fmt<W: fmt::Write>(&self, f: &mut fmt::Formatter<W>) -> fmt::Result {
        match *self {
            Difference::Text { number, place } => write!(
                f,
                "the text is refused, {number} {place}"
            ),
            Difference::Terms => write!(f, "the rules are terms"),
            Difference::Winning => write!(f, "has_winning_policy differs"),
            Difference::Count => write!(f, "count_policies_of differs"),
            Difference::Search => write!(f, "search differs"),
            Difference::Table(verdict) => write!(f, "the searched book is {verdict}"),
            Difference::Listing(number) => write!(f, "list_rows is refused, {number}"),
            Difference::Writing(number) => write!(f, "write_rows is refused, {number}"),
            Difference::Reading(number) => write!(f, "read_rows is refused, {number}"),
            Difference::Rows => write!(f, "other rows are read than were written"),
            Difference::RowBook(verdict) => write!(f, "the book that was read is {verdict}"),
            Difference::Check => write!(f, "check is refused"),
            Difference::Dual => write!(f, "has_winning_policy differs on the dual sheet"),
            Difference::DualRules => write!(f, "the dual sheet has no such rule"),
            Difference::Memory => write!(f, "no memory"),
        }
    }
}

impl From<AllocError> for Difference {
    fn from(_error: AllocError) -> Difference {
        Difference::Memory
    }
}
