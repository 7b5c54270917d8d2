// Faults of a sheet's text.
ghost use Rattle.std.specs.Prelude.{◌≡◌};
ghost use Rattle.faults.specs.Faults.{sheet_number, sheet_place, sheet_layer};
ghost use Rattle.faults.specs.declared.sheet.SheetFault.TheVariants.{Text};

use crate::layer::Layer;
use crate::text::TextFault;
use thiserror::Error;

// A place is that of the word, or of the line end
// where a word is missing, in bytes from 0.
#[derive(Clone, Copy, PartialEq, Eq, Debug, Error)]
pub enum SheetFault {
    #[error(transparent)]
    Text(TextFault),
    #[error("no number where one is wanted; 1 to 6 digits, no leading zero, a minus only in a literal other than 0, and 0 to end a quantifier line or a rule")]
    NoNumber { place: usize },
    #[error("a wrong, extra or missing word; the lines are comments (c), one header (p cnf or p dnf, two numbers), variables (a or e, ending in 0), rules (ending in 0), in this order")]
    Word { place: usize },
    // of variables, of rules or of reports, or a variable itself
    #[error("outside a limit; 1 to 24 variables, at most 12 of them reports (a), at most 256 rules, no variable above the header's first number")]
    Limit { place: usize },
    // in the quantifier lines or in one rule
    #[error("a variable named already; each is named once in the quantifier lines (a or e), and at most once in a rule")]
    Repeated { place: usize },
    #[error("a variable in no quantifier line; each from 1 to the header's first number is named in one (a or e) before the first rule")]
    Unnamed { place: usize },
    #[error("not as many rules as the header says; one too many begins here, or the text ends with some missing")]
    RuleCount { place: usize },
    // the caller's table
    #[error("a table of rules that is too short; it needs a place for each rule of the sheet")]
    TableTooShort,
}

// By hand: `#[from]` of the derive says nothing of the fault that it makes.
impl From<TextFault> for SheetFault {
    ghost from_gives = { λ t s. s ≡ Text t };

    fn from(inner: TextFault) -> SheetFault {
        SheetFault::Text(inner)
    }
}

impl SheetFault {
    // The refusal's number.
    pub fn number(self) -> u8
        ensures { result ≡ sheet_number self }
    {
        match self {
            SheetFault::Text(fault) => fault.number(),
            SheetFault::NoNumber { .. } => 2,
            SheetFault::Word { .. } => 3,
            SheetFault::Limit { .. } => 4,
            SheetFault::Repeated { .. } => 5,
            SheetFault::Unnamed { .. } => 6,
            SheetFault::RuleCount { .. } => 7,
            SheetFault::TableTooShort => 8,
        }
    }

    // Where in the text; 0 where the text is not at fault.
    pub fn place(self) -> usize
        ensures { result ≡ sheet_place self }
    {
        match self {
            SheetFault::Text(fault) => fault.place(),
            SheetFault::NoNumber { place }
            | SheetFault::Word { place }
            | SheetFault::Limit { place }
            | SheetFault::Repeated { place }
            | SheetFault::Unnamed { place }
            | SheetFault::RuleCount { place } => place,
            SheetFault::TableTooShort => 0,
        }
    }

    pub fn layer(self) -> Layer
        ensures { result ≡ sheet_layer self }
    {
        match self {
            SheetFault::Text(fault) => fault.layer(),
            _ => Layer::Sheet,
        }
    }
}
