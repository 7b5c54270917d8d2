// What checking the book of a file came to.
ghost use Rattle.std.specs.Prelude.{Some};
ghost use Rattle.play.specs.Verdicts.{verdict_text};

use play::Checked;
use prefix::Prefix;
use std::fmt;

// What checking a book came to, and the prefix of the sheet and of the book.
#[derive(Clone, Copy, PartialEq, Eq, Debug)]
pub struct Judgement {
    pub prefix: Prefix,
    pub checked: Checked,
}

// The verdict.
impl fmt::Display for Judgement {
    ghost output = { λ j. Some (verdict_text j.checked.verdict) };

    fn fmt<W: fmt::Write>(&self, f: &mut fmt::Formatter<W>) -> fmt::Result {
        let verdict = self.checked.verdict;
        write!(f, "{verdict}")
    }
}
