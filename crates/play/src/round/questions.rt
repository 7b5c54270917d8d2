// What can be asked of a round.
ghost use Rattle.std.specs.Prelude.{◌≡◌, length as count};
ghost use Rattle.prefix.specs.Prefixes.{kinds};
ghost use Rattle.play.specs.Rounds.{next};
ghost use Rattle.play.specs.Chains.{values, values_of};

use super::Round;
use book::Book;
use prefix::{Kind, PartLine};
use sheet::Sheet;

impl<'a, F: Sheet, B: Book> Round<'a, F, B> {
    // The values so far.
    pub fn so_far(&self) -> PartLine
        ensures values { values_of result ≡ values self.now }
        ensures length { result.length ≡ count (values self.now) }
    {
        self.so_far
    }

    // The kind of the next position; none where every position has its value.
    pub fn next_kind(&self) -> Option<Kind>
        ensures { result ≡ next (kinds (B.Book.prefix self.now.book.now)) (values self.now) }
    {
        self.book.prefix().kind(self.so_far.length + 1)
    }
}
