// The trait of all kinds of books.
ghost use Rattle.std.specs.Prelude.{◌≡◌};
ghost use Rattle.prefix.specs.declared.prefix.Prefix.{Prefix};
ghost use Rattle.book.specs.Guards.{Guards, answer};
ghost use Rattle.book.specs.declared.side.Side.TheVariants.{On, Off};

use prefix::{Line, Prefix};

// A book means a prefix and, at each point, two guards, each yes or no. Of the line that
// a question is put with only the reports before the position count, and where no reply
// stands the answer is no.
pub trait Book {
    ghost prefix: { Self → Prefix };

    ghost guards: { Self → Guards };

    fn prefix(&self) -> Prefix
        ensures { result ≡ prefix self.now };

    // Whether the on-guard is yes.
    fn on(&self, position: usize, line: Line) -> bool
        ensures { result ≡ answer (prefix self.now) (guards self.now) On position line.mask };

    // Whether the off-guard is yes.
    fn off(&self, position: usize, line: Line) -> bool
        ensures { result ≡ answer (prefix self.now) (guards self.now) Off position line.mask };
}
