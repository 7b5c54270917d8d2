// A book as a table of rows.
ghost use Rattle.std.specs.Prelude.{◌≡◌, Decides};
ghost use Rattle.book.specs.Guards.{answer};
ghost use Rattle.book.specs.declared.side.Side.TheVariants.{On, Off};
ghost use Rattle.book.specs.Rows.{SomeRow};
ghost use Rattle.book.specs.RowGuards.{row_guards};

use crate::book::Book;
use crate::row::Row;
use crate::side::Side;
use prefix::{Line, Prefix};

// A guard is yes where some row of its reply and its side agrees. A row that is not well
// made agrees with nothing.
#[derive(Clone, Copy)]
pub struct RowBook<'a> {
    prefix: Prefix,
    rows: &'a [Row],
}

impl<'a> RowBook<'a> {
    pub fn new(prefix: Prefix, rows: &'a [Row]) -> RowBook<'a>
        ensures prefix { result.prefix ≡ prefix }
        ensures rows { result.rows.now ≡ rows.now }
    {
        RowBook { prefix, rows }
    }

    // Whether some row of the side and of the reply at the position agrees.
    fn answer(&self, side: Side, position: usize, line: Line) -> bool
        ensures { Decides result (SomeRow self.now.prefix self.now.rows.now side position line.mask) }
    {
        self.rows.iter().any(|row| row.position == position
            && row.side == side
            && row.agrees(self.prefix, line))
    }
}

impl<'a> Book for RowBook<'a> {
    ghost prefix = { λ b. b.prefix };

    ghost guards = { λ b. row_guards b.prefix b.rows.now };

    fn prefix(&self) -> Prefix {
        self.prefix
    }

    #[tactic(auto, using(crate::proofs::Rows::some_row_decides))]
    fn on(&self, position: usize, line: Line) -> bool
        ensures answer { result ≡ answer self.now.prefix (row_guards self.now.prefix self.now.rows.now) On position line.mask }
        ensures meaning { Decides result (SomeRow self.now.prefix self.now.rows.now On position line.mask) }
    {
        self.answer(Side::On, position, line)
    }

    #[tactic(auto, using(crate::proofs::Rows::some_row_decides))]
    fn off(&self, position: usize, line: Line) -> bool
        ensures answer { result ≡ answer self.now.prefix (row_guards self.now.prefix self.now.rows.now) Off position line.mask }
        ensures meaning { Decides result (SomeRow self.now.prefix self.now.rows.now Off position line.mask) }
    {
        self.answer(Side::Off, position, line)
    }
}
