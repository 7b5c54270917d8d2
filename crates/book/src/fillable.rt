// Books that can be filled.
ghost use Rattle.std.specs.Prelude.{◌≡◌, ℕ, Bool, true, false, List};
ghost use Rattle.prefix.specs.Lines.{setting_before};
ghost use Rattle.prefix.specs.Prefixes.{kinds};
ghost use Rattle.book.specs.Guards.{AllNo, Added, can_add};
ghost use Rattle.book.specs.declared.side.Side.{Side};

use crate::book::Book;
use crate::side::Side;
use prefix::Line;

// A fillable book has room for the guards of its prefix, or it has none; then every guard is
// no, and no call alters anything.
pub trait FillableBook: Book {
    // Whether there is room.
    ghost room: { Self → Bool };

    // What a kind of book says of the order in which guards were added, which they do not
    // tell: of a book before and after it was cleared, and before and after the guard of a
    // side at a point was added.
    ghost Clears: { Self → Self → Type 0 };

    ghost Adds: { Self → Side → ℕ → List Bool → Self → Type 0 };

    // What of its memory no call on a book alters.
    ghost Memory: { Type 0 };

    ghost unaltered: { Self → Memory };

    // Whether there is room.
    fn room(&self) -> bool
        ensures answer { result ≡ room self.now }
        ensures none { result ≡ false → AllNo (kinds (Self.prefix self.now)) (Self.guards self.now) };

    // Makes every guard no.
    fn clear(&mut self)
        ensures prefix { Self.prefix self.new ≡ Self.prefix self.old }
        ensures room { room self.new ≡ room self.old }
        ensures memory { unaltered self.new ≡ unaltered self.old }
        ensures guards { AllNo (kinds (Self.prefix self.old)) (Self.guards self.new) }
        ensures order { Clears self.old self.new }
        ensures same { room self.old ≡ false → self.new ≡ self.old };

    // Makes a side's guard yes at the point of a position and a line; does nothing where no
    // reply stands.
    fn add(&mut self, side: Side, position: usize, line: Line)
        ensures prefix { Self.prefix self.new ≡ Self.prefix self.old }
        ensures room { room self.new ≡ room self.old }
        ensures memory { unaltered self.new ≡ unaltered self.old }
        ensures guards { can_add (room self.old) (Self.prefix self.old) position ≡ true
            → Added (kinds (Self.prefix self.old)) (Self.guards self.old) side position (setting_before (Self.prefix self.old) position line.mask) (Self.guards self.new) }
        ensures order { can_add (room self.old) (Self.prefix self.old) position ≡ true
            → Adds self.old side position (setting_before (Self.prefix self.old) position line.mask) self.new }
        ensures same { can_add (room self.old) (Self.prefix self.old) position ≡ false → self.new ≡ self.old };
}
