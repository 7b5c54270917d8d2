// The trait that all code above sheets is written against.
ghost use Rattle.std.specs.Prelude.{◌≡◌, Bool, List};
ghost use Rattle.prefix.specs.Lines.{part_line};
ghost use Rattle.prefix.specs.declared.prefix.Prefix.{Prefix};
ghost use Rattle.sheet.specs.Meaning.{Sound};

use prefix::{PartLine, Prefix};

// A sheet means a prefix and a set of kept lines; every other line is broken.
pub trait Sheet {
    ghost prefix: { Self → Prefix };

    // Whether a whole line is kept.
    ghost kept: { Self → List Bool → Bool };

    // What the question below answers of a part line.
    ghost broken: { Self → List Bool → Bool };

    fn prefix(&self) -> Prefix
        ensures { result ≡ prefix self.now };

    // Whether the values of a part line break the sheet already. A length above
    // the prefix's is read as that.
    fn broken(&self, part: PartLine) -> bool
        ensures answer { result ≡ broken self.now (part_line (prefix self.now) part) }
        ensures sound { Sound (prefix self.now).length (kept self.now) (broken self.now) };
}
