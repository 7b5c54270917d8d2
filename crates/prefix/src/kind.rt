// Who sets a position of a prefix.
ghost use Rattle.std.specs.Prelude.{Some};
ghost use Rattle.prefix.specs.KindWords.{kind_word};

use std::fmt;

#[derive(Clone, Copy, PartialEq, Eq, Debug)]
pub enum Kind {
    // universal: set by the door
    Report,
    // existential: set by the box
    Reply,
}

// As a quantifier line of a text begins.
impl fmt::Display for Kind {
    ghost output = { λ k. Some (kind_word k) };

    fn fmt<W: fmt::Write>(&self, f: &mut fmt::Formatter<W>) -> fmt::Result {
        match self {
            Kind::Report => write!(f, "a"),
            Kind::Reply => write!(f, "e"),
        }
    }
}
