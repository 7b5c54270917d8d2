// What a policy replies at a point.
ghost use Rattle.std.specs.Prelude.{Some};
ghost use Rattle.jobs.specs.Choices.{choice_text};

use std::fmt;

// The reply's position, the number of the setting before it, and the value there.
#[derive(Clone, Copy, PartialEq, Eq, Debug)]
pub struct Choice {
    pub position: usize,
    pub setting: usize,
    pub value: bool,
}

impl fmt::Display for Choice {
    ghost output = { λ c. Some (choice_text c) };

    fn fmt<W: fmt::Write>(&self, f: &mut fmt::Formatter<W>) -> fmt::Result {
        let Choice {
            position,
            setting,
            value,
        } = *self;
        let word = if value { "on" } else { "off" };
        write!(f, "{position} {setting} {word}")
    }
}
