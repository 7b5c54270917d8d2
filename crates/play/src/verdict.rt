// What checking a book comes to.
ghost use Rattle.std.specs.Prelude.{◌≡◌, Some, ◌==◌};
ghost use Rattle.play.specs.Verdicts.{verdict_number, verdict_position, verdict_setting, verdict_text};

use std::fmt;

// Accepted, or the first fault of a book, with the number of the setting that has it and,
// where a reply is at fault, its position.
#[derive(Clone, Copy, PartialEq, Eq, Debug)]
pub enum Verdict {
    // the book means a policy that wins
    Accepted,
    // neither guard of a reply is yes
    Silent { position: usize, setting: usize },
    // both guards of a reply are yes
    Torn { position: usize, setting: usize },
    // the line of a setting is not kept
    Broken { setting: usize },
}

impl Verdict {
    // 0 where accepted, and a number for each fault.
    pub fn number(self) -> u8
        ensures { result ≡ verdict_number self }
    {
        match self {
            Verdict::Accepted => 0,
            Verdict::Silent { .. } => 1,
            Verdict::Torn { .. } => 2,
            Verdict::Broken { .. } => 3,
        }
    }

    // Whether the book means a policy that wins.
    pub fn is_accepted(self) -> bool
        ensures { result ≡ (verdict_number self == 0) }
    {
        self.number() == 0
    }

    // The position of the reply at fault; 0 where no reply is.
    pub fn position(self) -> usize
        ensures { result ≡ verdict_position self }
    {
        match self {
            Verdict::Silent { position, .. } | Verdict::Torn { position, .. } => position,
            Verdict::Accepted | Verdict::Broken { .. } => 0,
        }
    }

    // The number of the setting at fault; none where accepted.
    pub fn setting(self) -> Option<usize>
        ensures { result ≡ verdict_setting self }
    {
        match self {
            Verdict::Accepted => None,
            Verdict::Silent { setting, .. }
            | Verdict::Torn { setting, .. }
            | Verdict::Broken { setting } => Some(setting),
        }
    }
}

// A word, and for a fault position and setting.
impl fmt::Display for Verdict {
    ghost output = { λ v. Some (verdict_text v) };

    fn fmt<W: fmt::Write>(&self, f: &mut fmt::Formatter<W>) -> fmt::Result {
        match self {
            Verdict::Accepted => write!(f, "accepted"),
            Verdict::Silent { position, setting } => write!(f, "silent {position} {setting}"),
            Verdict::Torn { position, setting } => write!(f, "torn {position} {setting}"),
            Verdict::Broken { setting } => write!(f, "broken 0 {setting}"),
        }
    }
}

// A verdict, and how many settings were tried for it, of which no more is promised than that
// it is one at least, and no more than there are settings.
#[derive(Clone, Copy, PartialEq, Eq, Debug)]
pub struct Checked {
    pub verdict: Verdict,
    pub tried: usize,
}
