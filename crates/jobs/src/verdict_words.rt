// What a person is told of a verdict.
ghost use Rattle.std.specs.Prelude.{◌≡◌};

use crate::judgement::Judgement;
use play::Verdict;
use prefix::{Line, Prefix};
use std::fmt;

// A verdict in words; a setting with the value of each report, by position.
#[derive(Clone, Copy, PartialEq, Eq, Debug)]
pub struct VerdictWords {
    judgement: Judgement,
}

impl Judgement {
    // The verdict in words.
    pub fn words(self) -> VerdictWords
        ensures { result.judgement ≡ self }
    {
        VerdictWords { judgement: self }
    }
}

// One line.
impl fmt::Display for VerdictWords {
    fn fmt<W: fmt::Write>(&self, f: &mut fmt::Formatter<W>) -> fmt::Result {
        let Judgement { prefix, checked } = self.judgement;
        match checked.verdict {
            Verdict::Accepted => write!(f, "the book means a policy that wins"),
            Verdict::Silent { position, setting } => {
                write_setting(f, prefix, setting)?;
                write!(f, "reply {position} has no guard that is yes")
            }
            Verdict::Torn { position, setting } => {
                write_setting(f, prefix, setting)?;
                write!(f, "reply {position} has two guards that are yes")
            }
            Verdict::Broken { setting } => {
                write_setting(f, prefix, setting)?;
                write!(f, "the sheet does not keep the line")
            }
        }
    }
}

// The number of a setting, and the values of its reports.
fn write_setting<W: fmt::Write>(
    f: &mut fmt::Formatter<W>,
    prefix: Prefix,
    setting: usize,
) -> fmt::Result {
    write!(f, "setting {setting}")?;
    if let Some(line) = prefix.setting_line(prefix.len() + 1, setting) {
        write_reports(f, prefix, line)?;
    }
    write!(f, "; ")
}

fn write_reports<W: fmt::Write>(
    f: &mut fmt::Formatter<W>,
    prefix: Prefix,
    line: Line,
) -> fmt::Result {
    let mut before = ":";
    for position in 1..=prefix.len() {
        if prefix.is_report(position) {
            let value = if line.value(position) { "on" } else { "off" };
            write!(f, "{before} report {position} {value}")?;
            before = ",";
        }
    }
    Ok(())
}
