// Settings before a position, as lines and as numbers.
ghost use Rattle.std.specs.Prelude.{◌≡◌, ◌^◌, ◌<◌, ◌≤◌, MatchOption};
ghost use Rattle.prefix.specs.Kinds.{reports_before};
ghost use Rattle.prefix.specs.Prefixes.{kinds};
ghost use Rattle.prefix.specs.Settings.{SettingBefore, number};
ghost use Rattle.prefix.specs.Lines.{setting_before, SettingMask};

use super::Prefix;
use crate::line::Line;

impl Prefix {
    // The number of the setting before a position that a line gives.
    #[tactic(auto, using(crate::proofs::Before::setting_length, crate::proofs::Before::number_small, crate::proofs::Before::number_step, crate::proofs::Before::number_stay, crate::proofs::Before::number_end, crate::proofs::Before::number_end_below))]
    pub fn setting_number(self, position: usize, line: Line) -> usize
        ensures value { result ≡ number (setting_before self position line.mask) }
        ensures setting { SettingBefore (kinds self) position (setting_before self position line.mask) }
        ensures below { result < 2 ^ reports_before (kinds self) position }
    {
        let mut number = 0;
        for earlier in 1..position.min(self.length + 1) {
            if self.is_report(earlier) {
                number = 2 * number + usize::from(line.value(earlier));
            }
        }
        number
    }

    // The line that gives the reports before a position the setting of a number,
    // and is off everywhere else; `None` where no setting has that number.
    #[tactic(auto, using(crate::proofs::Before::so_far_first, crate::proofs::Before::left_room))]
    pub fn setting_line(self, position: usize, number: usize) -> Option<Line>
        ensures { MatchOption result (2 ^ reports_before (kinds self) position ≤ number) (λ line. SettingMask self position number line.mask) }
    {
        let mut left = self.reports_before(position);
        if number >= 1 << left {
            return None;
        }
        let mut line = Line::from_mask(0);
        for earlier in 1..position.min(self.length + 1) {
            if self.is_report(earlier) {
                left -= 1;
                line = line.with(earlier, (number >> left) & 1 == 1);
            }
        }
        Some(line)
    }
}
