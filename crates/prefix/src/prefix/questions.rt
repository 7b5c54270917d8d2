// What can be asked of a prefix.
ghost use Rattle.std.specs.Prelude.{◌≡◌, ℕ, ◌-◌, ◌%◌, ◌^◌, ◌≤◌, ◌<◌, true, length as count, MatchOption, Decides};
ghost use Rattle.prefix.specs.Bits.{mask_value};
ghost use Rattle.prefix.specs.Limits.{Limits};
ghost use Rattle.prefix.specs.Kinds.{kind_at, is_report, is_reply, report_count, reports_before};
ghost use Rattle.prefix.specs.Prefixes.{kinds};
ghost use Rattle.prefix.specs.Points.{points_at, point_count, PointNumbering};
ghost use Rattle.prefix.specs.Settings.{Numbering};
ghost use Rattle.prefix.specs.Policies.{OneLine};

use super::Prefix;
use crate::kind::Kind;
use crate::line::{Line, first_positions};

impl Prefix {
    // The most positions and the most reports of a prefix.
    pub const MOST_POSITIONS: usize = 24;

    pub const MOST_REPORTS: u32 = 12;

    // No prefix has more points; twelve reports and then twelve replies have as many.
    pub const MOST_POINTS: usize = 49_152;

    // The prefix of `length` positions with the reports of the mask; `None`
    // outside the limits.
    pub fn new(length: usize, reports: u32) -> Option<Prefix>
        ensures { MatchOption result (Limits length reports → ⊥) (λ p. (p.length ≡ length) × (p.reports ≡ reports)) }
    {
        if length == 0 || length > Self::MOST_POSITIONS {
            return None;
        }
        if reports > first_positions(length) || reports.count_ones() > Self::MOST_REPORTS {
            return None;
        }
        Some(Prefix { length, reports })
    }

    // How many positions.
    pub fn len(self) -> usize
        ensures value { result ≡ self.length }
        ensures kinds { result ≡ count (kinds self) }
        ensures some { 1 ≤ result }
        ensures few { result ≤ 24 }
    {
        self.length
    }

    // The kind of a position, 1 to n; `None` at any other number.
    #[tactic(auto, using(crate::proofs::Positions::kind_outside, crate::proofs::Positions::kind_from_report))]
    pub fn kind(self, position: usize) -> Option<Kind>
        ensures { result ≡ kind_at (kinds self) position }
    {
        if position == 0 || position > self.length {
            return None;
        }
        Some(if self.is_report(position) {
            Kind::Report
        } else {
            Kind::Reply
        })
    }

    // Whether a report stands at a position; no at a number that is none.
    #[tactic(auto, using(crate::proofs::Positions::value_report))]
    pub fn is_report(self, position: usize) -> bool
        ensures { result ≡ is_report (kinds self) position }
    {
        Line::from_mask(self.reports).value(position)
    }

    // Whether a reply stands at a position; no at a number that is none.
    pub fn is_reply(self, position: usize) -> bool
        ensures { result ≡ is_reply (kinds self) position }
    {
        self.kind(position) == Some(Kind::Reply)
    }

    // How many reports stand before a position.
    pub fn reports_before(self, position: usize) -> usize
        ensures value { result ≡ reports_before (kinds self) position }
        ensures few { result ≤ 12 }
    {
        self.report_mask_before(position).count_ones() as usize
    }

    // The mask of the reports before a position.
    #[tactic(auto, using(crate::proofs::Cuts::reports_cut, crate::proofs::Cuts::cut_decides))]
    pub fn report_mask_before(self, position: usize) -> u32
        ensures value { result ≡ self.reports % 2 ^ (position - 1) }
        ensures reports { (k : ℕ) → Decides (mask_value result k) ((is_report (kinds self) k ≡ true) × (k < position)) }
    {
        self.reports & first_positions(position.saturating_sub(1))
    }

    // How many settings the reports have. Settings correspond to the numbers
    // below that, and a policy gives one line on each.
    #[tactic(auto, using(crate::proofs::Settings::few_settings, crate::proofs::Settings::settings_of, crate::proofs::Settings::numbering, crate::proofs::Lines::one_line))]
    pub fn setting_count(self) -> usize
        ensures value { result ≡ 2 ^ report_count (kinds self) }
        ensures few { result ≤ 4096 }
        ensures numbering { Numbering (report_count (kinds self)) }
        ensures lines { OneLine (kinds self) }
    {
        1 << self.reports.count_ones()
    }

    // How many points: the sum of 2^u(k) over the replies, u(k) the number of
    // reports before position k. Points correspond to the numbers below that.
    #[tactic(auto, using(crate::proofs::PointCount::point_numbering))]
    pub fn point_count(self) -> usize
        ensures value { result ≡ point_count (kinds self) }
        ensures few { result ≤ Self.MOST_POINTS }
        ensures most { Self.MOST_POINTS ≡ 49152 }
        ensures numbering { PointNumbering (kinds self) }
    {
        let mut points = 0;
        for position in 1..=self.length {
            points += self.points_at(position);
        }
        points
    }

    // How many points a position has: one for each setting before a reply.
    #[tactic(auto, using(crate::proofs::Settings::few_settings))]
    pub fn points_at(self, position: usize) -> usize
        ensures value { result ≡ points_at (kinds self) position }
        ensures few { result ≤ 4096 }
    {
        if !self.is_reply(position) {
            return 0;
        }
        1 << self.reports_before(position)
    }
}
