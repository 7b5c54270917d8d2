// The tree of part lines, gone through by one loop.
ghost use Rattle.std.specs.Prelude.{◌≡◌, ◌<◌, ◌≤◌, length as count, drop, MatchOption};
ghost use Rattle.prefix.specs.Bits.{bits};
ghost use Rattle.prefix.specs.Prefixes.{kinds};
ghost use Rattle.worth.specs.Worth.{worth};

use crate::scale::{Scale, is_settled, join};
use prefix::PartLine;
use sheet::Sheet;

// The worth of a part line.
//
// Goes down to the first branch of each position (on at a reply, off at a
// report) and up again, keeping the first branch's worth in the position's cell
// while the second is walked. Three things are not walked: what follows a
// broken part line, a report's second branch where the first is lost, and a
// reply's where the first is unbeatable.
//
// A `loop`, since the length goes up and down; no stack of branches is needed: the
// second branch is the one whose value is on at a report and off at a reply.
pub(crate) fn walk_from<S: Scale, F: Sheet>(
    cells: &mut [S::Worth],
    sheet: &F,
    from: PartLine,
) -> S::Worth
    requires within { from.length ≤ (F.Sheet.prefix sheet.now).length }
    requires cells { (F.Sheet.prefix sheet.now).length ≤ count cells.old }
    ensures { result ≡ worth S.Scale.joins (F.Sheet.kept sheet.now) (drop from.length (kinds (F.Sheet.prefix sheet.now))) (bits from.length from.line.mask) }
{
    let prefix = sheet.prefix();
    let n = prefix.len();
    let mut part = from;
    let mut known: Option<S::Worth> = None;
    loop {
        match known {
            None => match leaf_worth::<S, F>(sheet, n, part) {
                Some(leaf) => known = Some(leaf),
                None => {
                    part.length += 1;
                    part.line = part.line.with(part.length, !prefix.is_report(part.length));
                    // at once and with `known` as it is, so that the way down is compiled
                    // as a loop of its own
                    continue;
                }
            },
            Some(worth) => {
                if part.length == from.length {
                    return worth;
                }
                let last = part.length - 1;
                let report = prefix.is_report(part.length);
                if part.line.value(part.length) == report {
                    known = Some(join::<S>(report, cells[last], worth));
                    part.length = last;
                } else if is_settled::<S>(report, worth) {
                    known = Some(worth);
                    part.length = last;
                } else {
                    cells[last] = worth;
                    part.line = part.line.with(part.length, report);
                    known = None;
                }
            }
        }
    }
}

// The worth of a part line that needs no walking: lost where it is broken, won
// where it is whole and not broken. The prefix has n positions.
#[tactic(auto, using(crate::proofs::Branches::answer_lost, crate::proofs::Branches::answer_won))]
fn leaf_worth<S: Scale, F: Sheet>(sheet: &F, n: usize, part: PartLine) -> Option<S::Worth>
    requires n { n ≡ (F.Sheet.prefix sheet.now).length }
    requires within { part.length ≤ n }
    ensures { MatchOption result (part.length < n) (λ w. w ≡ worth S.Scale.joins (F.Sheet.kept sheet.now) (drop part.length (kinds (F.Sheet.prefix sheet.now))) (bits part.length part.line.mask)) }
{
    if sheet.broken(part) {
        return Some(S::LOST);
    }
    if part.length == n {
        return Some(S::WON);
    }
    None
}
