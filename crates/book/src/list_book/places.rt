// Where records are looked for.
ghost use Rattle.std.specs.Prelude.{◌≡◌, ℕ, ◌+◌, ◌*◌, ◌^◌, ◌<◌, ◌≤◌, true, false, length as count, slice_index_or, MatchOption};
ghost use Rattle.prefix.specs.Kinds.{reports_before};
ghost use Rattle.prefix.specs.Prefixes.{kinds};
ghost use Rattle.book.specs.Records.{is_of};
ghost use Rattle.book.specs.RecordPlaces.{later_settings, met_below, met_before, place_of};
ghost use Rattle.book.specs.declared.record.Record.{Record};

use crate::record::Record;
use prefix::Prefix;

// The place where a search puts the record of a point: how many points it meets before.
pub(super) fn expected_place(prefix: Prefix, position: usize, setting: usize) -> usize
    requires { setting < 2 ^ reports_before (kinds prefix) position }
    ensures value { result ≡ place_of (kinds prefix) position setting }
    ensures few { result ≤ (4096 * 4096 + 1) * 24 }
{
    let first = setting * later_settings(prefix, position);
    let mut place = 0;
    for reply in 1..=prefix.len() {
        place += met_before(prefix, reply, position, first);
    }
    place
}

// How many points of `reply` are met before the point of `position` that is met in the setting
// of number `first`: one of that setting too where `reply` stands before.
fn met_before(prefix: Prefix, reply: usize, position: usize, first: usize) -> usize
    requires { first ≤ 4096 * 4096 }
    ensures value { result ≡ met_before (kinds prefix) position first reply }
    ensures few { result ≤ 4096 * 4096 + 1 }
{
    let number = if reply < position { first + 1 } else { first };
    met_below(prefix, number, reply)
}

// How many points of a position are met in the settings of numbers below one.
fn met_below(prefix: Prefix, number: usize, position: usize) -> usize
    ensures value { result ≡ met_below (kinds prefix) number position }
    ensures few { result ≤ number }
{
    if !prefix.is_reply(position) {
        return 0;
    }
    number.div_ceil(later_settings(prefix, position))
}

// How many settings the reports from a position on have.
#[tactic(auto, using(crate::proofs::RecordPlaces::some_later))]
fn later_settings(prefix: Prefix, position: usize) -> usize
    ensures value { result ≡ later_settings (kinds prefix) position }
    ensures some { 1 ≤ result }
    ensures few { result ≤ 4096 }
{
    prefix.setting_count() >> prefix.reports_before(position)
}

// Where the record of a point is among those from `start` to `end`.
pub(super) fn find_record(
    records: &[Record],
    start: usize,
    end: usize,
    position: usize,
    setting: usize,
) -> Option<usize>
    requires { (start ≤ end) × (end ≤ count records.now) }
    ensures { MatchOption result
        ((i : ℕ) (d : Record) → start ≤ i → i < end → is_of position setting (slice_index_or records.now i d) ≡ false)
        (λ i. (start ≤ i) × (i < end) × ((d : Record) → is_of position setting (slice_index_or records.now i d) ≡ true)) }
{
    for place in start..end {
        if records[place].is_of(position, setting) {
            return Some(place);
        }
    }
    None
}
