// A book as a list of records in the caller's memory.
//
// The struct stands alone in this file: its ghost fields import every `ghost use` here.
ghost use Rattle.std.specs.Prelude.{◌≡◌, ℕ, ◌≤◌, ◌<◌, false, length as count_of, slice_index_or};
ghost use Rattle.prefix.specs.Prefixes.{kinds};
ghost use Rattle.book.specs.Records.{suffice, OfPoint, Apart};
ghost use Rattle.book.specs.RecordPlaces.{InPlace, NoMoreInPlace};
ghost use Rattle.book.specs.declared.record.Record.{Record};

mod calls;
mod fills;
mod places;

use crate::record::Record;
use prefix::Prefix;

// The first `count` of the records are the list, one record for each point that a guard was
// added at, in the order in which points were first added. Those past it stay as they are.
// The first `in_order` of them stand where a search puts them, so that they are found at once.
#[derive(Drop)]
pub struct ListBook<'a> {
    prefix: Prefix,
    records: &'a mut [Record],
    count: usize,
    in_order: usize,
    ghost within: { count ≤ count_of records.now },
    ghost none: { suffice prefix records.now ≡ false → count ≡ 0 },
    ghost points: { (i : ℕ) (d : Record) → i < count → OfPoint (kinds prefix) (slice_index_or records.now i d) },
    ghost apart: { (i j : ℕ) (d : Record) → i < j → j < count → Apart (slice_index_or records.now i d) (slice_index_or records.now j d) },
    ghost ordered: { in_order ≤ count },
    ghost placed: { InPlace (kinds prefix) records.now in_order },
    ghost no_more: { NoMoreInPlace (kinds prefix) records.now in_order count },
}
