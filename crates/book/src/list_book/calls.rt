// What a list book is made of, and what it answers.
ghost use Rattle.std.specs.Prelude.{◌≡◌, ℕ, ◌^◌, ◌<◌, [], true, false, slice_index_or, MatchOption};
ghost use Rattle.prefix.specs.Kinds.{reports_before};
ghost use Rattle.prefix.specs.Prefixes.{kinds};
ghost use Rattle.book.specs.Guards.{answer, can_add};
ghost use Rattle.book.specs.Records.{is_of, list_guards, suffice, OneAPoint};
ghost use Rattle.book.specs.ListBooks.{records_of};
ghost use Rattle.book.specs.declared.record.Record.{Record};
ghost use Rattle.book.specs.declared.side.Side.{Side};

use super::ListBook;
use super::places::{expected_place, find_record};
use crate::book::Book;
use crate::record::Record;
use crate::side::Side;
use prefix::{Line, Prefix};

impl<'a> ListBook<'a> {
    // The book of no records. The memory stays as it is.
    pub fn new(prefix: Prefix, records: &'a mut [Record]) -> ListBook<'a>
        ensures prefix { result.prefix ≡ prefix }
        ensures memory { result.records.now ≡ records.old }
        ensures none { records_of result ≡ [] }
        ensures name { result.records.ghost_name ≡ records.entry.ghost_name }
    {
        ListBook {
            prefix,
            records,
            count: 0,
            in_order: 0,
        }
    }

    // The records, in the order in which their points were first added: none without room.
    pub fn records(&self) -> &[Record]
        ensures value { result.now ≡ records_of self.now }
        ensures one { OneAPoint (kinds self.now.prefix) result.now }
        ensures none { suffice self.now.prefix self.now.records.now ≡ false → result.now ≡ [] }
    {
        &self.records[..self.count]
    }

    // Whether the memory holds a record for each point.
    pub(super) fn suffices(&self) -> bool
        ensures { result ≡ suffice self.now.prefix self.now.records.now }
    {
        self.prefix.point_count() <= self.records.len()
    }

    // Whether there is room, and a reply at a position.
    pub(super) fn can_add(&self, position: usize) -> bool
        ensures { result ≡ can_add (suffice self.now.prefix self.now.records.now) self.now.prefix position }
    {
        self.suffices() && self.prefix.is_reply(position)
    }

    // Where the record of a point is, if it has one.
    pub(super) fn find(&self, position: usize, setting: usize) -> Option<usize>
        requires { setting < 2 ^ reports_before (kinds self.now.prefix) position }
        ensures { MatchOption result
            ((i : ℕ) (d : Record) → i < self.now.count → is_of position setting (slice_index_or self.now.records.now i d) ≡ false)
            (λ i. (i < self.now.count) × ((d : Record) → is_of position setting (slice_index_or self.now.records.now i d) ≡ true)) }
    {
        let place = expected_place(self.prefix, position, setting);
        if place < self.in_order && self.records[place].is_of(position, setting) {
            return Some(place);
        }
        find_record(self.records, self.in_order, self.count, position, setting)
    }

    // The guard of a side at the point of a position and a line.
    fn answer(&self, side: Side, position: usize, line: Line) -> bool
        ensures { result ≡ answer self.now.prefix (list_guards (records_of self.now)) side position line.mask }
    {
        if !self.prefix.is_reply(position) {
            return false;
        }
        let setting = self.prefix.setting_number(position, line);
        match self.find(position, setting) {
            Some(place) => self.records[place].says(side),
            None => false,
        }
    }
}

impl<'a> Book for ListBook<'a> {
    ghost prefix = { λ b. b.prefix };

    ghost guards = { λ b. list_guards (records_of b) };

    fn prefix(&self) -> Prefix {
        self.prefix
    }

    fn on(&self, position: usize, line: Line) -> bool {
        self.answer(Side::On, position, line)
    }

    fn off(&self, position: usize, line: Line) -> bool {
        self.answer(Side::Off, position, line)
    }
}
