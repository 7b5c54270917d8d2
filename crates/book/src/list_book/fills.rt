// How a list book is filled.
ghost use Rattle.std.specs.Prelude.{◌≡◌, ℕ, ◌<◌, ◌≤◌, ◌+◌, ◌^◌, [], true, false, List, length as count_of, drop, slice_set, slice_index_or};
ghost use Rattle.prefix.specs.Kinds.{reports_before};
ghost use Rattle.prefix.specs.Lines.{setting_before};
ghost use Rattle.prefix.specs.Points.{point_count};
ghost use Rattle.prefix.specs.Prefixes.{kinds};
ghost use Rattle.prefix.specs.Settings.{number};
ghost use Rattle.book.specs.Guards.{AllNo, Added, can_add};
ghost use Rattle.book.specs.Records.{is_of, OfPoint, list_guards, suffice, turned, first_record, with_guard};
ghost use Rattle.book.specs.RecordPlaces.{InPlace, NoMoreInPlace};
ghost use Rattle.book.specs.ListBooks.{records_of};
ghost use Rattle.book.specs.declared.record.Record.{Record};
ghost use Rattle.book.specs.declared.side.Side.{Side};

use super::ListBook;
use super::places::expected_place;
use crate::book::Book;
use crate::fillable::FillableBook;
use crate::record::Record;
use crate::side::Side;
use prefix::Line;

impl<'a> FillableBook for ListBook<'a> {
    ghost room = { λ b. suffice b.prefix b.records.now };

    ghost Clears = { λ x y. records_of y ≡ [] };

    ghost Adds = { λ x side k v y. records_of y ≡ with_guard (records_of x) side k (number v) };

    ghost Memory = { ℕ × ℕ × List Record };

    ghost unaltered = { λ b. (b.records.ghost_name, count_of b.records.now, drop (point_count (kinds b.prefix)) b.records.now) };

    fn room(&self) -> bool {
        self.suffices()
    }

    fn clear(&mut self)
        ensures prefix { self.new.prefix ≡ self.old.prefix }
        ensures memory { self.new.records ≡ self.old.records }
        ensures none { records_of self.new ≡ [] }
        ensures guards { AllNo (kinds self.old.prefix) (list_guards (records_of self.new)) }
        ensures same { suffice self.old.prefix self.old.records.now ≡ false → self.new ≡ self.old }
    {
        if self.suffices() {
            self.count = 0;
            self.in_order = 0;
        }
    }

    fn add(&mut self, side: Side, position: usize, line: Line)
        ensures prefix { self.new.prefix ≡ self.old.prefix }
        ensures name { self.new.records.ghost_name ≡ self.old.records.ghost_name }
        ensures length { count_of self.new.records.now ≡ count_of self.old.records.now }
        ensures list { can_add (suffice self.old.prefix self.old.records.now) self.old.prefix position ≡ true
            → records_of self.new ≡ with_guard (records_of self.old) side position (number (setting_before self.old.prefix position line.mask)) }
        ensures guards { can_add (suffice self.old.prefix self.old.records.now) self.old.prefix position ≡ true
            → Added (kinds self.old.prefix) (list_guards (records_of self.old)) side position (setting_before self.old.prefix position line.mask) (list_guards (records_of self.new)) }
        ensures past { drop self.new.count self.new.records.now ≡ drop self.new.count self.old.records.now }
        ensures beyond { drop (point_count (kinds self.old.prefix)) self.new.records.now ≡ drop (point_count (kinds self.old.prefix)) self.old.records.now }
        ensures same { can_add (suffice self.old.prefix self.old.records.now) self.old.prefix position ≡ false → self.new ≡ self.old }
    {
        if !self.can_add(position) {
            return;
        }
        let setting = self.prefix.setting_number(position, line);
        match self.find(position, setting) {
            Some(place) => self.turn(place, side),
            None => self.append(side, position, setting),
        }
    }
}

impl<'a> ListBook<'a> {
    // Turns the guard of a side of a record.
    fn turn(&mut self, place: usize, side: Side)
        requires { place < self.old.count }
        ensures prefix { self.new.prefix ≡ self.old.prefix }
        ensures name { self.new.records.ghost_name ≡ self.old.records.ghost_name }
        ensures count { self.new.count ≡ self.old.count }
        ensures memory { (d : Record) → self.new.records.now ≡ slice_set self.old.records.now place (turned side (slice_index_or self.old.records.now place d)) }
    {
        let turned = self.records[place].turned(side);
        self.records[place] = turned;
    }

    // Appends the first record of a point that has none.
    fn append(&mut self, side: Side, position: usize, setting: usize)
        requires room { self.old.count < count_of self.old.records.now }
        requires suffices { suffice self.old.prefix self.old.records.now ≡ true }
        requires point { OfPoint (kinds self.old.prefix) (first_record side position setting) }
        requires fresh { (i : ℕ) (d : Record) → i < self.old.count → is_of position setting (slice_index_or self.old.records.now i d) ≡ false }
        ensures prefix { self.new.prefix ≡ self.old.prefix }
        ensures name { self.new.records.ghost_name ≡ self.old.records.ghost_name }
        ensures count { self.new.count ≡ self.old.count + 1 }
        ensures memory { self.new.records.now ≡ slice_set self.old.records.now self.old.count (first_record side position setting) }
    {
        let in_order = self.in_order_with(position, setting);
        let here = self.count;
        self.records[here] = Record::first(side, position, setting);
        self.count = here + 1;
        self.in_order = in_order;
    }

    // How many records stand where a search puts them, from the first on, once that of a point
    // is appended.
    fn in_order_with(&self, position: usize, setting: usize) -> usize
        requires room { self.now.count < count_of self.now.records.now }
        requires setting { setting < 2 ^ reports_before (kinds self.now.prefix) position }
        ensures few { result ≤ self.now.count + 1 }
        ensures placed { (side : Side) → InPlace (kinds self.now.prefix) (slice_set self.now.records.now self.now.count (first_record side position setting)) result }
        ensures no_more { (side : Side) → NoMoreInPlace (kinds self.now.prefix) (slice_set self.now.records.now self.now.count (first_record side position setting)) result (self.now.count + 1) }
    {
        let here = self.count;
        if self.in_order == here && expected_place(self.prefix, position, setting) == here {
            return here + 1;
        }
        self.in_order
    }
}
