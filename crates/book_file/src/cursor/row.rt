// A row of a book's file.
ghost use Rattle.std.specs.Prelude.{◌≡◌, ◌<◌, ◌≤◌, ℕ, true};
ghost use Rattle.prefix.specs.Bits.{mask_value};
ghost use Rattle.prefix.specs.Kinds.{is_report, is_reply};
ghost use Rattle.prefix.specs.Prefixes.{kinds};
ghost use Rattle.book.specs.Rows.{WellMade};
ghost use Rattle.book_file.specs.declared.field.Field.TheVariants as field;
ghost use Rattle.book_file.specs.Steps.{FieldTaken, SideTaken, RowTaken};

use super::Cursor;
use crate::fault::BookFault;
use crate::field::Field;
use book::{Row, Side};
use prefix::Prefix;

impl Cursor<'_> {
    // Takes the row of this index.
    pub(crate) fn row(&mut self, prefix: Prefix, row: usize) -> Result<Row, BookFault>
        ensures file { self.new.file.now ≡ self.old.file.now }
        ensures taken { RowTaken prefix row self.old.file.now self.old.place result self.new.place }
    {
        let position = self.position(prefix, row)?;
        let side = self.side(row)?;
        let looked_at = self.looked_at(prefix, position, row)?;
        let looks = Row {
            position,
            side,
            looked_at,
            wanted_on: 0,
        };
        let wanted_on = self.wanted_on(prefix, looks, row)?;
        Ok(Row { wanted_on, ..looks })
    }

    // Takes a row's position.
    fn position(&mut self, prefix: Prefix, row: usize) -> Result<usize, BookFault>
        ensures file { self.new.file.now ≡ self.old.file.now }
        ensures taken { FieldTaken (field.Position row) (λ x. is_reply (kinds prefix) x ≡ true) self.old.file.now self.old.place result self.new.place }
    {
        let number = self.number(Field::Position { row })?;
        let position = number.value as usize;
        number.if_allowed(prefix.is_reply(position))?;
        Ok(position)
    }

    // Takes a row's side.
    fn side(&mut self, row: usize) -> Result<Side, BookFault>
        ensures file { self.new.file.now ≡ self.old.file.now }
        ensures taken { SideTaken row self.old.file.now self.old.place result self.new.place }
    {
        let number = self.number(Field::Side { row })?;
        match number.value {
            0 => Ok(Side::Off),
            1 => Ok(Side::On),
            _ => Err(number.outside()),
        }
    }

    // Takes the mask of the reports that a row of a reply looks at.
    fn looked_at(&mut self, prefix: Prefix, position: usize, row: usize) -> Result<u32, BookFault>
        requires reply { is_reply (kinds prefix) position ≡ true }
        ensures file { self.new.file.now ≡ self.old.file.now }
        ensures taken { FieldTaken (field.LookedAt row) (λ x. (j : ℕ) → mask_value x j ≡ true → (is_report (kinds prefix) j ≡ true) × (j < position)) self.old.file.now self.old.place result self.new.place }
    {
        let number = self.number(Field::LookedAt { row })?;
        let looks = Row {
            position,
            side: Side::On,
            looked_at: number.value,
            wanted_on: 0,
        };
        number.if_allowed(looks.is_well_made(prefix))
    }

    // Takes the mask of the reports that a row wants on, which wants none of them yet.
    fn wanted_on(&mut self, prefix: Prefix, looks: Row, row: usize) -> Result<u32, BookFault>
        requires made { WellMade prefix looks }
        ensures file { self.new.file.now ≡ self.old.file.now }
        ensures taken { FieldTaken (field.WantedOn row) (λ x. (j : ℕ) → mask_value x j ≡ true → mask_value looks.looked_at j ≡ true) self.old.file.now self.old.place result self.new.place }
    {
        let number = self.number(Field::WantedOn { row })?;
        let wants = Row {
            wanted_on: number.value,
            ..looks
        };
        number.if_allowed(wants.is_well_made(prefix))
    }
}
