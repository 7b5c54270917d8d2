// What stands before the rows of a book's file.
ghost use Rattle.std.specs.Prelude.{◌≡◌, ◌≤◌};
ghost use Rattle.book_file.specs.declared.field.Field.TheVariants as field;
ghost use Rattle.book_file.specs.Steps.{FieldTaken, HeaderTaken, PrefixTaken};

use super::Cursor;
use crate::fault::BookFault;
use crate::field::Field;
use crate::reading::{MOST_ROWS, Reading};
use prefix::Prefix;

impl Cursor<'_> {
    // Takes the prefix and the number of rows.
    pub(crate) fn header(&mut self) -> Result<Reading, BookFault>
        requires start { self.old.place ≡ 0 }
        ensures file { self.new.file.now ≡ self.old.file.now }
        ensures taken { HeaderTaken self.old.file.now result self.new.place }
    {
        let length = self.length()?;
        let prefix = self.prefix(length)?;
        let rows = self.row_count()?;
        Ok(Reading { prefix, rows })
    }

    // Takes the number of positions.
    fn length(&mut self) -> Result<usize, BookFault>
        ensures file { self.new.file.now ≡ self.old.file.now }
        ensures taken { FieldTaken field.Length (λ x. (1 ≤ x) × (x ≤ 24)) self.old.file.now self.old.place result self.new.place }
    {
        let number = self.number(Field::Length)?;
        let length = number.value as usize;
        // the limits of a length are those of a prefix without reports
        number.if_allowed(Prefix::new(length, 0).is_some())?;
        Ok(length)
    }

    // Takes the mask of reports of a prefix of so many positions.
    fn prefix(&mut self, length: usize) -> Result<Prefix, BookFault>
        ensures file { self.new.file.now ≡ self.old.file.now }
        ensures taken { PrefixTaken length self.old.file.now self.old.place result self.new.place }
    {
        let number = self.number(Field::Reports)?;
        Prefix::new(length, number.value).ok_or(number.outside())
    }

    // Takes the number of rows.
    fn row_count(&mut self) -> Result<usize, BookFault>
        ensures file { self.new.file.now ≡ self.old.file.now }
        ensures taken { FieldTaken field.RowCount (λ x. x ≤ 65535) self.old.file.now self.old.place result self.new.place }
    {
        let number = self.number(Field::RowCount)?;
        let rows = number.value as usize;
        number.if_allowed(rows <= MOST_ROWS)?;
        Ok(rows)
    }
}
