// A book's file as far as it was read.
ghost use Rattle.std.specs.Prelude.{◌≡◌, ◌<◌, ◌^◌, [], ◌∷◌, true, false, drop, MatchResult};
ghost use Rattle.book_file.specs.declared.fault.BookFault.TheVariants.{Number, Value};
ghost use Rattle.book_file.specs.Numbers.{NoNumber};
ghost use Rattle.book_file.specs.Steps.{Stand, Ended};

mod header;
mod row;

use crate::fault::BookFault;
use crate::field::Field;
use crate::number::read_number;

// The bytes from `place` on are still to be read.
#[derive(Clone, Copy)]
pub(crate) struct Cursor<'a> {
    file: &'a [u8],
    place: usize,
}

// The number of a field, and where it begins.
#[derive(Clone, Copy)]
struct FieldNumber {
    field: Field,
    place: usize,
    value: u32,
}

impl FieldNumber {
    // Its value, if the field may have it.
    fn if_allowed(self, allowed: bool) -> Result<u32, BookFault>
        ensures { MatchResult result (λ n. (allowed ≡ true) × (n ≡ self.value)) (λ f. (allowed ≡ false) × (f ≡ Value self.place self.field)) }
    {
        if allowed {
            Ok(self.value)
        } else {
            Err(self.outside())
        }
    }

    // The fault that the field may not have this value.
    fn outside(self) -> BookFault
        ensures { result ≡ Value self.place self.field }
    {
        let FieldNumber { field, place, .. } = self;
        BookFault::Value { place, field }
    }
}

impl<'a> Cursor<'a> {
    // Before the first byte.
    pub(crate) fn new(file: &'a [u8]) -> Cursor<'a>
        ensures file { result.file.now ≡ file.now }
        ensures place { result.place ≡ 0 }
    {
        Cursor { file, place: 0 }
    }

    // Takes the number of a field, whatever its value.
    fn number(&mut self, field: Field) -> Result<FieldNumber, BookFault>
        ensures file { self.new.file.now ≡ self.old.file.now }
        ensures taken { MatchResult result
            (λ n. (n.field ≡ field) × (n.place ≡ self.old.place) × (n.value < 2 ^ 28) × Stand self.old.file.now (n.value ∷ []) self.old.place self.new.place)
            (λ f. (f ≡ Number self.old.place field) × NoNumber (drop self.old.place self.old.file.now)) }
    {
        let place = self.place;
        // past the end, where no cursor comes, there would be nothing
        let rest = self.file.get(place..).unwrap_or(&[]);
        let number = read_number(rest).ok_or(BookFault::Number { place, field })?;
        self.place += number.size;
        let value = number.value;
        Ok(FieldNumber {
            field,
            place,
            value,
        })
    }

    // Refused where bytes are left.
    pub(crate) fn end(self) -> Result<(), BookFault>
        ensures { Ended self.entry.file.now self.entry.place result }
    {
        let place = self.place;
        if place < self.file.len() {
            return Err(BookFault::ExtraBytes { place });
        }
        Ok(())
    }
}
