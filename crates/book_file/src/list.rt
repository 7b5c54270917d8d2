// Listing a book of any kind as rows.
ghost use Rattle.std.specs.Prelude.{MatchResult};
ghost use Rattle.book_file.specs.Listing.{ListedInto, TooShort, OneListing, ListingKeepsGuards, ListingWellMade};

mod points;

use crate::list_fault::ListFault;
use book::{Book, Row};
use points::list_into;

// Lists a book as rows: one row for each guard that is yes at a point, by position, then by
// the setting's number, on before off, each looking at every report before the reply.
// How many rows there are; they stand at the front of the table and the rest is as it was.
// Refused where the table is shorter; it is then as it was.
pub fn list_rows<B: Book>(book: &B, table: &mut [Row]) -> Result<usize, ListFault>
    ensures answer { MatchResult result
        (λ count. ListedInto (B.Book.prefix book.now) (B.Book.guards book.now) table.old table.new count)
        (λ _. TooShort (B.Book.prefix book.now) (B.Book.guards book.now) table.old table.new) }
    ensures one { OneListing (B.Book.prefix book.now) (B.Book.guards book.now) }
    ensures made { ListingWellMade (B.Book.prefix book.now) (B.Book.guards book.now) }
    ensures guards { ListingKeepsGuards (B.Book.prefix book.now) (B.Book.guards book.now) }
{
    // counted first, so that a table that is too short is left as it was
    let count = list_into(book, &mut []);
    if count > table.len() {
        return Err(ListFault::TableTooShort);
    }
    list_into(book, table);
    Ok(count)
}
