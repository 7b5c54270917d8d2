// Writes the book of a site: that of the policy which a search finds.
ghost use Rattle.std.specs.Prelude.{◌≡◌, length, Some};
ghost use Rattle.jobs.specs.Inputs.{taken as counted};
ghost use Rattle.jobs.specs.WritingBooks.{BookWritten, book_file_text};

use crate::fault::JobFault;
use crate::input::taken;
use crate::searched_file::searched_file_of;
use sheet::Rule;
use sheet::rule::MOST_RULES;
use sheet_text::read_sheet;
use std::alloc::Global;
use std::fmt;

// A book's file, and how many rows it has.
#[derive(Clone, PartialEq, Eq, Debug, Drop)]
pub struct BookFile {
    pub rows: usize,
    pub bytes: Vec<u8>,
}

// How many rows and how many bytes.
impl fmt::Display for BookFile {
    ghost output = { λ f. Some (book_file_text f) };

    fn fmt<W: fmt::Write>(&self, f: &mut fmt::Formatter<W>) -> fmt::Result {
        let rows = self.rows;
        let bytes = self.bytes.len();
        write!(f, "written {rows} {bytes}")
    }
}

// The file of the searched policy's book, on the sheet that the input says; an input of more
// than 65,536 bytes counts as empty.
pub fn write_book(heap: Global, input: &[u8]) -> Result<BookFile, JobFault>
    ensures { BookWritten (counted input.now) result }
{
    let mut table = vec![in heap; Rule::empty(); MOST_RULES]?;
    write_book_in(heap, &mut table, taken(input))
}

// The same in a table that has a place for each of the 256 rules that a sheet may have.
fn write_book_in(heap: Global, table: &mut [Rule], text: &[u8]) -> Result<BookFile, JobFault>
    requires table { length table.old ≡ 256 }
    ensures { BookWritten text.now result }
{
    let reading = read_sheet(text, table)?;
    let rules = &table[..reading.rules];
    searched_file_of(heap, reading.form, reading.prefix, rules)
}
