// Rows put into a table one after the other, as far as it reaches.
ghost use Rattle.std.specs.Prelude.{◌+◌, List, [], ◌∷◌, ◌++◌};
ghost use Rattle.book.specs.declared.row.Row.{Row};
ghost use Rattle.book_file.specs.Steps.{InTable};

use book::Row;

// Puts a row at its index, if the table has that place.
pub(crate) fn put_row(row: Row, table: &mut [Row], index: usize)
    ensures { (start rows : List Row) → InTable start rows table.old index → InTable start (rows ++ row ∷ []) table.new (index + 1) }
{
    if index < table.len() {
        table[index] = row;
    }
}
