// The stack of worths that a walk keeps the first branches' worths in.
ghost use Rattle.std.specs.Prelude.{◌≡◌, length as count};
ghost use Rattle.worth.specs.Worth.{worth_of, worth_from, Asked};

use crate::fault::WorthFault;
use crate::scale::Scale;
use crate::walk::walk;
use prefix::PartLine;
use sheet::Sheet;

// A stack of worths: one cell for each position, in the caller's memory and not in
// a vector, so that a walk needs no heap. Each method says that the cells keep their
// ghost name, as the kit asks where a struct holds a `&mut`.
#[derive(Drop)]
pub struct WorthStack<'a, W> {
    cells: &'a mut [W],
}

impl<'a, W: Copy> WorthStack<'a, W> {
    pub fn new(cells: &'a mut [W]) -> WorthStack<'a, W>
        ensures cells { result.cells.now ≡ cells.old }
        ensures name { result.cells.ghost_name ≡ cells.entry.ghost_name }
    {
        WorthStack { cells }
    }

    // How many cells.
    pub fn len(&self) -> usize
        ensures { result ≡ count self.now.cells.now }
    {
        self.cells.len()
    }

    // The worth of a sheet: that of the part line of no values.
    pub fn worth<S: Scale<Worth = W>, F: Sheet>(&mut self, sheet: &F) -> Result<W, WorthFault>
        ensures asked { Asked S.Scale.joins (F.Sheet.prefix sheet.now) (worth_of S.Scale.joins (F.Sheet.kept sheet.now) (F.Sheet.prefix sheet.now)) self.old.cells.now self.new.cells.now result }
        ensures name { self.new.cells.ghost_name ≡ self.old.cells.ghost_name }
    {
        walk::<S, F>(self.cells, sheet, PartLine::empty())
    }

    // The worth of a part line; a length above the prefix's is read as that.
    pub fn worth_from<S: Scale<Worth = W>, F: Sheet>(
        &mut self,
        sheet: &F,
        from: PartLine,
    ) -> Result<W, WorthFault>
        ensures asked { Asked S.Scale.joins (F.Sheet.prefix sheet.now) (worth_from S.Scale.joins (F.Sheet.kept sheet.now) (F.Sheet.prefix sheet.now) from) self.old.cells.now self.new.cells.now result }
        ensures name { self.new.cells.ghost_name ≡ self.old.cells.ghost_name }
    {
        walk::<S, F>(self.cells, sheet, from)
    }
}
