// Asking for a worth: the one walk, for every scale and every kind of sheet.
ghost use Rattle.std.specs.Prelude.{◌≡◌, ℕ, ◌<◌, length as count, slice_index_or};
ghost use Rattle.worth.specs.Worth.{worth_from, Asked};

use crate::fault::WorthFault;
use crate::scale::Scale;
use crate::tree::walk_from;
use prefix::PartLine;
use sheet::Sheet;

// The worth of a part line; a length above the prefix's is read as that.
pub fn walk<S: Scale, F: Sheet>(
    cells: &mut [S::Worth],
    sheet: &F,
    from: PartLine,
) -> Result<S::Worth, WorthFault>
    ensures { Asked S.Scale.joins (F.Sheet.prefix sheet.now) (worth_from S.Scale.joins (F.Sheet.kept sheet.now) (F.Sheet.prefix sheet.now) from) cells.old cells.new result }
{
    let n = sheet.prefix().len();
    if cells.len() < n {
        return Err(WorthFault::StackTooShort);
    }
    let worth = walk_from::<S, F>(cells, sheet, from.within(n));
    let lost = S::LOST;
    fill(cells, lost);
    Ok(worth)
}

// Writes a worth into every cell. The library's `fill` asks for a clone that
// cannot fail, and of a scale's worths only `Copy` is known; with `fill_with` the
// goal `returns` of `walk` stays open.
fn fill<W: Copy>(cells: &mut [W], worth: W)
    ensures { (k : ℕ) → k < count cells.new → slice_index_or cells.new k worth ≡ worth }
{
    for cell in cells.iter_mut() {
        *cell = worth;
    }
}
