// Whether some policy wins, asked of the walk on the yes-no scale.
ghost use Rattle.std.specs.Prelude.{◌≡◌};
ghost use Rattle.worth.specs.Winning.{WinnableOf, WinnableFrom, YesMeansWinnable, Told};

use crate::fault::WorthFault;
use crate::stack::WorthStack;
use crate::yes_no::YesNo;
use prefix::PartLine;
use sheet::Sheet;

// Whether some policy wins from a part line; a length above the prefix's is read
// as that.
#[tactic(auto, using(crate::proofs::Policies::yes_means_winnable, crate::proofs::Policies::worth_told))]
pub fn can_win<'a, F: Sheet>(
    stack: &mut WorthStack<'a, bool>,
    sheet: &F,
    from: PartLine,
) -> Result<bool, WorthFault>
    ensures told { Told (WinnableFrom (F.Sheet.kept sheet.now) (F.Sheet.prefix sheet.now) from) (F.Sheet.prefix sheet.now) stack.old.cells.now stack.new.cells.now result }
    ensures worths { YesMeansWinnable }
    ensures name { stack.new.cells.ghost_name ≡ stack.old.cells.ghost_name }
{
    stack.worth_from::<YesNo, F>(sheet, from)
}

// Whether the sheet has a winning policy.
pub fn has_winning_policy<'a, F: Sheet>(
    stack: &mut WorthStack<'a, bool>,
    sheet: &F,
) -> Result<bool, WorthFault>
    ensures told { Told (WinnableOf (F.Sheet.kept sheet.now) (F.Sheet.prefix sheet.now)) (F.Sheet.prefix sheet.now) stack.old.cells.now stack.new.cells.now result }
    ensures name { stack.new.cells.ghost_name ≡ stack.old.cells.ghost_name }
{
    can_win(stack, sheet, PartLine::empty())
}
