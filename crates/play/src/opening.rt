// Opens a round.
ghost use Rattle.std.specs.Prelude.{◌≡◌, MatchResult};
ghost use Rattle.prefix.specs.Prefixes.{kinds};
ghost use Rattle.play.specs.Chains.{Opened};
ghost use Rattle.play.specs.Checking.{MeansWinning};
ghost use Rattle.play.specs.OpenFaults.{Refused};

use crate::checking::check;
use crate::open_fault::OpenFault;
use crate::round::Round;
use book::Book;
use prefix::PartLine;
use sheet::Sheet;

// A round of no values on a sheet and a book, lent to it, if the book means a policy that wins
// the sheet. Then no calls of the round, however they come, complete a broken line.
pub fn open<'a, F: Sheet, B: Book>(sheet: &'a F, book: &'a B) -> Result<Round<'a, F, B>, OpenFault>
    ensures answer { let kept = F.Sheet.kept sheet.now in
        let g = B.Book.guards book.now in
        let p = F.Sheet.prefix sheet.now in
        let q = B.Book.prefix book.now in
        MatchResult result
        (λ round. (p ≡ q) × MeansWinning kept g (kinds p) × Opened B.Book.prefix B.Book.guards F.Sheet.kept sheet.entry book.entry round)
        (λ fault. Refused kept g p q fault) }
{
    let checked = check(sheet, book)?;
    if !checked.verdict.is_accepted() {
        return Err(OpenFault::NotAccepted(checked));
    }
    Ok(Round {
        sheet,
        book,
        so_far: PartLine::empty(),
    })
}
