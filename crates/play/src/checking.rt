// Checks a book: whether it means a policy that wins a sheet.
ghost use Rattle.std.specs.Prelude.{◌≡◌, MatchResult};
ghost use Rattle.prefix.specs.Prefixes.{kinds};
ghost use Rattle.play.specs.CheckFaults.{Refused};
ghost use Rattle.play.specs.Checking.{Concludes, OneVerdict, AlikeVerdicts};

mod settings;

use crate::check_fault::CheckFault;
use crate::verdict::Checked;
use book::Book;
use settings::check_settings;
use sheet::Sheet;

// The verdict on a book: accepted exactly when it means a policy that wins the sheet, else the
// first fault, with the settings in rising number and at each its replies in order, and last
// its line.
#[tactic(auto, using(prefix::proofs::Equal::prefix_tells, prefix::proofs::Equal::prefix_differs, crate::proofs::Verdicts::one_verdict, crate::proofs::AlikeBooks::alike_verdicts))]
pub fn check<F: Sheet, B: Book>(sheet: &F, book: &B) -> Result<Checked, CheckFault>
    ensures answer { let p = F.Sheet.prefix sheet.now in
        let q = B.Book.prefix book.now in
        MatchResult result
        (λ checked. (p ≡ q) × Concludes (F.Sheet.kept sheet.now) (B.Book.guards book.now) (kinds p) checked)
        (λ fault. Refused p q fault) }
    ensures one { OneVerdict (F.Sheet.kept sheet.now) (B.Book.guards book.now) (kinds (F.Sheet.prefix sheet.now)) }
    ensures alike { AlikeVerdicts (F.Sheet.kept sheet.now) (B.Book.guards book.now) (kinds (F.Sheet.prefix sheet.now)) }
{
    let prefix = sheet.prefix();
    if prefix != book.prefix() {
        return Err(CheckFault::PrefixesDiffer);
    }
    Ok(check_settings(sheet, book, prefix))
}
