// Fills a book with a policy that wins a sheet.
ghost use Rattle.std.specs.Prelude.{◌≡◌, ◌≤◌, true, MatchResult, length as count};
ghost use Rattle.prefix.specs.Prefixes.{kinds};
ghost use Rattle.worth.specs.Scales.{yes_no};
ghost use Rattle.worth.specs.Worth.{AllLost};
ghost use Rattle.play.specs.SearchFaults.{Refused, StackLeft};
ghost use Rattle.play.specs.Filling.{ClearsAll, AddsOne, FirstHas, MetOnce};
ghost use Rattle.play.specs.Found.{Found};

mod filling;

use crate::search_fault::SearchFault;
use book::FillableBook;
use filling::fill;
use sheet::Sheet;
use worth::{WorthStack, has_winning_policy};

// Fills a book with the policy that wins the sheet and is on exactly where on can still win.
// Guards are added setting by setting in rising number, at each the replies in order, each
// point once. A refusal leaves the book as it was.
#[tactic(auto, using(prefix::proofs::Equal::prefix_tells, prefix::proofs::Equal::prefix_differs, crate::proofs::Numbers::first_has, crate::proofs::MetPoints::met_once))]
pub fn search<'a, F: Sheet, B: FillableBook>(
    stack: &mut WorthStack<'a, bool>,
    sheet: &F,
    book: &mut B,
) -> Result<(), SearchFault>
    ensures answer { let kept = F.Sheet.kept sheet.now in
        let p = F.Sheet.prefix sheet.now in
        let q = B.Book.prefix book.old in
        let ks = kinds p in
        let room = B.FillableBook.room book.old in
        let cells = count stack.old.cells.now in
        MatchResult result
        (λ _. (p ≡ q) × (room ≡ true) × (p.length ≤ cells) × AllLost yes_no stack.new.cells.now
        × Found (ClearsAll B.FillableBook.Clears B.Book.guards ks) (AddsOne B.FillableBook.Adds B.Book.guards ks) kept ks book.old book.new (B.Book.guards book.new))
        (λ fault. Refused kept p q cells room fault × (book.new ≡ book.old) × StackLeft stack.old.cells.now stack.new.cells.now fault) }
    ensures first { FirstHas (kinds (F.Sheet.prefix sheet.now)) }
    ensures once { MetOnce (kinds (F.Sheet.prefix sheet.now)) }
    ensures prefix { B.Book.prefix book.new ≡ B.Book.prefix book.old }
    ensures room { B.FillableBook.room book.new ≡ B.FillableBook.room book.old }
    ensures memory { B.FillableBook.unaltered book.new ≡ B.FillableBook.unaltered book.old }
    ensures length { count stack.new.cells.now ≡ count stack.old.cells.now }
    ensures name { stack.new.cells.ghost_name ≡ stack.old.cells.ghost_name }
{
    let prefix = sheet.prefix();
    if prefix != book.prefix() {
        return Err(SearchFault::PrefixesDiffer);
    }
    if stack.len() < prefix.len() {
        return Err(SearchFault::StackTooShort);
    }
    if !book.room() {
        return Err(SearchFault::NoRoom);
    }
    // the stack is long enough
    if !has_winning_policy(stack, sheet).unwrap() {
        return Err(SearchFault::NoPolicy);
    }
    book.clear();
    fill(stack, sheet, book, prefix);
    Ok(())
}
