// Fills a list book with a policy that wins a sheet.
ghost use Rattle.std.specs.Prelude.{◌≡◌, ◌≤◌, true, MatchResult, ⊤, drop, length as count};
ghost use Rattle.prefix.specs.Points.{point_count};
ghost use Rattle.prefix.specs.Prefixes.{kinds};
ghost use Rattle.worth.specs.Scales.{yes_no};
ghost use Rattle.worth.specs.Worth.{AllLost};
ghost use Rattle.book.specs.ListBooks.{records_of, AllInOrder};
ghost use Rattle.book.specs.Records.{suffice};
ghost use Rattle.play.specs.SearchFaults.{Refused, StackLeft};
ghost use Rattle.play.specs.Filling.{FirstHas};
ghost use Rattle.play.specs.ListFilling.{RecordOrder, ListFound, OneListFound};

use crate::search_fault::SearchFault;
use crate::searching::search;
use book::ListBook;
use sheet::Sheet;
use worth::WorthStack;

// Fills a list book as `search` does. Its records are then those of all points, each once, in
// the order in which the search meets them: settings in rising number, at each the replies in
// order.
#[tactic(auto, using(crate::proofs::ListFilling::record_order))]
pub fn search_list<'a, 'b, F: Sheet>(
    stack: &mut WorthStack<'a, bool>,
    sheet: &F,
    book: &mut ListBook<'b>,
) -> Result<(), SearchFault>
    ensures answer { let kept = F.Sheet.kept sheet.now in
        let p = F.Sheet.prefix sheet.now in
        let q = book.old.prefix in
        let room = suffice q book.old.records.now in
        let cells = count stack.old.cells.now in
        MatchResult result
        (λ _. (p ≡ q) × (room ≡ true) × (p.length ≤ cells) × AllLost yes_no stack.new.cells.now × ListFound kept (kinds p) (records_of book.new))
        (λ fault. Refused kept p q cells room fault × (book.new ≡ book.old) × StackLeft stack.old.cells.now stack.new.cells.now fault) }
    ensures first { FirstHas (kinds (F.Sheet.prefix sheet.now)) }
    ensures found { MatchResult result (λ _. AllInOrder book.new) (λ _. ⊤) }
    ensures order { RecordOrder (kinds (F.Sheet.prefix sheet.now)) }
    ensures one { OneListFound (F.Sheet.kept sheet.now) (kinds (F.Sheet.prefix sheet.now)) }
    ensures prefix { book.new.prefix ≡ book.old.prefix }
    ensures room { suffice book.new.prefix book.new.records.now ≡ suffice book.old.prefix book.old.records.now }
    ensures memory { count book.new.records.now ≡ count book.old.records.now }
    ensures lent { book.new.records.ghost_name ≡ book.old.records.ghost_name }
    ensures past { drop (point_count (kinds book.old.prefix)) book.new.records.now ≡ drop (point_count (kinds book.old.prefix)) book.old.records.now }
    ensures length { count stack.new.cells.now ≡ count stack.old.cells.now }
    ensures name { stack.new.cells.ghost_name ≡ stack.old.cells.ghost_name }
{
    search(stack, sheet, book)
}
