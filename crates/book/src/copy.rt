// Copying a book of any kind into a fillable one of any kind.
ghost use Rattle.std.specs.Prelude.{◌≡◌, MatchResult};
ghost use Rattle.book.specs.Faults.{Refused};
ghost use Rattle.book.specs.Copying.{Copied};

mod points;

use crate::book::Book;
use crate::fault::CopyFault;
use crate::fillable::FillableBook;
use points::copy_all;

// Fills a book with the guards of another. Refused where the prefixes differ, or where
// there is no room; the book is then as it was.
#[tactic(auto, using(prefix::proofs::Equal::prefix_tells, prefix::proofs::Equal::prefix_differs, crate::proofs::Copies::copied))]
pub fn copy_into<B: Book, F: FillableBook>(from: &B, to: &mut F) -> Result<(), CopyFault>
    ensures answer { MatchResult result
        (λ _. Copied (B.Book.prefix from.now) (F.Book.prefix to.old) (F.FillableBook.room to.old) (B.Book.guards from.now) (F.Book.guards to.new))
        (λ fault. Refused (B.Book.prefix from.now) (F.Book.prefix to.old) (F.FillableBook.room to.old) fault × (to.new ≡ to.old)) }
    ensures prefix { F.Book.prefix to.new ≡ F.Book.prefix to.old }
    ensures room { F.FillableBook.room to.new ≡ F.FillableBook.room to.old }
    ensures memory { F.FillableBook.unaltered to.new ≡ F.FillableBook.unaltered to.old }
{
    let prefix = from.prefix();
    if prefix != to.prefix() {
        return Err(CopyFault::PrefixesDiffer);
    }
    if !to.room() {
        return Err(CopyFault::NoRoom);
    }
    copy_all(from, to, prefix);
    Ok(())
}
