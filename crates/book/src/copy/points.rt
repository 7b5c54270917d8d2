// The points gone through in copying: position by position, and at each position setting by
// setting.
ghost use Rattle.std.specs.Prelude.{◌≡◌, ◌+◌, true};
ghost use Rattle.prefix.specs.Kinds.{is_reply};
ghost use Rattle.prefix.specs.Lines.{setting_before};
ghost use Rattle.prefix.specs.Prefixes.{kinds};
ghost use Rattle.book.specs.Guards.{SameGuards};
ghost use Rattle.book.specs.CopySteps.{CopiedTo, GuardCopied, PointCopied};

use crate::book::Book;
use crate::fillable::FillableBook;
use crate::side::Side;
use prefix::{Line, Prefix};

// Copies the guards at the points of all positions.
pub(super) fn copy_all<B: Book, F: FillableBook>(from: &B, to: &mut F, prefix: Prefix)
    requires prefixes { (B.Book.prefix from.now ≡ prefix) × (F.Book.prefix to.old ≡ prefix) }
    requires room { F.FillableBook.room to.old ≡ true }
    ensures prefix { F.Book.prefix to.new ≡ prefix }
    ensures room { F.FillableBook.room to.new ≡ true }
    ensures memory { F.FillableBook.unaltered to.new ≡ F.FillableBook.unaltered to.old }
    ensures same { SameGuards (kinds prefix) (B.Book.guards from.now) (F.Book.guards to.new) }
{
    to.clear();
    for position in 1..=prefix.len() {
        copy_at(from, to, prefix, position);
    }
}

// Copies the guards at the points of one position, where those of all positions before
// it are copied.
fn copy_at<B: Book, F: FillableBook>(from: &B, to: &mut F, prefix: Prefix, position: usize)
    requires prefixes { (B.Book.prefix from.now ≡ prefix) × (F.Book.prefix to.old ≡ prefix) }
    requires room { F.FillableBook.room to.old ≡ true }
    requires before { CopiedTo (kinds prefix) (B.Book.guards from.now) position 0 (F.Book.guards to.old) }
    ensures prefix { F.Book.prefix to.new ≡ prefix }
    ensures room { F.FillableBook.room to.new ≡ true }
    ensures memory { F.FillableBook.unaltered to.new ≡ F.FillableBook.unaltered to.old }
    ensures copied { CopiedTo (kinds prefix) (B.Book.guards from.now) (position + 1) 0 (F.Book.guards to.new) }
{
    for number in 0..prefix.points_at(position) {
        // each number below `points_at` is that of a setting
        let line = prefix.setting_line(position, number).unwrap();
        copy_point(from, to, position, line);
    }
}

// Makes the guards at one point yes where the other book's are.
fn copy_point<B: Book, F: FillableBook>(from: &B, to: &mut F, position: usize, line: Line)
    requires prefixes { B.Book.prefix from.now ≡ F.Book.prefix to.old }
    requires room { F.FillableBook.room to.old ≡ true }
    requires reply { is_reply (kinds (F.Book.prefix to.old)) position ≡ true }
    ensures prefix { F.Book.prefix to.new ≡ F.Book.prefix to.old }
    ensures room { F.FillableBook.room to.new ≡ F.FillableBook.room to.old }
    ensures memory { F.FillableBook.unaltered to.new ≡ F.FillableBook.unaltered to.old }
    ensures copied { PointCopied (kinds (F.Book.prefix to.old)) (B.Book.guards from.now) position (setting_before (F.Book.prefix to.old) position line.mask)
        (F.Book.guards to.old) (F.Book.guards to.new) }
{
    let on = from.on(position, line);
    copy_guard(to, on, Side::On, position, line);
    let off = from.off(position, line);
    copy_guard(to, off, Side::Off, position, line);
}

// Adds the guard of a side at a point, if `yes`.
fn copy_guard<F: FillableBook>(to: &mut F, yes: bool, side: Side, position: usize, line: Line)
    requires room { F.FillableBook.room to.old ≡ true }
    requires reply { is_reply (kinds (F.Book.prefix to.old)) position ≡ true }
    ensures prefix { F.Book.prefix to.new ≡ F.Book.prefix to.old }
    ensures room { F.FillableBook.room to.new ≡ F.FillableBook.room to.old }
    ensures memory { F.FillableBook.unaltered to.new ≡ F.FillableBook.unaltered to.old }
    ensures copied { GuardCopied (kinds (F.Book.prefix to.old)) yes side position (setting_before (F.Book.prefix to.old) position line.mask)
        (F.Book.guards to.old) (F.Book.guards to.new) }
{
    if yes {
        to.add(side, position, line);
    }
}
