// The choices of a book at all points, position by position, and at each position by the
// number of the setting before it.
ghost use Rattle.std.specs.Prelude.{◌≡◌, ◌+◌, IfOk};
ghost use Rattle.prefix.specs.Points.{Point};
ghost use Rattle.prefix.specs.Prefixes.{kinds};
ghost use Rattle.book.specs.declared.side.Side.TheVariants.{On};
ghost use Rattle.play.specs.Listing.{Lists};
ghost use Rattle.jobs.specs.Choices.{choice_of, ListedBefore};
ghost use Rattle.jobs.specs.Steps.{ListsTo};

use crate::choice::Choice;
use book::Book;
use prefix::Prefix;
use std::alloc::{AllocError, Global};

// The choices of the policy that is on where the book's on-guard is yes.
pub(crate) fn list_choices<B: Book>(heap: Global, book: &B) -> Result<Vec<Choice>, AllocError>
    ensures { IfOk result (λ v. Lists (Point (kinds (B.Book.prefix book.now))) (choice_of (B.Book.guards book.now On)) ListedBefore v.items) }
{
    let prefix = book.prefix();
    let mut listed = Vec::with_capacity(heap, prefix.point_count())?;
    for position in 1..=prefix.len() {
        list_choices_at(book, prefix, position, &mut listed)?;
    }
    Ok(listed)
}

// Lists the choices at one position after those at all positions before it.
fn list_choices_at<B: Book>(
    book: &B,
    prefix: Prefix,
    position: usize,
    listed: &mut Vec<Choice>,
) -> Result<(), AllocError>
    requires prefix { B.Book.prefix book.now ≡ prefix }
    requires before { ListsTo (kinds prefix) (B.Book.guards book.now On) position 0 listed.old.items }
    ensures { IfOk result (λ _. ListsTo (kinds prefix) (B.Book.guards book.now On) (position + 1) 0 listed.new.items) }
{
    for number in 0..prefix.points_at(position) {
        // each number below `points_at` is that of a setting
        let line = prefix.setting_line(position, number).unwrap();
        let value = book.on(position, line);
        listed.push(Choice {
            position,
            setting: number,
            value,
        })?;
    }
    Ok(())
}
