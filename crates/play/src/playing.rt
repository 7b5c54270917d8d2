// Plays calls from an opening.
ghost use Rattle.std.specs.Prelude.{◌≡◌, min, take, length as count, MatchResult};
ghost use Rattle.prefix.specs.Prefixes.{kinds};
ghost use Rattle.play.specs.Playing.{ByChain, PlayedAll};
ghost use Rattle.play.specs.Checking.{MeansWinning};
ghost use Rattle.play.specs.OpenFaults.{Refused};

use crate::call::{Answer, Call};
use crate::open_fault::OpenFault;
use crate::opening::open;
use book::Book;
use prefix::PartLine;
use sheet::Sheet;

// How many calls were played, and the values that then stood.
#[derive(Clone, Copy, Debug)]
pub struct Played {
    pub calls: usize,
    pub so_far: PartLine,
}

// Opens a round and makes calls, one after the other, as many as there are answers for. Each
// answer is written over the one at its call's place.
pub fn play_calls<F: Sheet, B: Book>(
    sheet: &F,
    book: &B,
    calls: &[Call],
    answers: &mut [Answer],
) -> Result<Played, OpenFault>
    ensures answer { let kept = F.Sheet.kept sheet.now in
        let g = B.Book.guards book.now in
        let p = F.Sheet.prefix sheet.now in
        let q = B.Book.prefix book.now in
        MatchResult result
        (λ played. (p ≡ q) × MeansWinning kept g (kinds p) × (played.calls ≡ min (count calls.now) (count answers.old))
        × PlayedAll kept g (kinds p) (take played.calls calls.now) answers.old answers.new played.so_far
        × ByChain B.Book.prefix B.Book.guards F.Sheet.kept sheet.entry book.entry (take played.calls calls.now) (take played.calls answers.new) played.so_far)
        (λ fault. Refused kept g p q fault × (answers.new ≡ answers.old)) }
{
    let mut round = open(sheet, book)?;
    let played = calls.len().min(answers.len());
    for at in 0..played {
        answers[at] = round.play(calls[at]);
    }
    Ok(Played {
        calls: played,
        so_far: round.so_far(),
    })
}
