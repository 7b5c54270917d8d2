// Where the guards of a prefix lie in the words of a table.
ghost use Rattle.std.specs.Prelude.{◌≡◌, ◌*◌, ◌≤◌};
ghost use Rattle.prefix.specs.Prefixes.{kinds};
ghost use Rattle.book.specs.Tables.{block_words, words_at, words_before, block_start};

use crate::side::Side;
use prefix::Prefix;

// How many guards a word has.
pub(super) const WORD_BITS: usize = 64;

// The words of one block of a reply: a bit for each setting before it, and at least one
// word.
#[tactic(auto, using(prefix::proofs::Settings::few_settings))]
pub(super) fn block_words(prefix: Prefix, position: usize) -> usize
    ensures value { result ≡ block_words (kinds prefix) position }
    ensures few { result ≤ 64 }
{
    let settings: usize = 1 << prefix.reports_before(position);
    (settings / WORD_BITS).max(1)
}

// The words of both blocks of a position: none where no reply stands.
fn words_at(prefix: Prefix, position: usize) -> usize
    ensures value { result ≡ words_at (kinds prefix) position }
    ensures few { result ≤ 128 }
{
    if !prefix.is_reply(position) {
        return 0;
    }
    2 * block_words(prefix, position)
}

// The words of the blocks of all positions before one.
pub(super) fn words_before(prefix: Prefix, position: usize) -> usize
    ensures value { result ≡ words_before (kinds prefix) position }
    ensures few { result ≤ 128 * 24 }
{
    let mut words = 0;
    for earlier in 1..position.min(prefix.len() + 1) {
        words += words_at(prefix, earlier);
    }
    words
}

// Where the block of a side begins: the on-block after the blocks of the replies before,
// the off-block after the on-block.
pub(super) fn block_start(prefix: Prefix, side: Side, position: usize) -> usize
    ensures { result ≡ block_start (kinds prefix) side position }
{
    let start = words_before(prefix, position);
    match side {
        Side::On => start,
        Side::Off => start + block_words(prefix, position),
    }
}
