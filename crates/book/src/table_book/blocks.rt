// Clearing the blocks of a table.
ghost use Rattle.std.specs.Prelude.{◌≡◌, ◌+◌, ◌≤◌, length as count};
ghost use Rattle.prefix.specs.Prefixes.{kinds};
ghost use Rattle.book.specs.Tables.{words_at, words_before, word_count, with_zeros};

use super::layout::{block_start, block_words};
use super::words::clear_block;
use crate::side::Side;
use prefix::Prefix;

// Makes every block 0.
pub(super) fn clear_blocks(words: &mut [u64], prefix: Prefix)
    requires { word_count (kinds prefix) ≤ count words.old }
    ensures { words.new ≡ with_zeros 0 (word_count (kinds prefix)) words.old }
{
    for position in 1..=prefix.len() {
        clear_at(words, prefix, position);
    }
}

// Makes both blocks of a position 0, if a reply stands there.
fn clear_at(words: &mut [u64], prefix: Prefix, position: usize)
    requires { words_before (kinds prefix) position + words_at (kinds prefix) position ≤ count words.old }
    ensures { words.new ≡ with_zeros (words_before (kinds prefix) position) (words_at (kinds prefix) position) words.old }
{
    if !prefix.is_reply(position) {
        return;
    }
    let size = block_words(prefix, position);
    clear_block(words, block_start(prefix, Side::On, position), size);
    clear_block(words, block_start(prefix, Side::Off, position), size);
}
