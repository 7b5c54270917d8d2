// The bits of a table's words. A function that changes a block is given the words whole,
// and lends the part from the block's start to the one that clears or sets it.
ghost use Rattle.std.specs.Prelude.{◌≡◌, ◌+◌, ◌/◌, ◌%◌, ◌<◌, ◌≤◌, ◌++◌, length as count, drop, replicate, slice_index_or};
ghost use Rattle.prefix.specs.Bits.{bit};
ghost use Rattle.book.specs.Tables.{with_bit, with_zeros};

use super::layout::WORD_BITS;

// Turns the bit of a setting on.
pub(super) fn set_bit(words: &mut [u64], start: usize, setting: usize)
    requires { start + setting / 64 < count words.old }
    ensures { words.new ≡ with_bit words.old (start + setting / 64) (setting % 64) }
{
    set_in_block(&mut words[start..], setting);
}

fn set_in_block(block: &mut [u64], setting: usize)
    requires { setting / 64 < count block.old }
    ensures { block.new ≡ with_bit block.old (setting / 64) (setting % 64) }
{
    block[setting / WORD_BITS] |= 1 << (setting % WORD_BITS);
}

// Whether the bit of a setting is on.
pub(super) fn has_bit(words: &[u64], start: usize, setting: usize) -> bool
    requires { start + setting / 64 < count words.now }
    ensures { result ≡ bit (slice_index_or words.now (start + setting / 64) 0) (setting % 64) }
{
    words[start + setting / WORD_BITS] >> (setting % WORD_BITS) & 1 == 1
}

// Turns every bit of a block off.
pub(super) fn clear_block(words: &mut [u64], start: usize, size: usize)
    requires { start + size ≤ count words.old }
    ensures { words.new ≡ with_zeros start size words.old }
{
    clear_first(&mut words[start..], size);
}

fn clear_first(block: &mut [u64], size: usize)
    requires { size ≤ count block.old }
    ensures { block.new ≡ replicate size 0 ++ drop size block.old }
{
    block[..size].fill(0);
}
