// A book as a table of bits in the caller's memory.
ghost use Rattle.std.specs.Prelude.{◌≡◌, ℕ, ◌≤◌, false, true, List, ⊤};
ghost use Rattle.prefix.specs.Lines.{setting_before};
ghost use Rattle.prefix.specs.Prefixes.{kinds};
ghost use Rattle.book.specs.Guards.{answer, AllNo, Added, can_add};
ghost use Rattle.book.specs.declared.side.Side.{Side};
ghost use Rattle.book.specs.declared.side.Side.TheVariants.{On, Off};
ghost use Rattle.book.specs.Tables.{OwnBits, word_count, suffice, table_guards, words_past, words_after_add, words_after_clear};

mod blocks;
mod layout;
mod words;

use crate::book::Book;
use crate::fillable::FillableBook;
use crate::side::Side;
use blocks::clear_blocks;
use layout::{block_start, words_before};
use prefix::{Line, Prefix};
use words::{has_bit, set_bit};

// For each reply in order an on-block and then an off-block, each of one bit for each
// setting before the reply, in words of 64 bits, and of at least one word; each block
// begins where the one before it ends. Words past the last block stay as they are.
#[derive(Drop)]
pub struct TableBook<'a> {
    prefix: Prefix,
    words: &'a mut [u64],
}

impl<'a> TableBook<'a> {
    // So many words give room for any prefix.
    pub const MOST_WORDS: usize = 1536;

    // The book of what the words hold; `clear` it where they hold something else.
    pub fn new(prefix: Prefix, words: &'a mut [u64]) -> TableBook<'a>
        ensures prefix { result.prefix ≡ prefix }
        ensures words { result.words.now ≡ words.old }
        ensures name { result.words.ghost_name ≡ words.entry.ghost_name }
    {
        TableBook { prefix, words }
    }

    // How many words give room for a prefix.
    #[tactic(auto, using(crate::proofs::Places::own_bits))]
    pub fn word_count(prefix: Prefix) -> usize
        ensures value { result ≡ word_count (kinds prefix) }
        ensures few { result ≤ Self.MOST_WORDS }
        ensures most { Self.MOST_WORDS ≡ 1536 }
        ensures bits { OwnBits (kinds prefix) }
    {
        words_before(prefix, prefix.len() + 1)
    }

    // Whether there are words for all blocks.
    fn words_suffice(&self) -> bool
        ensures { result ≡ suffice self.now.prefix self.now.words.now }
    {
        Self::word_count(self.prefix) <= self.words.len()
    }

    // Whether the words have guards of a position.
    fn can_add(&self, position: usize) -> bool
        ensures { result ≡ can_add (suffice self.now.prefix self.now.words.now) self.now.prefix position }
    {
        self.words_suffice() && self.prefix.is_reply(position)
    }

    // The guard of a side at the point of a position and a line.
    #[tactic(auto, using(crate::proofs::Filling::point_inside))]
    fn answer(&self, side: Side, position: usize, line: Line) -> bool
        ensures { result ≡ answer self.now.prefix (table_guards self.now.prefix self.now.words.now) side position line.mask }
    {
        if !self.can_add(position) {
            return false;
        }
        let setting = self.prefix.setting_number(position, line);
        let start = block_start(self.prefix, side, position);
        has_bit(self.words, start, setting)
    }
}

impl<'a> Book for TableBook<'a> {
    ghost prefix = { λ b. b.prefix };

    ghost guards = { λ b. table_guards b.prefix b.words.now };

    fn prefix(&self) -> Prefix {
        self.prefix
    }

    fn on(&self, position: usize, line: Line) -> bool {
        self.answer(Side::On, position, line)
    }

    fn off(&self, position: usize, line: Line) -> bool {
        self.answer(Side::Off, position, line)
    }
}

impl<'a> FillableBook for TableBook<'a> {
    ghost room = { λ b. suffice b.prefix b.words.now };

    ghost Clears = { λ _ _. ⊤ };

    ghost Adds = { λ _ _ _ _ _. ⊤ };

    ghost Memory = { ℕ × List ℕ };

    ghost unaltered = { λ b. (b.words.ghost_name, words_past b.prefix b.words.now) };

    fn room(&self) -> bool {
        self.words_suffice()
    }

    #[tactic(auto, using(crate::proofs::Filling::clear_keeps_room, crate::proofs::Filling::clear_keeps_past, crate::proofs::Filling::clear_empties))]
    fn clear(&mut self)
        ensures prefix { self.new.prefix ≡ self.old.prefix }
        ensures words { self.new.words.now ≡ words_after_clear self.old.prefix self.old.words.now }
        ensures past { words_past self.old.prefix self.new.words.now ≡ words_past self.old.prefix self.old.words.now }
        ensures name { self.new.words.ghost_name ≡ self.old.words.ghost_name }
        ensures guards { AllNo (kinds self.old.prefix) (table_guards self.new.prefix self.new.words.now) }
        ensures room { suffice self.new.prefix self.new.words.now ≡ suffice self.old.prefix self.old.words.now }
        ensures same { suffice self.old.prefix self.old.words.now ≡ false → self.new ≡ self.old }
    {
        if self.words_suffice() {
            let prefix = self.prefix;
            clear_blocks(self.words, prefix);
        }
    }

    #[tactic(auto, using(crate::proofs::Filling::point_inside, crate::proofs::Filling::add_fills, crate::proofs::Filling::add_keeps_room, crate::proofs::Filling::add_keeps_past))]
    fn add(&mut self, side: Side, position: usize, line: Line)
        ensures prefix { self.new.prefix ≡ self.old.prefix }
        ensures words { self.new.words.now ≡ words_after_add self.old.prefix self.old.words.now side position line.mask }
        ensures past { words_past self.old.prefix self.new.words.now ≡ words_past self.old.prefix self.old.words.now }
        ensures name { self.new.words.ghost_name ≡ self.old.words.ghost_name }
        ensures room { suffice self.new.prefix self.new.words.now ≡ suffice self.old.prefix self.old.words.now }
        ensures guards { can_add (suffice self.old.prefix self.old.words.now) self.old.prefix position ≡ true
            → Added (kinds self.old.prefix) (table_guards self.old.prefix self.old.words.now) side position (setting_before self.old.prefix position line.mask) (table_guards self.new.prefix self.new.words.now) }
        ensures same { can_add (suffice self.old.prefix self.old.words.now) self.old.prefix position ≡ false → self.new ≡ self.old }
    {
        if !self.can_add(position) {
            return;
        }
        let start = block_start(self.prefix, side, position);
        let setting = self.prefix.setting_number(position, line);
        set_bit(self.words, start, setting);
    }
}
