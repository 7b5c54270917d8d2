// Table books: which bit of which word is a guard, room, garbage, and positions where no
// reply stands.
use book::{Book, FillableBook, Side, TableBook};
use prefix::{Line, Prefix};
use std::test::Fail;

// Of a prefix, by length and reports: the word with the guard of a side at a position and a
// line, and that word's value where no other guard is yes.
#[test]
fn each_guard_has_its_bit(rt: HostRuntime) -> Result<(), Fail> {
    for (length, reports, side, position, mask, word, value) in [
        // no report before: one setting, one word a block
        (1, 0, Side::On, 1, 1, 0, 1 << 0),
        (1, 0, Side::Off, 1, 0, 1, 1 << 0),
        // one report before, then two: the first weighs most, replies do not count
        (4, 0b0101, Side::On, 2, 0b0001, 0, 1 << 1),
        (4, 0b0101, Side::Off, 2, 0b1110, 1, 1 << 0),
        (4, 0b0101, Side::On, 4, 0b0100, 2, 1 << 1),
        (4, 0b0101, Side::On, 4, 0b1011, 2, 1 << 2),
        (4, 0b0101, Side::Off, 4, 0b1111, 3, 1 << 3),
        // five: half a word
        (6, 0x1f, Side::On, 6, 0x1f, 0, 1 << 31),
        (6, 0x1f, Side::Off, 6, 0x01, 1, 1 << 16),
        // six: a word
        (7, 0x3f, Side::On, 7, 0x01, 0, 1 << 32),
        (7, 0x3f, Side::On, 7, 0x3f, 0, 1 << 63),
        (7, 0x3f, Side::Off, 7, 0x20, 1, 1 << 1),
        // seven: two words
        (8, 0x7f, Side::On, 8, 0x7e, 0, 1 << 63),
        (8, 0x7f, Side::On, 8, 0x01, 1, 1 << 0),
        (8, 0x7f, Side::Off, 8, 0x00, 2, 1 << 0),
        (8, 0x7f, Side::Off, 8, 0x7f, 3, 1 << 63),
        // twelve: 64 words
        (13, 0xfff, Side::On, 13, 0x001, 32, 1 << 0),
        (13, 0xfff, Side::On, 13, 0xfff, 63, 1 << 63),
        (13, 0xfff, Side::Off, 13, 0x800, 64, 1 << 1),
        (24, 0xfff, Side::Off, 13, 0xfff, 127, 1 << 63),
        (24, 0xfff, Side::On, 14, 0x000, 128, 1 << 0),
        (24, 0xfff, Side::Off, 24, 0xfff, 1535, 1 << 63),
    ] {
        let prefix = Prefix::new(length, reports).ok_or("refused")?;
        let line = Line::from_mask(mask);
        let mut words = [0; TableBook::MOST_WORDS];
        let mut book = TableBook::new(prefix, &mut words);
        book.add(side, position, line);
        assert_eq!(rt; book.on(position, line), side == Side::On);
        assert_eq!(rt; book.off(position, line), side == Side::Off);
        for (at, found) in words.iter().enumerate() {
            assert_eq!(rt; *found, if at == word { value } else { 0 });
        }
    }
    Ok(())
}

#[test]
fn words_that_give_room(rt: HostRuntime) -> Result<(), Fail> {
    for (length, reports, words) in [
        (1, 0, 2),
        (3, 0b111, 0),
        (4, 0b0101, 4),
        (6, 0x1f, 2),
        (7, 0x3f, 2),
        (8, 0x7f, 4),
        (13, 0xfff, 128),
        // twelve replies, then twelve reports, and the other way round
        (24, 0xfff000, 24),
        (24, 0x000fff, 1536),
    ] {
        let prefix = Prefix::new(length, reports).ok_or("refused")?;
        assert_eq!(rt; TableBook::word_count(prefix), words);
        let mut table = [0; TableBook::MOST_WORDS];
        assert_eq!(rt; TableBook::new(prefix, &mut table[..words]).room(), true);
        if words > 0 {
            assert_eq!(rt;
                TableBook::new(prefix, &mut table[..words - 1]).room(),
                false
            );
        }
    }
    Ok(())
}

#[test]
fn without_room_nothing_is_altered(rt: HostRuntime) -> Result<(), Fail> {
    let prefix = Prefix::new(24, 0x000fff).ok_or("refused")?;
    let line = Line::from_mask(0);
    let mut words = [u64::MAX; 1535];
    let mut book = TableBook::new(prefix, &mut words);
    book.add(Side::On, 13, line);
    assert_eq!(rt; book.on(13, line), false);
    assert_eq!(rt; book.off(13, line), false);
    book.clear();
    assert_eq!(rt; words, [u64::MAX; 1535]);
    Ok(())
}

#[test]
fn garbage_before_clear(rt: HostRuntime) -> Result<(), Fail> {
    let prefix = Prefix::new(4, 0b0101).ok_or("refused")?;
    let mut words = [u64::MAX; 6];
    let mut book = TableBook::new(prefix, &mut words);
    let line = Line::from_mask(0b0001);
    assert_eq!(rt; book.on(4, line), true);
    assert_eq!(rt; book.off(4, line), true);
    book.clear();
    for mask in 0..16 {
        for position in [2, 4] {
            assert_eq!(rt; book.on(position, Line::from_mask(mask)), false);
            assert_eq!(rt; book.off(position, Line::from_mask(mask)), false);
        }
    }
    assert_eq!(rt; words, [0, 0, 0, 0, u64::MAX, u64::MAX]);
    Ok(())
}

#[test]
fn positions_where_no_reply_stands(rt: HostRuntime) -> Result<(), Fail> {
    let prefix = Prefix::new(4, 0b0101).ok_or("refused")?;
    let line = Line::from_mask(u32::MAX);
    let mut words = [u64::MAX; 4];
    let book = TableBook::new(prefix, &mut words);
    let mut zeros = [0; 4];
    let mut empty = TableBook::new(prefix, &mut zeros);
    for position in [0, 1, 3, 5, 25, usize::MAX] {
        assert_eq!(rt; book.on(position, line), false);
        assert_eq!(rt; book.off(position, line), false);
        empty.add(Side::On, position, line);
        empty.add(Side::Off, position, line);
    }
    assert_eq!(rt; zeros, [0; 4]);
    Ok(())
}

// Position 25 is the first past the last.
#[test]
fn a_prefix_of_24_positions(rt: HostRuntime) -> Result<(), Fail> {
    let prefix = Prefix::new(24, 0x000fff).ok_or("refused")?;
    let line = Line::from_mask(u32::MAX);
    let mut words = [u64::MAX; TableBook::MOST_WORDS];
    let book = TableBook::new(prefix, &mut words);
    assert_eq!(rt; book.prefix(), prefix);
    for (position, yes) in [(12, false), (13, true), (24, true), (25, false)] {
        assert_eq!(rt; book.on(position, line), yes);
        assert_eq!(rt; book.off(position, line), yes);
    }
    Ok(())
}

// Settings 0, 5 and 63 of six reports, one of them twice.
#[test]
fn several_guards_in_one_word(rt: HostRuntime) -> Result<(), Fail> {
    let prefix = Prefix::new(7, 0x3f).ok_or("refused")?;
    let mut words = [0; 2];
    let mut book = TableBook::new(prefix, &mut words);
    for mask in [0b00_0000, 0b10_1000, 0b11_1111, 0b10_1000] {
        book.add(Side::On, 7, Line::from_mask(mask));
    }
    book.add(Side::Off, 7, Line::from_mask(0b10_1000));
    assert_eq!(rt; words, [1 << 63 | 1 << 5 | 1 << 0, 1 << 5]);
    Ok(())
}
