// Cuts a text into words, one at a time.
ghost use Rattle.std.specs.Prelude.{◌≡◌, ◌+◌, ◌<◌, ◌≤◌, ◌≢◌, ◌⊎◌, length, slice_index};
ghost use Rattle.sheet_text.specs.Bytes.{EachBefore, Space, Visible};

use crate::word::Word;
use faults::TextFault;

// The text from `at` on is still to be cut; the end of the text ends a line too. The
// whole text is kept, since each word has its place in it.
#[derive(Drop)]
pub(crate) struct Lexer<'a> {
    text: &'a [u8],
    at: usize,
    ghost within: { at ≤ length text.now + 1 },
}

impl<'a> Lexer<'a> {
    ghost use Rattle.std.specs.Prelude.{◌≡◌};
    ghost use Rattle.sheet_text.specs.Lexing.{stream};
    ghost use Rattle.sheet_text.specs.Cuts.{tokens};

    pub(crate) fn new(text: &'a [u8]) -> Lexer<'a>
        ensures { stream result ≡ tokens text.now }
    {
        Lexer { text, at: 0 }
    }
}

impl<'a> Iterator for Lexer<'a> {
    ghost use Rattle.std.specs.Prelude.{◌-◌, ◌+◌, length};
    ghost use Rattle.std.specs.Iterator.{at_most};
    ghost use Rattle.sheet_text.specs.Lexing.{Draws};

    // A byte that is not allowed is found with the word that it stands in.
    type Item = Result<Word<'a>, TextFault>;

    ghost next_gives = { Draws };

    ghost remaining = { λ l. at_most (length l.text.now + 1 - l.at) };

    fn next(&mut self) -> Option<Result<Word<'a>, TextFault>> {
        let text = self.text;
        if self.at > text.len() {
            return None;
        }
        let from = self.at + spaces(&text[self.at..]);
        if from == text.len() || text[from] == b'\n' {
            self.at = from + 1;
            return Some(Ok(Word::LineEnd { place: from }));
        }
        let end = from + word_length(&text[from..]);
        if end < text.len() && text[end] != b' ' && text[end] != b'\n' {
            self.at = end + 1;
            return Some(Err(TextFault::Byte { place: end }));
        }
        self.at = end;
        let stretch = &text[from..end];
        Some(Ok(Word::of(stretch, from)))
    }
}

// How many spaces a text begins with.
fn spaces(text: &[u8]) -> usize
    ensures within { result ≤ length text.now }
    ensures before { EachBefore result Space text.now }
    ensures stops { result < length text.now → slice_index text.now result ≢ 32 }
{
    text.iter()
        .position(|byte| *byte != b' ')
        .unwrap_or(text.len())
}

// How far a word goes on, up to a byte that ends it or that none may have: a word is
// gone over once, and no further than that. (One function for both would take its test
// as a parameter, and say no more of it than these two chains.)
fn word_length(text: &[u8]) -> usize
    ensures within { result ≤ length text.now }
    ensures before { EachBefore result Visible text.now }
    ensures stops { result < length text.now → (slice_index text.now result ≤ 32) ⊎ (126 < slice_index text.now result) }
{
    text.iter()
        .position(|byte| *byte <= b' ' || *byte > b'~')
        .unwrap_or(text.len())
}
