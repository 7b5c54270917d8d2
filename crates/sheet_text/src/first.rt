// The first word of a line.
ghost use Rattle.std.specs.Prelude.{◌≡◌};
ghost use Rattle.sheet_text.specs.Words.{token};
ghost use Rattle.sheet_text.specs.FirstWords.{first_word, first_of};

use crate::word::Word;
use prefix::Kind;

// The first word of a line, as far as it says what the line is.
#[derive(Clone, Copy)]
pub(crate) enum First {
    Comment,
    Header,
    Quantifier(Kind),
    Number,
    // another word that begins with a letter
    Letters,
    Other,
}

impl<'a> From<Word<'a>> for First {
    ghost from_gives = { λ w f. f ≡ first_of (token w) };

    fn from(word: Word<'a>) -> First {
        match word {
            Word::Letters { text, .. } => first_word(text),
            Word::Number { .. } => First::Number,
            Word::LineEnd { .. } => First::Other,
        }
    }
}

fn first_word(text: &[u8]) -> First
    ensures { result ≡ first_word text.now }
{
    match text {
        [letter] => match char::from(*letter) {
            'c' => First::Comment,
            'p' => First::Header,
            'a' => First::Quantifier(Kind::Report),
            'e' => First::Quantifier(Kind::Reply),
            'A'..='Z' | 'a'..='z' => First::Letters,
            _ => First::Other,
        },
        [letter, ..] if letter.is_ascii_alphabetic() => First::Letters,
        _ => First::Other,
    }
}
