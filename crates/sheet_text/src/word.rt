// Words of a sheet's text, which borrow it.
ghost use Rattle.std.specs.Prelude.{◌≡◌, Some};
ghost use Rattle.sheet_text.specs.Words.{token, sort_word, numeral_of, natural_of, negated, place_of};

// A stretch of the text between spaces, with its place, or the end of a line.
#[derive(Clone, Copy)]
pub(crate) enum Word<'a> {
    // any stretch that is no number
    Letters { text: &'a [u8], place: usize },
    Number { number: Number, place: usize },
    LineEnd { place: usize },
}

// A number as it stands in the text. As an `i32` it would be taken apart again at each
// use, into its sign and its size.
#[derive(Clone, Copy)]
pub(crate) struct Number {
    pub(crate) value: u32,
    // whether a minus stands before it
    pub(crate) negative: bool,
}

impl<'a> Word<'a> {
    // The word that a stretch is.
    pub(crate) fn of(text: &'a [u8], place: usize) -> Word<'a>
        ensures { token result ≡ sort_word text.now place }
    {
        match numeral_of(text) {
            Some(number) => Word::Number { number, place },
            None => Word::Letters { text, place },
        }
    }

    pub(crate) fn place(self) -> usize
        ensures { result ≡ place_of (token self.entry) }
    {
        match self {
            Word::Letters { place, .. } | Word::Number { place, .. } | Word::LineEnd { place } =>
                place,
        }
    }
}

// The number that a stretch is, if it is one: a minus stands only before a
// number other than 0.
#[tactic(auto, unfolding(crate::specs::Words::numeral_of))]
fn numeral_of(text: &[u8]) -> Option<Number>
    ensures { result ≡ numeral_of text.now }
{
    match text {
        [b'-', digits @ ..] => negated(natural_of(digits)?),
        _ => Some(Number {
            value: natural_of(text)?,
            negative: false,
        }),
    }
}

fn negated(value: u32) -> Option<Number>
    ensures { result ≡ negated (Some value) }
{
    match value {
        0 => None,
        _ => Some(Number {
            value,
            negative: true,
        }),
    }
}

// How many digits a number may have.
const MOST_DIGITS: usize = 6;

// One to six digits with no 0 in front, read in base ten.
fn natural_of(text: &[u8]) -> Option<u32>
    ensures { result ≡ natural_of text.now }
{
    if text.is_empty() || text.len() > MOST_DIGITS {
        return None;
    }
    if text[0] == b'0' && text.len() > 1 {
        return None;
    }
    // a `for`: the closure of a fold would have to know the bound of each part
    let mut value = 0;
    for byte in text {
        let digit = char::from(*byte).to_digit(10)?;
        value = value * 10 + digit;
    }
    Some(value)
}
