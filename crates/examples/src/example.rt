// Worked examples: what a call is given, and what it answers.
use jobs::Choice;
use play::Verdict;

// An example for one of the calls `settle`, `write_book`, `pass`, `write_number` and `read_rows`.
#[derive(Clone, Copy, Debug)]
pub enum Example {
    // so many policies win on the sheet, and the searched one makes these choices
    Settled {
        sheet: &'static [u8],
        policies: u32,
        choices: &'static [Choice],
    },
    // so many policies win on the sheet
    Counted {
        sheet: &'static [u8],
        policies: u32,
    },
    // no policy wins on the sheet, and a search is refused with this number
    NoneFound {
        sheet: &'static [u8],
        number: u8,
    },
    // this verdict is on the book of the file
    Judged {
        sheet: &'static [u8],
        book: &'static [u8],
        verdict: Verdict,
    },
    // the number is these bytes
    Coded {
        number: u32,
        bytes: &'static [u8],
    },
    // no book's file begins so: it is refused with this number and place
    Unread {
        file: &'static [u8],
        number: u8,
        place: usize,
    },
}
