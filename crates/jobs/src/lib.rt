// The work of each program as a function on values: a program reads its input,
// calls its job and prints the result.
#![tactic(auto)]

pub mod choice;
pub mod explanation;
pub mod fault;
pub mod input;
pub mod judgement;
mod listing;
pub mod passing;
pub mod position;
pub mod refusal;
mod rows;
mod searched;
mod searched_file;
pub mod settling;
pub mod verdict_words;
pub mod writing_books;

pub use choice::Choice;
pub use explanation::Explanation;
pub use fault::JobFault;
pub use judgement::Judgement;
pub use passing::pass;
pub use position::TextPosition;
pub use refusal::Refusal;
pub use settling::{Settlement, settle};
pub use verdict_words::VerdictWords;
pub use writing_books::{BookFile, write_book};
