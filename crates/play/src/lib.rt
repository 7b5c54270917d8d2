// Sheets and books together: filling a book with a policy that wins a sheet, checking a
// book, and playing rounds from it.
//
//     search(&mut stack, &sheet, &mut book)?; // the policy that is on wherever on can still win
//     let mut round = open(&sheet, &book)?; // only if the book means a policy that wins
//     round.tell(true)?;
//     let on = round.reply()?;
#![tactic(auto)]

pub mod call;
pub mod check_fault;
pub mod checking;
pub mod list_searching;
pub mod open_fault;
pub mod opening;
pub mod playing;
pub mod round;
pub mod round_fault;
pub mod search_fault;
pub mod searching;
pub mod verdict;

pub use call::{Answer, Call};
pub use check_fault::CheckFault;
pub use checking::check;
pub use list_searching::search_list;
pub use open_fault::OpenFault;
pub use opening::open;
pub use playing::{Played, play_calls};
pub use round::Round;
pub use round_fault::RoundFault;
pub use search_fault::SearchFault;
pub use searching::search;
pub use verdict::{Checked, Verdict};
