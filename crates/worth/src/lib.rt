// What a part line is worth to the box, on any scale: whether some policy wins
// from there, how many do. One walk serves every scale and every kind of sheet.
//
//     let mut stack = WorthStack::new(&mut cells); // as many as positions
//     stack.worth::<Count, ClauseSheet>(&sheet)?
#![tactic(auto)]

pub mod count;
pub mod counting;
pub mod fault;
pub mod policy_count;
pub mod scale;
pub mod stack;
mod tree;
pub mod walk;
pub mod winning;
pub mod yes_no;

pub use count::Count;
pub use counting::{count_policies, count_policies_of};
pub use fault::WorthFault;
pub use policy_count::PolicyCount;
pub use scale::Scale;
pub use stack::WorthStack;
pub use winning::{can_win, has_winning_policy};
pub use yes_no::YesNo;
