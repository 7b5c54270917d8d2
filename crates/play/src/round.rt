// A round: the values told and replied so far.
//
// The struct stands alone in this file: its ghost field imports every `ghost
// use` here, and the definitions that speak of rounds import the struct.
ghost use Rattle.std.specs.Prelude.{◌≤◌};

mod calls;
mod questions;

use prefix::PartLine;

// A round on a sheet, with the replies of a book that means a policy that wins it. `open` alone
// makes one. No call asks the sheet; it stays lent, so that the lines of the round can be
// said to be kept by it.
#[derive(Drop)]
pub struct Round<'a, F, B> {
    pub(crate) sheet: &'a F,
    pub(crate) book: &'a B,
    pub(crate) so_far: PartLine,
    ghost few: { so_far.length ≤ 24 },
}
