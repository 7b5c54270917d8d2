// The machine that reads a sheet, one word at a time.
//
// The struct stands alone in this file: its ghost field imports every `ghost
// use` here.
ghost use Rattle.sheet_text.specs.Keeping.{Sound};
ghost use Rattle.sheet_text.specs.KeepingOnce.{sound_props};

mod quantifiers;
mod rules;
mod take;

use crate::state::State;

#[derive(Drop)]
pub(crate) struct Reader {
    pub(crate) state: State,
    ghost sound: { Sound state } by { Prim.hlevel sound_props },
}
