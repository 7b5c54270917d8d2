// The yes-no scale: can the box still win?
ghost use Rattle.std.specs.Prelude.{refl};
ghost use Rattle.worth.specs.Scales.{yes_no};
ghost use Rattle.std.proofs.Common.{rules};

use crate::scale::Scale;

pub struct YesNo;

impl Scale for YesNo {
    type Worth = bool;

    const LOST: bool = false;

    const WON: bool = true;

    ghost LOST = { yes_no.lost };

    ghost WON = { yes_no.won };

    ghost joins = { yes_no };

    ghost lost = { refl };

    ghost won = { refl };

    ghost lawful = { Prim.search rules };

    ghost tells = { Prim.search rules };

    fn either(first: bool, second: bool) -> bool {
        first || second
    }

    fn both(first: bool, second: bool) -> bool {
        first && second
    }

    fn unbeatable(worth: bool) -> bool {
        worth
    }
}
