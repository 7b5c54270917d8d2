// The count scale: in how many ways can the box still win?
ghost use Rattle.std.specs.Prelude.{refl};
ghost use Rattle.worth.specs.Counts.{count};
ghost use Rattle.worth.specs.Counted.{count_lawful, same_count};
ghost use Rattle.std.proofs.lemmas.Bool.{eqb-true};

use crate::policy_count::PolicyCount;
use crate::scale::Scale;

pub struct Count;

impl Scale for Count {
    type Worth = PolicyCount;

    const LOST: PolicyCount = PolicyCount::NONE;

    const WON: PolicyCount = PolicyCount::ONE;

    ghost LOST = { count.lost };

    ghost WON = { count.won };

    ghost joins = { count };

    ghost lost = { refl };

    ghost won = { refl };

    ghost lawful = { count_lawful };

    ghost tells = { λ a b e. same_count a b (eqb-true a.value b.value e) };

    fn either(first: PolicyCount, second: PolicyCount) -> PolicyCount {
        PolicyCount::new(first.value().saturating_add(second.value()))
    }

    fn both(first: PolicyCount, second: PolicyCount) -> PolicyCount {
        PolicyCount::new(first.value().saturating_mul(second.value()))
    }

    fn unbeatable(worth: PolicyCount) -> bool {
        worth.value() == PolicyCount::LIMIT
    }
}
