// Rules: sets of literals that name no position twice, as two masks.
ghost use Rattle.std.specs.Prelude.{◌≡◌, [], take, MatchOption};
ghost use Rattle.sheet.specs.Rules.{wanted_at};
ghost use Rattle.sheet.specs.Literals.{Nameable, Joined, Distinct, Made};

mod failing;

use crate::literal::Literal;
use prefix::{Line, Prefix};

// Bit k - 1 of `named` is on where the rule has a literal at position k, and
// then bit k - 1 of `wanted` is the value that it wants. Masks and no list of options,
// since a walk tests each rule at each part line. The default names no position.
#[derive(Clone, Copy, Default, PartialEq, Eq, Debug)]
pub struct Rule {
    named: u32,
    wanted: u32,
}

impl Rule {
    // The rule without literals.
    pub fn empty() -> Rule
        ensures { Made [] result }
    {
        Rule {
            named: 0,
            wanted: 0,
        }
    }

    // The value that the rule wants at a position, if it names it.
    pub fn wanted(self, position: usize) -> Option<bool>
        ensures { result ≡ wanted_at self position }
    {
        if !Line::from_mask(self.named).value(position) {
            return None;
        }
        Some(Line::from_mask(self.wanted).value(position))
    }

    // The rule with one literal more; `None` where its position is not 1 to 24
    // or is named already.
    pub fn with(self, literal: Literal) -> Option<Rule>
        ensures { MatchOption result (Nameable self literal → ⊥) (Joined self literal) }
    {
        let position = literal.position;
        if position == 0 || position > Prefix::MOST_POSITIONS {
            return None;
        }
        let named = Line::from_mask(self.named);
        if named.value(position) {
            return None;
        }
        let wanted = Line::from_mask(self.wanted).with(position, literal.wanted);
        Some(Rule {
            named: named.with(position, true).mask(),
            wanted: wanted.mask(),
        })
    }

    // The rule of these literals; `None` where one stands at a position that is
    // not 1 to 24, or two at the same.
    pub fn of(literals: &[Literal]) -> Option<Rule>
        ensures { MatchOption result (Distinct literals.now → ⊥) (Made literals.now) }
    {
        let mut rule = Rule::empty();
        for literal in literals {
            rule = rule.with(*literal)?;
        }
        Some(rule)
    }
}

// How many rules of a table count.
pub const MOST_RULES: usize = 256;

// The rules of a table that count: the first 256.
#[tactic(auto, using(std::proofs::lemmas::List::take_min))]
pub fn counted(rules: &[Rule]) -> &[Rule]
    ensures { result.now ≡ take 256 rules.now }
{
    &rules[..MOST_RULES.min(rules.len())]
}
