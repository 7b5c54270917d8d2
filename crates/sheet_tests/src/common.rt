// What several tests are made of.
use prefix::{Line, PartLine};
use sheet::{Literal, Rule};
use std::alloc::Global;
use std::test::Fail;

// The rules of these literals.
pub(crate) fn rules(heap: Global, all: &[&[Literal]]) -> Result<Vec<Rule>, Fail> {
    let mut rules = Vec::new(heap);
    for literals in all {
        rules.push(Rule::of(literals).ok_or("refused")?)?;
    }
    Ok(rules)
}

pub(crate) fn part(length: usize, mask: u32) -> PartLine {
    PartLine {
        length,
        line: Line::from_mask(mask),
    }
}
