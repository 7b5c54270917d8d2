// What several tests are made of: rules, rows, records, and site F.
use book::{FillableBook, ListBook, Record, Row, Side};
use prefix::Line;
use sheet::{Literal, Rule};
use std::alloc::Global;
use std::test::Fail;

// The rules of these literals, a position with a minus where off is wanted.
pub(crate) fn rules(heap: Global, all: &[&[i32]]) -> Result<Vec<Rule>, Fail> {
    let mut rules = Vec::new(heap);
    for literals in all {
        rules.push(rule(literals)?)?;
    }
    Ok(rules)
}

fn rule(literals: &[i32]) -> Result<Rule, Fail> {
    let mut rule = Rule::empty();
    for literal in literals {
        let position = literal.unsigned_abs() as usize;
        let wanted = *literal > 0;
        rule = rule.with(Literal { position, wanted }).ok_or("refused")?;
    }
    Ok(rule)
}

// A row's position, side, reports looked at and values wanted there.
pub(crate) type RowParts = (usize, Side, u32, u32);

pub(crate) fn rows(heap: Global, all: &[RowParts]) -> Result<Vec<Row>, Fail> {
    let mut rows = Vec::new(heap);
    for (position, side, looked_at, wanted_on) in all {
        rows.push(row(*position, *side, *looked_at, *wanted_on))?;
    }
    Ok(rows)
}

pub(crate) fn row(position: usize, side: Side, looked_at: u32, wanted_on: u32) -> Row {
    Row {
        position,
        side,
        looked_at,
        wanted_on,
    }
}

pub(crate) fn record(position: usize, setting: usize, on: bool, off: bool) -> Record {
    Record {
        position,
        setting,
        on,
        off,
    }
}

// What stands in memory that no record was put into; it reads as a record all the same.
pub(crate) const REST: Record = Record {
    position: 4,
    setting: 1,
    on: true,
    off: true,
};

// A guard to add: side, position, and the mask of a line.
pub(crate) type Add = (Side, usize, u32);

pub(crate) fn add_all(book: &mut ListBook<'_>, adds: &[Add]) {
    for (side, position, mask) in adds {
        book.add(*side, *position, Line::from_mask(*mask));
    }
}

// Over report, reply, report, reply; one policy wins.
pub(crate) const SITE_F: &[&[i32]] = &[&[2, 3], &[-2, -3, 4], &[-2, 3, -1, -4], &[-2, 3, 1, 4]];

// The rules of site F, and one more that this policy breaks: it is on at position 2.
pub(crate) fn lost_site_f(heap: Global) -> Result<Vec<Rule>, Fail> {
    let mut lost = rules(heap, SITE_F)?;
    lost.push(rule(&[-2])?)?;
    Ok(lost)
}

// The book of that policy.
pub(crate) const SITE_F_ROWS: &[RowParts] = &[
    (2, Side::On, 0b0000, 0b0000),
    (4, Side::On, 0b0100, 0b0100),
    (4, Side::On, 0b0101, 0b0000),
    (4, Side::Off, 0b0101, 0b0001),
];
