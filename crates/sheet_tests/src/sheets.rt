// What rules and sheets answer at chosen lines.
use crate::common::part;
use prefix::Prefix;
use sheet::{ClauseSheet, Literal, Rule, Sheet, TermSheet};
use std::test::Fail;

#[test]
fn a_rule_has_distinct_positions_within_reach(rt: HostRuntime) -> Result<(), Fail> {
    assert_eq!(rt; Rule::of(&[Literal::on(0)]), None);
    assert_eq!(rt; Rule::of(&[Literal::off(25)]), None);
    assert_eq!(rt; Rule::of(&[Literal::on(3), Literal::on(3)]), None);
    assert_eq!(rt;
        Rule::of(&[Literal::on(3), Literal::off(4), Literal::off(3)]),
        None
    );
    let rule = Rule::of(&[Literal::on(1), Literal::off(24)]).ok_or("refused")?;
    for (position, wanted) in [
        (0, None),
        (1, Some(true)),
        (2, None),
        (24, Some(false)),
        (25, None),
    ] {
        assert_eq!(rt; rule.wanted(position), wanted);
    }
    Ok(())
}

// The clause of the positions 2 and 3. A test for each form, so that its name says which
// one fails.
#[test]
fn a_clause_breaks_where_all_its_literals_fail(rt: HostRuntime) -> Result<(), Fail> {
    let prefix = Prefix::new(3, 0).ok_or("refused")?;
    let rules = [Rule::of(&[Literal::on(2), Literal::on(3)]).ok_or("refused")?];
    let sheet = ClauseSheet::new(prefix, &rules);
    for (length, mask, broken) in [
        (0, 0b000, false),
        (2, 0b000, false),
        (2, 0b010, false),
        (3, 0b000, true),
        (3, 0b001, true),
        (3, 0b010, false),
        (3, 0b100, false),
        (9, 0b1001, true),
    ] {
        assert_eq!(rt; sheet.broken(part(length, mask)), broken);
    }
    Ok(())
}

// The term that wants position 2 on and position 3 off.
#[test]
fn a_term_breaks_where_one_of_its_literals_fails(rt: HostRuntime) -> Result<(), Fail> {
    let prefix = Prefix::new(3, 0).ok_or("refused")?;
    let rules = [Rule::of(&[Literal::on(2), Literal::off(3)]).ok_or("refused")?];
    let sheet = TermSheet::new(prefix, &rules);
    for (length, mask, broken) in [
        (0, 0b000, false),
        (1, 0b000, false),
        (2, 0b000, true),
        (2, 0b010, false),
        (2, 0b110, false),
        (3, 0b010, false),
        (3, 0b110, true),
        (9, 0b1010, false),
    ] {
        assert_eq!(rt; sheet.broken(part(length, mask)), broken);
    }
    Ok(())
}

#[test]
fn no_rule_and_an_empty_rule(rt: HostRuntime) -> Result<(), Fail> {
    let prefix = Prefix::new(2, 0).ok_or("refused")?;
    let none: [Rule; 0] = [];
    let one = [Rule::empty()];
    for length in [0, 1, 2] {
        let at = part(length, 0b01);
        assert_eq!(rt; ClauseSheet::new(prefix, &none).broken(at), false);
        assert_eq!(rt; TermSheet::new(prefix, &none).broken(at), true);
        assert_eq!(rt; ClauseSheet::new(prefix, &one).broken(at), true);
        assert_eq!(rt; TermSheet::new(prefix, &one).broken(at), false);
    }
    Ok(())
}

// A literal at position 3 of a sheet over two positions.
#[test]
fn a_literal_past_the_prefix_is_absent(rt: HostRuntime) -> Result<(), Fail> {
    let prefix = Prefix::new(2, 0).ok_or("refused")?;
    let rules = [Rule::of(&[Literal::on(2), Literal::on(3)]).ok_or("refused")?];
    let clauses = ClauseSheet::new(prefix, &rules);
    let terms = TermSheet::new(prefix, &rules);
    for (length, mask, clause, term) in [
        (1, 0b000, false, false),
        (2, 0b000, true, true),
        (2, 0b010, false, false),
        (3, 0b100, true, true),
    ] {
        assert_eq!(rt; clauses.broken(part(length, mask)), clause);
        assert_eq!(rt; terms.broken(part(length, mask)), term);
    }
    Ok(())
}

// The empty rule last of 256 rules, and last of 257.
#[test]
fn the_rule_after_256_does_not_count(rt: HostRuntime) -> Result<(), Fail> {
    let prefix = Prefix::new(1, 0).ok_or("refused")?;
    let rule = Rule::of(&[Literal::on(1)]).ok_or("refused")?;
    let mut most = [rule; 256];
    most[255] = Rule::empty();
    assert_eq!(rt; ClauseSheet::new(prefix, &most).broken(part(0, 0)), true);
    assert_eq!(rt; TermSheet::new(prefix, &most).broken(part(1, 0)), false);
    let mut more = [rule; 257];
    more[256] = Rule::empty();
    assert_eq!(rt; ClauseSheet::new(prefix, &more).broken(part(0, 0)), false);
    assert_eq!(rt; TermSheet::new(prefix, &more).broken(part(1, 0)), true);
    Ok(())
}
