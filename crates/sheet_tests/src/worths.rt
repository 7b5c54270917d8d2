// What counting and winning come to at small sites, and what they leave in the stack.
use crate::common::{part, rules};
use prefix::Prefix;
use sheet::{ClauseSheet, Literal, Rule};
use std::alloc::Global;
use std::test::Fail;
use worth::{
    Count, PolicyCount, WorthFault, WorthStack, can_win, count_policies, has_winning_policy,
};

// Site F: report, reply, report, reply; it has one winning policy, which
// replies on at position 2 whatever is reported.
fn site_f(heap: Global) -> Result<Vec<Rule>, Fail> {
    rules(
        heap,
        &[
            &[Literal::on(2), Literal::on(3)],
            &[Literal::off(2), Literal::off(3), Literal::on(4)],
            &[
                Literal::off(2),
                Literal::on(3),
                Literal::off(1),
                Literal::off(4),
            ],
            &[
                Literal::off(2),
                Literal::on(3),
                Literal::on(1),
                Literal::on(4),
            ],
        ],
    )
}

#[test]
fn part_lines_of_site_f(rt: HostRuntime) -> Result<(), Fail> {
    let prefix = Prefix::new(4, 0b0101).ok_or("refused")?;
    let rules = site_f(rt.alloc())?;
    let sheet = ClauseSheet::new(prefix, &rules);
    let mut cells = [true; 4];
    let mut stack = WorthStack::new(&mut cells);
    for (length, mask, answer) in [
        (0, 0b1111, true),
        (1, 0b0000, true),
        (1, 0b0001, true),
        (2, 0b0000, false),
        (2, 0b0001, false),
        (2, 0b0010, true),
        (2, 0b0011, true),
        (4, 0b0011, true),
        (4, 0b1011, false),
        (9, 0b1_0011, true),
    ] {
        let from = part(length, mask);
        assert_eq!(rt; can_win(&mut stack, &sheet, from)?, answer);
    }
    Ok(())
}

// The same rules: the two replies can follow the report, and not foresee it.
#[test]
fn replies_before_the_report(rt: HostRuntime) -> Result<(), Fail> {
    let heap = rt.alloc();
    let prefix_after = Prefix::new(3, 0b001).ok_or("refused")?;
    let rules_after = rules(
        heap,
        &[
            &[Literal::off(3), Literal::on(1)],
            &[Literal::off(2), Literal::on(1)],
            &[Literal::on(3), Literal::on(2), Literal::off(1)],
        ],
    )?;
    let after = ClauseSheet::new(prefix_after, &rules_after);
    let mut cells = [true; 3];
    let mut stack = WorthStack::new(&mut cells);
    assert_eq!(rt; has_winning_policy(&mut stack, &after)?, true);
    let prefix_before = Prefix::new(3, 0b100).ok_or("refused")?;
    let turned = rules(
        heap,
        &[
            &[Literal::off(2), Literal::on(3)],
            &[Literal::off(1), Literal::on(3)],
            &[Literal::on(2), Literal::on(1), Literal::off(3)],
        ],
    )?;
    let before = ClauseSheet::new(prefix_before, &turned);
    assert_eq!(rt; has_winning_policy(&mut stack, &before)?, false);
    assert!(rt; !count_policies(&after).is_none());
    assert!(rt; count_policies(&before).is_none());
    Ok(())
}

#[test]
fn the_stack_afterwards(rt: HostRuntime) -> Result<(), Fail> {
    let prefix = Prefix::new(4, 0b0101).ok_or("refused")?;
    let rules = site_f(rt.alloc())?;
    let sheet = ClauseSheet::new(prefix, &rules);
    let mut few = [PolicyCount::ONE; 3];
    let refused = WorthStack::new(&mut few).worth::<Count, ClauseSheet>(&sheet);
    assert_eq!(rt; refused, Err(WorthFault::StackTooShort));
    assert_eq!(rt; WorthFault::StackTooShort.number(), 14);
    assert_eq!(rt; few, [PolicyCount::ONE; 3]);
    let mut more = [PolicyCount::ONE; 6];
    let counted = WorthStack::new(&mut more).worth::<Count, ClauseSheet>(&sheet);
    assert_eq!(rt; counted, Ok(PolicyCount::ONE));
    assert_eq!(rt; more, [PolicyCount::NONE; 6]);
    Ok(())
}
