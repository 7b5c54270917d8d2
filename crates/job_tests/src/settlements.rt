// What sheets are settled as.
use crate::common::{SITE_F, one_reply};
use faults::{SheetFault, TextFault};
use jobs::{Choice, JobFault, Settlement, settle};
use std::test::Fail;

// A text of a sheet, and what is printed of it.
#[derive(Clone, Copy)]
struct SettledText {
    text: &'static [u8],
    printed: &'static str,
}

// What tools/check_settle.py prints of each.
const SETTLED_TEXTS: &[SettledText] = &[
    // site F
    SettledText {
        text: b"c site F\n\np cnf 4 4\n\na 1 0\ne 2 0\na 3 0\ne 4 0\n\n2 3 0\n-2 -3 4 0\n-2 3 -1 -4 0\n\n-2 3 1 4 0\n\n",
        printed: "policies 1\n2 0 on\n2 1 on\n4 0 on\n4 1 on\n4 2 off\n4 3 on",
    },
    // two replies after a report, and before it
    SettledText {
        text: b"p cnf 3 3\na 1 0\ne 2 3 0\n-3 1 0\n-2 1 0\n3 2 -1 0\n",
        printed: "policies 3\n2 0 off\n2 1 on\n3 0 off\n3 1 on",
    },
    SettledText {
        text: b"p cnf 3 3\ne 2 3 0\na 1 0\n-3 1 0\n-2 1 0\n3 2 -1 0\n",
        printed: "policies 0",
    },
    // no rules, and one without literals
    SettledText {
        text: b"p cnf 1 0\ne 1 0",
        printed: "policies 2\n1 0 on",
    },
    SettledText {
        text: b"p dnf 1 0\ne 1 0",
        printed: "policies 0",
    },
    SettledText {
        text: b"p cnf 1 1\ne 1 0\n0",
        printed: "policies 0",
    },
    SettledText {
        text: b"p dnf 1 1\ne 1 0\n0",
        printed: "policies 2\n1 0 on",
    },
    // reports only
    SettledText {
        text: b"p cnf 2 0\na 1 2 0\n",
        printed: "policies 1",
    },
    SettledText {
        text: b"p cnf 2 1\na 1 2 0\n1 2 0\n",
        printed: "policies 0",
    },
    // replies only
    SettledText {
        text: b"p cnf 3 3\ne 1 2 3 0\n-1 2 0\n-1 -2 0\n-2 -3 0\n",
        printed: "policies 3\n1 0 off\n2 0 on\n3 0 off",
    },
    // reports at both ends
    SettledText {
        text: b"p cnf 4 3\na 1 0\ne 2 3 0\na 4 0\n-2 1 0\n2 3 4 0\n-3 -2 -4 0\n",
        printed: "policies 2\n2 0 off\n2 1 on\n3 0 on\n3 1 off",
    },
    // variables in another order than their positions
    SettledText {
        text: b"p cnf 3 3\na 3 0\ne 1 2 0\n-1 3 0\n1 -3 0\n-2 -1 0\n",
        printed: "policies 2\n2 0 off\n2 1 on\n3 0 on\n3 1 off",
    },
    SettledText {
        text: b"p dnf 5 3\na 5 0\ne 3 0\na 1 4 0\ne 2 0\n5 -3 2 0\n-5 3 4 -2 0\n-5 3 -4 2 0\n",
        printed: "policies 1\n2 0 on\n2 1 off\n5 0 on\n5 1 off\n5 2 on\n5 3 off\n5 4 on\n5 5 on\n5 6 on\n5 7 on",
    },
];

#[test]
fn sheets_are_settled(rt: HostRuntime) -> Result<(), Fail> {
    let heap = rt.alloc();
    for &SettledText { text, printed } in SETTLED_TEXTS {
        let settlement = settle(heap, text)?;
        assert_eq!(rt; settlement.to_string(heap)?.as_str(), printed);
    }
    Ok(())
}

#[test]
fn inputs_are_taken_up_to_65536_bytes(rt: HostRuntime) -> Result<(), Fail> {
    let heap = rt.alloc();
    let longest = one_reply(heap, 65_536)?;
    assert_eq!(rt; longest.len(), 65_536);
    assert_eq!(rt; settle(heap, &longest)?.policies.value(), 2);
    let longer = one_reply(heap, 65_537)?;
    assert_eq!(rt; longer.len(), 65_537);
    let fault = settle(heap, &longer).err().ok_or("taken")?;
    assert_eq!(rt; fault, JobFault::Sheet(SheetFault::Word { place: 0 }));
    Ok(())
}

#[test]
fn the_readers_fault_comes_through(rt: HostRuntime) -> Result<(), Fail> {
    let fault = settle(rt.alloc(), b"c\tx\n").err().ok_or("taken")?;
    assert_eq!(rt;
        fault,
        JobFault::Sheet(SheetFault::Text(TextFault::Byte { place: 1 }))
    );
    assert_eq!(rt; fault.number(), Some(1));
    assert_eq!(rt; fault.place(), Some(1));
    assert_eq!(rt; JobFault::Memory.number(), None);
    Ok(())
}

// The choices at position 2 and then at position 4, each on but the one at position 4 where the
// first report is on and the second off.
#[test]
fn the_choices_of_a_policy_are_listed_in_order(rt: HostRuntime) -> Result<(), Fail> {
    let choices = settle(rt.alloc(), SITE_F)?.choices;
    let wanted = [
        (2, 0, true),
        (2, 1, true),
        (4, 0, true),
        (4, 1, true),
        (4, 2, false),
        (4, 3, true),
    ];
    assert_eq!(rt; choices.len(), wanted.len());
    for (choice, (position, setting, value)) in choices.iter().zip(wanted) {
        let wanted_here = Choice {
            position,
            setting,
            value,
        };
        assert_eq!(rt; *choice, wanted_here);
    }
    Ok(())
}

#[test]
fn a_prefix_of_reports_has_no_choices(rt: HostRuntime) -> Result<(), Fail> {
    let settlement = settle(rt.alloc(), b"p cnf 3 0\na 1 2 3 0\n")?;
    assert_eq!(rt; settlement.policies.value(), 1);
    assert_eq!(rt; settlement.choices.len(), 0);
    Ok(())
}

#[test]
fn a_settlement_has_a_line_for_each_choice(rt: HostRuntime) -> Result<(), Fail> {
    let heap = rt.alloc();
    let policies = settle(heap, b"p cnf 1 0\ne 1 0\n")?.policies;
    let choices = vec![in heap;
        Choice {
            position: 2,
            setting: 0,
            value: true
        },
        Choice {
            position: 12,
            setting: 31,
            value: false
        },
    ]?;
    let settlement = Settlement { policies, choices };
    assert_eq!(rt;
        settlement.to_string(heap)?.as_str(),
        "policies 2\n2 0 on\n12 31 off"
    );
    let bare = Settlement {
        policies,
        choices: Vec::new(heap),
    };
    assert_eq!(rt; bare.to_string(heap)?.as_str(), "policies 2");
    Ok(())
}
