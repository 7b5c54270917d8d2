// Prints what each of some texts is read as: a sheet or a refusal.
#![tactic(auto)]

mod cases;

use cases::{Case, EQUAL_RULES, EqualRules, NO_TABLE, WHOLE_TABLE};
use sheet::Rule;
use sheet::rule::MOST_RULES;
use sheet_text::read_sheet;

fn main(rt: HostRuntime) -> anyhow::Result<()> {
    show_all(&rt, WHOLE_TABLE, MOST_RULES)?;
    show_all(&rt, NO_TABLE, 0)?;
    show_equal_rules(&rt, EQUAL_RULES)
}

fn show_all(rt: &HostRuntime, cases: &[Case], room: usize) -> anyhow::Result<()> {
    for &case in cases {
        show(rt, case, room)?;
    }
    Ok(())
}

// Beside `show_all`, since here the texts have to be made.
fn show_equal_rules(rt: &HostRuntime, cases: &[EqualRules]) -> anyhow::Result<()> {
    for equal in cases {
        let text = equal.text(rt.alloc())?;
        let case = Case {
            name: equal.name,
            text: &text,
        };
        show(rt, case, equal.room)?;
    }
    Ok(())
}

// Reads a text into a table for `room` rules, at most 256.
fn show(rt: &HostRuntime, case: Case, room: usize) -> anyhow::Result<()> {
    let Case { name, text } = case;
    let mut table = [Rule::empty(); MOST_RULES];
    match read_sheet(text, &mut table[..room.min(MOST_RULES)]) {
        Ok(reading) => {
            let form = reading.form;
            let positions = reading.prefix.len();
            let rules = reading.rules;
            println!(rt; "{name}: read {form}, {positions} positions, {rules} rules")?;
        }
        Err(fault) => {
            let number = fault.number();
            let place = fault.place();
            let layer = fault.layer();
            println!(rt; "{name}: refused {number} at {place} ({layer})")?;
        }
    }
    Ok(())
}
