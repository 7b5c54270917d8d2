// Tries the public calls on sheets that another solver has judged. `verdicts` names them, and what
// each comes to has to agree with what stands there. Prints a line for each family, which is the
// name up to the first minus, and one for each sheet that differs.
#![tactic(auto)]

mod difference;
mod dual;
mod family;
mod judged;
mod tally;
mod trial;

use anyhow::Context;
use family::Family;
use judged::Judged;
use std::fs;
use tally::Tally;
use trial::try_sheet;

fn main(rt: HostRuntime) -> anyhow::Result<()> {
    let verdicts = fs::read_to_string(&rt, "verdicts").context("verdicts cannot be read")?;
    let mut total = Family::new(rt.alloc(), "total")?;
    let mut family = Family::new(rt.alloc(), "")?;
    for line in verdicts.lines() {
        let judged = Judged::read(line)?;
        if judged.family() != family.name() {
            family.show(&rt)?;
            family = Family::new(rt.alloc(), judged.family())?;
        }
        let tally = try_judged(&rt, judged)?;
        family.add(tally);
        total.add(tally);
    }
    family.show(&rt)?;
    total.show(&rt)
}

// Tries one sheet, and prints what differs.
fn try_judged(rt: &HostRuntime, judged: Judged<'_>) -> anyhow::Result<Tally> {
    let name = judged.name;
    let file = format!(in rt.alloc(); "{name}.qdimacs")?;
    let text = fs::read(rt, file.as_str()).context(format_args!("{name} cannot be read"))?;
    let trial = try_sheet(rt.alloc(), &text, judged.wins);
    if let Err(difference) = trial {
        println!(rt; "{name}: {difference}")?;
    }
    Ok(Tally::of(judged.wins, trial))
}
