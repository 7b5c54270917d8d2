// What the calls answer on the worked examples, beside what is proved of them.
use crate::example::Example;
use crate::worked::worked_examples;
use book::Row;
use book_file::number::write_number;
use book_file::read_rows;
use jobs::{Choice, JobFault, pass, settle, write_book};
use play::Verdict;

// Makes the call of each example, and prints its answer.
pub(crate) fn show_worked(rt: &HostRuntime) -> anyhow::Result<()> {
    for example in worked_examples() {
        show(rt, example)?;
    }
    Ok(())
}

fn show(rt: &HostRuntime, example: Example) -> anyhow::Result<()> {
    match example {
        Example::Settled {
            sheet,
            policies,
            choices,
        } => show_settled(rt, sheet, policies, choices),
        Example::Counted { sheet, policies } => show_counted(rt, sheet, policies),
        Example::NoneFound { sheet, number } => show_refused(rt, sheet, number),
        Example::Judged {
            sheet,
            book,
            verdict,
        } => show_judged(rt, sheet, book, verdict),
        Example::Coded { number, bytes } => show_coded(rt, number, bytes),
        Example::Unread {
            file,
            number,
            place,
        } => show_unread(rt, file, number, place),
    }
}

// The call, and whether it answers what is proved.
fn show_call(rt: &HostRuntime, call: &str, same: bool) -> anyhow::Result<()> {
    let comparison = if same {
        "as proved"
    } else {
        "not what is proved"
    };
    println!(rt; "{call}, {comparison}:")?;
    Ok(())
}

fn show_settled(
    rt: &HostRuntime,
    sheet: &[u8],
    policies: u32,
    choices: &[Choice],
) -> anyhow::Result<()> {
    let settlement = settle(rt.alloc(), sheet)?;
    let same = settlement.policies.value() == policies && settlement.choices.as_slice() == choices;
    show_call(rt, "settle", same)?;
    println!(rt; "{settlement}")?;
    Ok(())
}

fn show_counted(rt: &HostRuntime, sheet: &[u8], policies: u32) -> anyhow::Result<()> {
    let settlement = settle(rt.alloc(), sheet)?;
    let count = settlement.policies;
    show_call(rt, "settle", count.value() == policies)?;
    println!(rt; "policies {count}")?;
    Ok(())
}

fn show_refused(rt: &HostRuntime, sheet: &[u8], number: u8) -> anyhow::Result<()> {
    let Err(fault) = write_book(rt.alloc(), sheet) else {
        return show_call(rt, "write_book", false);
    };
    show_call(rt, "write_book", fault.number() == Some(number))?;
    show_fault(rt, fault)
}

fn show_fault(rt: &HostRuntime, fault: JobFault) -> anyhow::Result<()> {
    match fault.refusal() {
        Some(refusal) => println!(rt; "{refusal}")?,
        None => println!(rt; "{fault}")?,
    }
    Ok(())
}

fn show_judged(
    rt: &HostRuntime,
    sheet: &[u8],
    book: &[u8],
    verdict: Verdict,
) -> anyhow::Result<()> {
    let judgement = pass(rt.alloc(), sheet, book)?;
    let found = judgement.checked.verdict;
    show_call(rt, "pass", found == verdict)?;
    println!(rt; "{found}")?;
    Ok(())
}

fn show_coded(rt: &HostRuntime, number: u32, bytes: &[u8]) -> anyhow::Result<()> {
    let mut buffer = [0; 4];
    let size = write_number(number, &mut buffer).unwrap_or(0);
    let written = &buffer[..size.min(4)];
    show_call(rt, "write_number", written == bytes)?;
    for byte in written {
        println!(rt; "{byte}")?;
    }
    Ok(())
}

fn show_unread(rt: &HostRuntime, file: &[u8], number: u8, place: usize) -> anyhow::Result<()> {
    let mut table: [Row; 0] = [];
    let Err(fault) = read_rows(file, &mut table) else {
        return show_call(rt, "read_rows", false);
    };
    let same = fault.number() == number && fault.place() == place;
    show_call(rt, "read_rows", same)?;
    let (number, place) = (fault.number(), fault.place());
    println!(rt; "refused {number} {place}")?;
    Ok(())
}
