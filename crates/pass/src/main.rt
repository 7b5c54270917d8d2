// Reads a site's sheet from sheet.txt and its book from book.bin, in the working directory, and
// prints whether the book may pass: whether it means a policy that wins on the sheet.
//
// Standard output has one line: the verdict, or `refused` with the number of the refusal and its
// place. What a person is told of either is on standard error; where that cannot be written, the
// answer stands all the same.
#![tactic(auto)]

use jobs::{Explanation, JobFault, Judgement, pass};
use program_io::{print_refusal, read_input};
use std::fs::File;

const SHEET: &str = "sheet.txt";

const BOOK: &str = "book.bin";

fn main(rt: HostRuntime) -> anyhow::Result<()> {
    let sheet = read_input(&rt, SHEET, File::open(&rt, SHEET))?;
    let book = read_input(&rt, BOOK, File::open(&rt, BOOK))?;
    match pass(rt.alloc(), &sheet, &book) {
        Ok(judgement) => answer(&rt, judgement),
        Err(fault) => refuse(&rt, &sheet, fault),
    }
}

fn answer(rt: &HostRuntime, judgement: Judgement) -> anyhow::Result<()> {
    println!(rt; "{judgement}")?;
    let words = judgement.words();
    let _ = eprintln!(rt; "{words}");
    Ok(())
}

fn refuse(rt: &HostRuntime, sheet: &[u8], fault: JobFault) -> anyhow::Result<()> {
    print_refusal(rt, fault)?;
    let _ = match fault {
        JobFault::Sheet(fault) => {
            let explanation = Explanation::of(sheet, fault);
            eprintln!(rt; "{SHEET}: {explanation}")
        }
        JobFault::Book(fault) => eprintln!(rt; "{BOOK}: {fault}"),
        fault => eprintln!(rt; "{fault}"),
    };
    Ok(())
}
