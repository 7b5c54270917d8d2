// Reads a sheet on standard input, writes the book of the policy that a search finds to book.bin,
// in the working directory, and prints how many rows and how many bytes it has.
//
// Standard output has one line, of `written` and the two numbers, or of `refused`, the number of
// the refusal and its place; then no file is written. A refusal is explained on standard error;
// where that cannot be written, the answer stands all the same.
#![tactic(auto)]

use anyhow::Context;
use jobs::input::MOST_BYTES;
use jobs::{BookFile, write_book};
use program_io::{read_input, refuse};
use std::fs;

const BOOK: &str = "book.bin";

fn main(rt: HostRuntime) -> anyhow::Result<()> {
    let input = read_input(&rt, "the input", Ok(rt.stdin()))?;
    match write_book(rt.alloc(), &input) {
        Ok(file) => answer(&rt, &file),
        Err(fault) => refuse(&rt, &input, fault),
    }
}

// Writes the file, and tells a person where `pass` would not take it.
fn answer(rt: &HostRuntime, file: &BookFile) -> anyhow::Result<()> {
    let written = fs::write(rt, BOOK, &file.bytes);
    written.context("book.bin cannot be written")?;
    println!(rt; "{file}")?;
    if file.bytes.len() > MOST_BYTES {
        let _ = eprintln!(rt;
            "{BOOK} is longer than {MOST_BYTES} bytes, and counts as empty for pass"
        );
    }
    Ok(())
}
