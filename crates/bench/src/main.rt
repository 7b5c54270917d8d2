// Counts the winning policies of one of the fixed large sheets, by name; after the
// word `text` it writes that sheet's text instead, and without a name it lists the
// names. After `search` it fills a book, a table or a list, with the sheet's searched policy,
// and after `check` it checks that book as well. `tools/bench` times it.
#![tactic(auto)]

mod books;
mod large;

use anyhow::bail;
use books::{Keeping, Then, fill};
use large::Large;
use sheet_writer::write_sheet;
use std::env;
use std::io::Write;
use worth::count_policies_of;

fn main(rt: HostRuntime) -> anyhow::Result<()> {
    let mut words = env::args(&rt)?.skip(1);
    let Some(word) = words.next() else {
        return list(&rt);
    };
    let Some(name) = words.next() else {
        return measure(&rt, Large::named(word.as_str())?);
    };
    let sheet = Large::named(name.as_str())?;
    match (word.as_str(), words.next()) {
        ("text", None) => write_text(&rt, sheet),
        ("search", Some(book)) => fill(&rt, sheet, Keeping::named(book.as_str())?, Then::Nothing),
        ("check", Some(book)) => fill(&rt, sheet, Keeping::named(book.as_str())?, Then::Check),
        _ => bail!("the arguments are NAME, text NAME, search NAME BOOK, check NAME BOOK, or none"),
    }
}

fn list(rt: &HostRuntime) -> anyhow::Result<()> {
    for sheet in Large::ALL {
        rt.println(sheet.name)?;
    }
    Ok(())
}

fn measure(rt: &HostRuntime, sheet: &Large) -> anyhow::Result<()> {
    let rules = sheet.rules(rt.alloc())?;
    let count = count_policies_of(sheet.form, sheet.prefix()?, &rules);
    println!(rt; "{count}")?;
    Ok(())
}

fn write_text(rt: &HostRuntime, sheet: &Large) -> anyhow::Result<()> {
    let rules = sheet.rules(rt.alloc())?;
    let text = write_sheet(rt.alloc(), sheet.form, sheet.prefix()?, &rules)?;
    rt.stdout().write_all(&text)?;
    Ok(())
}
