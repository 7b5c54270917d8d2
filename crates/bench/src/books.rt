// Books that a search fills for a large sheet, and that are then checked.
use crate::large::Large;
use anyhow::bail;
use book::{Book, FillableBook, ListBook, Record, TableBook, copy_into};
use play::{check, search};
use prefix::Prefix;
use sheet::{ClauseSheet, Form, Rule, TermSheet};
use std::alloc::{AllocError, Global};
use worth::WorthStack;

// How a book's guards are kept: as bits, as records in the order in which a search adds them,
// or as records position by position, copied from bits.
#[derive(Clone, Copy)]
pub(crate) enum Keeping {
    Table,
    List,
    Copied,
}

impl Keeping {
    pub(crate) fn named(name: &str) -> anyhow::Result<Keeping> {
        match name {
            "table" => Ok(Keeping::Table),
            "list" => Ok(Keeping::List),
            "copied" => Ok(Keeping::Copied),
            _ => bail!("a book is a table, a list or copied"),
        }
    }
}

// What is done with a book after it is filled.
#[derive(Clone, Copy)]
pub(crate) enum Then {
    Nothing,
    Check,
}

// Fills a book for a sheet, and prints how many points it has; checks it if that is asked for,
// and prints the verdict.
pub(crate) fn fill(
    rt: &HostRuntime,
    sheet: &Large,
    keeping: Keeping,
    then: Then,
) -> anyhow::Result<()> {
    let heap = rt.alloc();
    let prefix = sheet.prefix()?;
    let mut words = vec![in heap; 0; TableBook::word_count(prefix)]?;
    let mut memory = records(heap, prefix)?;
    let mut table = TableBook::new(prefix, &mut words);
    let mut list = ListBook::new(prefix, &mut memory);
    match keeping {
        Keeping::Table => search_sheet(heap, sheet, &mut table)?,
        Keeping::List => search_sheet(heap, sheet, &mut list)?,
        Keeping::Copied => {
            search_sheet(heap, sheet, &mut table)?;
            copy_into(&table, &mut list)?;
        }
    }
    let points = prefix.point_count();
    println!(rt; "points {points}")?;
    match (then, keeping) {
        (Then::Nothing, _) => Ok(()),
        (Then::Check, Keeping::Table) => show_verdict(rt, sheet, &table),
        (Then::Check, _) => show_verdict(rt, sheet, &list),
    }
}

// Memory for a record of each point.
fn records(heap: Global, prefix: Prefix) -> Result<Vec<Record>, AllocError> {
    vec![in heap; Record::default(); prefix.point_count()]
}

fn search_sheet<B: FillableBook>(heap: Global, sheet: &Large, book: &mut B) -> anyhow::Result<()> {
    let prefix = sheet.prefix()?;
    let rules = sheet.rules(heap)?;
    let mut cells = vec![in heap; false; prefix.len()]?;
    let mut stack = WorthStack::new(&mut cells);
    match sheet.form {
        Form::Cnf => search(&mut stack, &ClauseSheet::new(prefix, &rules), book)?,
        Form::Dnf => search(&mut stack, &TermSheet::new(prefix, &rules), book)?,
    }
    Ok(())
}

fn show_verdict<B: Book>(rt: &HostRuntime, sheet: &Large, book: &B) -> anyhow::Result<()> {
    let prefix = sheet.prefix()?;
    let rules = sheet.rules(rt.alloc())?;
    let checked = match sheet.form {
        Form::Cnf => check(&ClauseSheet::new(prefix, &rules), book)?,
        Form::Dnf => check(&TermSheet::new(prefix, &rules), book)?,
    };
    let verdict = checked.verdict;
    println!(rt; "{verdict}")?;
    Ok(())
}
