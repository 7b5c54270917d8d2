// The list of site F's points that a search makes.
use crate::site_f::SiteF;
use book::{ListBook, Record};
use play::search_list;
use sheet::ClauseSheet;
use worth::WorthStack;

// Searches a list for site F's clauses, and prints each record: position, the number of the
// setting before it, and the reply.
pub(crate) fn show_list(rt: &HostRuntime) -> anyhow::Result<()> {
    let heap = rt.alloc();
    let SiteF { prefix, rules } = SiteF::read(heap)?;
    let sheet = ClauseSheet::new(prefix, &rules);
    let mut memory = vec![in heap; Record::default(); prefix.point_count()]?;
    let mut cells = vec![in heap; false; prefix.len()]?;
    let mut book = ListBook::new(prefix, &mut memory);
    search_list(&mut WorthStack::new(&mut cells), &sheet, &mut book)?;
    for record in book.records() {
        show(rt, *record)?;
    }
    Ok(())
}

fn show(rt: &HostRuntime, record: Record) -> anyhow::Result<()> {
    let Record {
        position,
        setting,
        on,
        off,
    } = record;
    let reply = match (on, off) {
        (true, false) => "on",
        (false, true) => "off",
        (true, true) => "torn",
        (false, false) => "silent",
    };
    println!(rt; "site F: record {position} {setting} {reply}")?;
    Ok(())
}
