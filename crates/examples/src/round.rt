// A round on site F, played from the book that a search finds.
use crate::site_f::SiteF;
use anyhow::bail;
use book::TableBook;
use play::{Answer, Call, play_calls, search};
use sheet::ClauseSheet;
use worth::WorthStack;

// Through the whole line, one call more, and back to the first two values.
const CALLS: [Call; 7] = [
    Call::Tell(true),
    Call::Reply,
    Call::Tell(false),
    Call::Reply,
    Call::Tell(true),
    Call::Back(2),
    Call::Reply,
];

// Searches a book for site F's clauses, makes the calls, and prints each with its answer.
pub(crate) fn play_round(rt: &HostRuntime) -> anyhow::Result<()> {
    let heap = rt.alloc();
    let SiteF { prefix, rules } = SiteF::read(heap)?;
    let sheet = ClauseSheet::new(prefix, &rules);
    let mut words = vec![in heap; 0; TableBook::word_count(prefix)]?;
    let mut cells = vec![in heap; false; prefix.len()]?;
    let mut book = TableBook::new(prefix, &mut words);
    search(&mut WorthStack::new(&mut cells), &sheet, &mut book)?;
    let mut answers = [Answer::Told; CALLS.len()];
    play_calls(&sheet, &book, &CALLS, &mut answers)?;
    for (call, answer) in CALLS.iter().zip(&answers) {
        show(rt, *call, *answer)?;
    }
    Ok(())
}

// A call by its word, and what came of it.
fn show(rt: &HostRuntime, call: Call, answer: Answer) -> anyhow::Result<()> {
    let word = match call {
        Call::Tell(_) => "tell",
        Call::Reply => "reply",
        Call::Back(_) => "back",
    };
    match (call, answer) {
        (_, Answer::Refused(fault)) => {
            let number = fault.number();
            println!(rt; "site F: {word} refused {number}")?;
        }
        (Call::Tell(on), Answer::Told) | (Call::Reply, Answer::Replied(on)) => {
            let value = if on { "on" } else { "off" };
            println!(rt; "site F: {word} {value}")?;
        }
        (Call::Back(length), Answer::WentBack) => println!(rt; "site F: {word} {length}")?,
        _ => bail!("an answer to another call"),
    }
    Ok(())
}
