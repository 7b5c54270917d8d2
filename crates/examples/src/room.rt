// How many words a table book needs for the largest prefix.
use anyhow::Context;
use book::{FillableBook, TableBook};
use prefix::Prefix;

// Twelve reports, then twelve replies: tables of the words that it needs, and of one less.
pub(crate) fn show_room(rt: &HostRuntime) -> anyhow::Result<()> {
    let prefix = Prefix::new(24, 0xfff).context("a sample's prefix is outside the limits")?;
    for words in [1536, 1535] {
        let mut memory = vec![in rt.alloc(); 0; words]?;
        let room = if TableBook::new(prefix, &mut memory).room() {
            "room"
        } else {
            "no room"
        };
        println!(rt; "12 reports, then 12 replies: {words} words give {room}")?;
    }
    Ok(())
}
