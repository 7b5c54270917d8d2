// Runs worked examples and prints what the calls answer: those that are proved, and then others:
// how many policies some small sheets have, the memory of a table book, a round on site F, and the
// points of its policy in the order of a search.
#![tactic(auto)]

mod answers;
mod example;
mod list;
mod room;
mod round;
mod sample;
mod site_f;
mod worked;

use answers::show_worked;
use jobs::settle;
use list::show_list;
use room::show_room;
use round::play_round;
use sample::SAMPLES;

fn main(rt: HostRuntime) -> anyhow::Result<()> {
    show_worked(&rt)?;
    for sample in &SAMPLES {
        let count = settle(rt.alloc(), sample.sheet)?.policies;
        let name = sample.name;
        println!(rt; "{name}: policies {count}")?;
    }
    show_room(&rt)?;
    play_round(&rt)?;
    show_list(&rt)
}
