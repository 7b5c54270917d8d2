// Reads a sheet on standard input and prints how many winning policies it has, and what the
// one that a search finds replies.
//
// Standard output has a line of `policies` and the count and, where a policy wins, a line for
// each point; or one line of `refused`, the number of the refusal and its place. A refusal is
// explained on standard error; where that cannot be written, the answer stands all the same.
#![tactic(auto)]

use jobs::settle;
use program_io::{read_input, refuse};

fn main(rt: HostRuntime) -> anyhow::Result<()> {
    let input = read_input(&rt, "the input", Ok(rt.stdin()))?;
    match settle(rt.alloc(), &input) {
        Ok(settlement) => println!(rt; "{settlement}")?,
        Err(fault) => refuse(&rt, &input, fault)?,
    }
    Ok(())
}
