// Answers with a refusal.

use jobs::{Explanation, JobFault};

// Prints a refusal. It is an answer; want of memory is a failure.
pub fn print_refusal(rt: &impl Print, fault: JobFault) -> anyhow::Result<()> {
    let refusal = fault.refusal().ok_or(fault)?;
    println!(rt; "{refusal}")?;
    Ok(())
}

// Prints the refusal of a sheet that was read from this input, and tells a person why; the answer
// stands where nobody can be told.
pub fn refuse(rt: &(impl Print + Eprint), input: &[u8], fault: JobFault) -> anyhow::Result<()> {
    print_refusal(rt, fault)?;
    let _ = match fault {
        JobFault::Sheet(fault) => {
            let explanation = Explanation::of(input, fault);
            eprintln!(rt; "{explanation}")
        }
        fault => eprintln!(rt; "{fault}"),
    };
    Ok(())
}
