// A refusal as the programs print it.
ghost use Rattle.std.specs.Prelude.{◌≡◌, Some};
ghost use Rattle.jobs.specs.Refusals.{job_refusal, refusal_text};

use crate::fault::JobFault;
use std::fmt;

// The number of a refusal, and its place; 0 where it has none.
#[derive(Clone, Copy, PartialEq, Eq, Debug)]
pub struct Refusal {
    pub number: u8,
    pub place: usize,
}

impl fmt::Display for Refusal {
    ghost output = { λ r. Some (refusal_text r) };

    fn fmt<W: fmt::Write>(&self, f: &mut fmt::Formatter<W>) -> fmt::Result {
        let Refusal { number, place } = *self;
        write!(f, "refused {number} {place}")
    }
}

impl JobFault {
    // The refusal that it is; want of memory is none.
    pub fn refusal(self) -> Option<Refusal>
        ensures { result ≡ job_refusal self }
    {
        let place = self.place().unwrap_or(0);
        self.number().map(|number| Refusal { number, place })
    }
}
