// The sheets of one family, or all.
use crate::tally::Tally;
use std::alloc::{AllocError, Global};

#[derive(Drop)]
pub(crate) struct Family {
    name: String,
    tally: Tally,
}

impl Family {
    // A family of which no sheet was tried.
    pub(crate) fn new(heap: Global, name: &str) -> Result<Family, AllocError> {
        Ok(Family {
            name: String::from_str(heap, name)?,
            tally: Tally::default(),
        })
    }

    pub(crate) fn name(&self) -> &str {
        self.name.as_str()
    }

    pub(crate) fn add(&mut self, tally: Tally) {
        self.tally.add(tally);
    }

    // Prints a line for the family, none where no sheet was tried.
    pub(crate) fn show(&self, rt: &impl Print) -> anyhow::Result<()> {
        if self.tally.is_empty() {
            return Ok(());
        }
        let name = self.name();
        let tally = self.tally;
        println!(rt; "{name}: {tally}")?;
        Ok(())
    }
}
