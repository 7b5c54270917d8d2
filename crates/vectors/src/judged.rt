// A line of the verdicts.
use anyhow::{Context, bail};

// A sheet's name and what the other solver says of it.
#[derive(Clone, Copy)]
pub(crate) struct Judged<'a> {
    pub(crate) name: &'a str,
    pub(crate) wins: bool,
}

impl<'a> Judged<'a> {
    pub(crate) fn read(line: &'a str) -> anyhow::Result<Judged<'a>> {
        let (name, verdict) = line.split_once(' ').context("no verdict")?;
        let wins = match verdict {
            "true" => true,
            "false" => false,
            _ => bail!("a verdict is true or false"),
        };
        Ok(Judged { name, wins })
    }

    // The name up to the first minus.
    pub(crate) fn family(self) -> &'a str {
        match self.name.split_once('-') {
            Some((family, _)) => family,
            None => self.name,
        }
    }
}
