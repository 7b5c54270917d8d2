// How much input a job takes.
ghost use Rattle.std.specs.Prelude.{◌≡◌};
ghost use Rattle.jobs.specs.Inputs.{taken};

// The most bytes of an input.
pub const MOST_BYTES: usize = 65_536;

// An input that is longer counts as empty.
pub fn taken(input: &[u8]) -> &[u8]
    ensures { result.now ≡ taken input.now }
{
    if input.len() > MOST_BYTES { &[] } else { input }
}
