// Reads an input as far as it counts.

use jobs::input::MOST_BYTES;
use std::io;
use std::io::{ErrorKind, Read};

// A source up to one byte more than counts, and nothing of one that cannot be opened or that
// breaks off. A person is told, by the source's name, where nothing of it counts. Want of
// memory says nothing of the source, and is a failure.
pub fn read_input<R: Read + Drop>(
    rt: &(impl Eprint + AllocGlobal),
    name: &str,
    source: io::Result<R>,
) -> io::Result<Vec<u8>> {
    let mut input = Vec::new(rt.alloc());
    if let Err(error) = read_into(source, &mut input) {
        if error.kind() == ErrorKind::OutOfMemory {
            return Err(error);
        }
        input.clear();
        let _ = eprintln!(rt; "{name} cannot be read whole and counts as empty: {error}");
    } else if input.len() > MOST_BYTES {
        let _ = eprintln!(rt; "{name} is longer than {MOST_BYTES} bytes and counts as empty");
    }
    Ok(input)
}

fn read_into<R: Read + Drop>(source: io::Result<R>, input: &mut Vec<u8>) -> io::Result<()> {
    let limit = MOST_BYTES as u64 + 1;
    source?.take(limit).read_to_end(input)?;
    Ok(())
}
