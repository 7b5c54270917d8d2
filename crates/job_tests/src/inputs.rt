// What is read of chosen sources.
use program_io::read_input;
use std::io;
use std::io::{ErrorKind, Read};
use std::test::Fail;

// Gives one byte, and then breaks off.
#[derive(Drop)]
struct OneByte {
    read: bool,
}

impl Read for OneByte {
    fn read(&mut self, buf: &mut [u8]) -> io::Result<usize> {
        if self.read {
            return Err(ErrorKind::Other.into());
        }
        self.read = true;
        match buf.first_mut() {
            Some(place) => {
                *place = b'p';
                Ok(1)
            }
            None => Ok(0),
        }
    }
}

#[test]
fn sources_are_read_up_to_65537_bytes(rt: HostRuntime) -> Result<(), Fail> {
    for (length, read) in [
        (0, 0),
        (3, 3),
        (65_536, 65_536),
        (65_537, 65_537),
        (70_000, 65_537),
    ] {
        let bytes = vec![in rt.alloc(); b'c'; length]?;
        let input = read_input(&rt, "the test's input", Ok(bytes.as_slice()))?;
        assert_eq!(rt; input.len(), read);
    }
    Ok(())
}

#[test]
fn a_source_that_is_not_read_whole_is_empty(rt: HostRuntime) -> Result<(), Fail> {
    let broken = read_input(&rt, "the test's input", Ok(OneByte { read: false }))?;
    assert_eq!(rt; broken.len(), 0);
    let missing: io::Result<OneByte> = Err(ErrorKind::NotFound.into());
    let missing = read_input(&rt, "the test's input", missing)?;
    assert_eq!(rt; missing.len(), 0);
    Ok(())
}
