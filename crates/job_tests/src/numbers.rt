// Numbers as bytes, and bytes that are no number.
use book_file::number::{FirstNumber, read_number, write_number};
use std::test::Fail;

// Seven bits a byte, the lowest first, with 128 added to each but the last.
const NUMBERS: &[(u32, &[u8])] = &[
    (0, &[0]),
    (1, &[1]),
    (127, &[127]),
    (128, &[128, 1]),
    (300, &[172, 2]),
    (16_383, &[255, 127]),
    (16_384, &[128, 128, 1]),
    (2_097_151, &[255, 255, 127]),
    (2_097_152, &[128, 128, 128, 1]),
    (268_435_455, &[255, 255, 255, 127]),
];

#[test]
fn numbers_are_read(rt: HostRuntime) -> Result<(), Fail> {
    for &(value, bytes) in NUMBERS {
        let size = bytes.len();
        assert_eq!(rt; read_number(bytes), Some(FirstNumber { value, size }));
        let mut more = bytes.to_vec(rt.alloc())?;
        more.extend_from_slice(&[0, 255])?;
        assert_eq!(rt; read_number(&more), Some(FirstNumber { value, size }));
    }
    Ok(())
}

#[test]
fn numbers_are_written(rt: HostRuntime) -> Result<(), Fail> {
    for &(value, bytes) in NUMBERS {
        let size = bytes.len();
        let mut buffer = [99; 6];
        let mut wanted = bytes.to_vec(rt.alloc())?;
        wanted.resize(6, 99)?;
        assert_eq!(rt; write_number(value, &mut buffer), Some(size));
        assert_eq!(rt; buffer.as_slice(), wanted.as_slice());
    }
    Ok(())
}

#[test]
fn buffers_one_short_are_as_they_were(rt: HostRuntime) -> Result<(), Fail> {
    for &(value, bytes) in NUMBERS {
        let mut exact = vec![in rt.alloc(); 99; bytes.len()]?;
        assert_eq!(rt; write_number(value, &mut exact), Some(bytes.len()));
        assert_eq!(rt; exact.as_slice(), bytes);
        let mut short = vec![in rt.alloc(); 99; bytes.len().saturating_sub(1)]?;
        assert_eq!(rt; write_number(value, &mut short), None);
        assert!(rt; short.iter().all(|byte| *byte == 99));
    }
    Ok(())
}

#[test]
fn numbers_of_five_groups_are_not_written(rt: HostRuntime) {
    for value in [268_435_456, u32::MAX] {
        let mut buffer = [99; 6];
        assert_eq!(rt; write_number(value, &mut buffer), None);
        assert_eq!(rt; buffer, [99; 6]);
    }
}

// Cut off; four groups of which the last goes on; not the shortest form of 127, 0 and others.
const NO_NUMBERS: &[&[u8]] = &[
    &[],
    &[128],
    &[255],
    &[128, 128],
    &[255, 255],
    &[128, 128, 128],
    &[255, 255, 255],
    &[128, 128, 128, 128],
    &[255, 255, 255, 255],
    &[128, 128, 128, 128, 1],
    &[255, 255, 255, 128, 0],
    &[255, 0],
    &[128, 0],
    &[255, 128, 0],
    &[128, 128, 0],
    &[128, 128, 128, 0],
];

#[test]
fn other_bytes_are_no_numbers(rt: HostRuntime) {
    for bytes in NO_NUMBERS {
        assert_eq!(rt; read_number(bytes), None);
    }
}
