// Numbers as bytes: groups of seven bits, the lowest first, with 128 added to each but the last;
// one to four of them, and no more than the number needs.
//
//     300 is 172, 2, since 300 = 44 + 2 * 128
ghost use Rattle.std.specs.Prelude.{◌≡◌, ◌<◌, ◌^◌, MatchOption};
ghost use Rattle.book_file.specs.Numbers.{number_bytes, OneForm, BeginsWith, NoNumber, NumberWritten};

use arrayvec::ArrayVec;

// The most groups of a number.
pub const MOST_GROUPS: usize = 4;

// A number at the front of some bytes, and how many of them it takes.
#[derive(Clone, Copy, PartialEq, Eq, Debug)]
pub struct FirstNumber {
    pub value: u32,
    pub size: usize,
}

// The number that bytes begin with; `None` where they begin with none.
pub fn read_number(bytes: &[u8]) -> Option<FirstNumber>
    ensures read { MatchOption result (NoNumber bytes.now) (λ n. BeginsWith n.value n.size bytes.now) }
    ensures form { OneForm }
{
    first_number(bytes)
}

// The same without the law of all numbers, so that each way out has one clause to show.
fn first_number(bytes: &[u8]) -> Option<FirstNumber>
    ensures { MatchOption result (NoNumber bytes.now) (λ n. BeginsWith n.value n.size bytes.now) }
{
    let mut value = 0;
    for index in 0..bytes.len().min(MOST_GROUPS) {
        let byte = bytes[index];
        value += u32::from(byte % 128) << (7 * index);
        if byte < 128 {
            // a last group of 0 after others is not the shortest form
            if byte == 0 && index > 0 {
                return None;
            }
            let size = index + 1;
            return Some(FirstNumber { value, size });
        }
    }
    None
}

// Writes a number at the front of a buffer, and says how many bytes it takes; `None` where the
// number needs more than four groups, or the buffer is too short. The buffer is then as it was.
pub fn write_number(value: u32, buffer: &mut [u8]) -> Option<usize>
    ensures written { NumberWritten value result buffer.old buffer.new }
    ensures form { OneForm }
{
    write_small(value, buffer)
}

// The same without that law.
fn write_small(value: u32, buffer: &mut [u8]) -> Option<usize>
    ensures { NumberWritten value result buffer.old buffer.new }
{
    if value >= 1 << (7 * MOST_GROUPS) {
        return None;
    }
    let groups = groups_of(value);
    let size = groups.len();
    if size > buffer.len() {
        return None;
    }
    buffer[..size].copy_from_slice(groups.as_slice());
    Some(size)
}

// The groups of a number that has at most four.
pub(crate) fn groups_of(value: u32) -> ArrayVec<u8, MOST_GROUPS>
    requires { value < 2 ^ 28 }
    ensures { result.items ≡ number_bytes value }
{
    let mut groups = ArrayVec::new();
    let mut rest = value;
    while rest >= 128 {
        groups.push((rest % 128) as u8 + 128);
        rest /= 128;
    }
    groups.push(rest as u8);
    groups
}
