// Part lines: the first values of a line.
ghost use Rattle.std.specs.Prelude.{◌≡◌, min};

use crate::line::Line;

// The first `length` values of a line; those after them do not count.
#[derive(Clone, Copy, Debug)]
pub struct PartLine {
    pub length: usize,
    pub line: Line,
}

impl PartLine {
    // The part line without values; the line behind it is all off.
    pub fn empty() -> PartLine
        ensures length { result.length ≡ 0 }
        ensures line { result.line.mask ≡ 0 }
    {
        PartLine {
            length: 0,
            line: Line::from_mask(0),
        }
    }

    // Of the values only the first n, where there are more.
    pub fn within(self, n: usize) -> PartLine
        ensures length { result.length ≡ min self.length n }
        ensures line { result.line ≡ self.line }
    {
        PartLine {
            length: self.length.min(n),
            line: self.line,
        }
    }
}
