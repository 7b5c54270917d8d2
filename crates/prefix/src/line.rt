// Lines: values for the positions of a prefix, as a mask.
ghost use Rattle.std.specs.Prelude.{◌≡◌, ◌-◌, ◌^◌, min};
ghost use Rattle.prefix.specs.Bits.{mask_value, Changed};

// A line gives off or on to every position: position k is on where bit k - 1 of
// the mask is. Of a part line of length d only the first d values count.
#[derive(Clone, Copy, PartialEq, Eq, Debug)]
pub struct Line {
    mask: u32,
}

impl Line {
    pub fn from_mask(mask: u32) -> Line
        ensures { result.mask ≡ mask }
    {
        Line { mask }
    }

    pub fn mask(self) -> u32
        ensures { result ≡ self.mask }
    {
        self.mask
    }

    // The value at a position; off at a number that is none.
    #[tactic(auto, using(crate::proofs::Masks::value_outside))]
    pub fn value(self, position: usize) -> bool
        ensures { result ≡ mask_value self.mask position }
    {
        if position == 0 || position > 32 {
            return false;
        }
        (self.mask >> (position - 1)) & 1 == 1
    }

    // The same line with one value as given; the line itself where there is no
    // such position.
    pub fn with(self, position: usize, value: bool) -> Line
        ensures { Changed self.mask position value result.mask }
    {
        if position == 0 || position > 32 || self.value(position) == value {
            return self;
        }
        Line {
            mask: self.mask ^ 1 << (position - 1),
        }
    }
}

// The mask of the first `length` positions; every bit where there are 32 or more.
pub fn first_positions(length: usize) -> u32
    ensures { result ≡ 2 ^ min length 32 - 1 }
{
    if length >= 32 {
        return u32::MAX;
    }
    (1 << length) - 1
}
