// A number of policies, counted up to a limit.
//
// The struct stands alone in this file: its ghost field imports every `ghost
// use` here, and the definitions that speak of it import the struct.
ghost use Rattle.std.specs.Prelude.{◌≤◌};

mod numbers;

// 0 to 1,000,000; the last stands for that many or more.
#[derive(Clone, Copy, PartialEq, Eq, Debug)]
pub struct PolicyCount {
    value: u32,
    ghost ok: { value ≤ 1000000 },
}
