// A quantifier prefix as a value. Its limits are part of the type, so that no
// function above has to test them again.
//
// The struct stands alone in this file: its ghost field imports every `ghost
// use` here, and the definitions that speak of prefixes import the struct.
ghost use Rattle.prefix.specs.Limits.{Limits};

mod questions;
mod settings;

// `length` positions; position k is a report where bit k - 1 of `reports` is on.
#[derive(Clone, Copy, PartialEq, Eq, Debug)]
pub struct Prefix {
    length: usize,
    reports: u32,
    ghost ok: { Limits length reports },
}
