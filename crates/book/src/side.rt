// The two sides of a reply, each with a guard of its own.

#[derive(Clone, Copy, PartialEq, Eq, Debug)]
pub enum Side {
    // the guard that says when to reply on
    On,
    // the guard that says when to reply off
    Off,
}
