// One condition of a rule.
ghost use Rattle.std.specs.Prelude.{◌≡◌, true, false};

// A position and the value wanted there.
#[derive(Clone, Copy, PartialEq, Eq, Debug)]
pub struct Literal {
    pub position: usize,
    pub wanted: bool,
}

// Two constructors and no bool parameter, so that a call says what is wanted.
impl Literal {
    pub fn on(position: usize) -> Literal
        ensures { (result.position ≡ position) × (result.wanted ≡ true) }
    {
        Literal {
            position,
            wanted: true,
        }
    }

    pub fn off(position: usize) -> Literal
        ensures { (result.position ≡ position) × (result.wanted ≡ false) }
    {
        Literal {
            position,
            wanted: false,
        }
    }
}
