// How the rules of a sheet are read together.
ghost use Rattle.std.specs.Prelude.{Some};
ghost use Rattle.sheet.specs.FormWords.{form_word};

use std::fmt;

#[derive(Clone, Copy, PartialEq, Eq, Debug)]
pub enum Form {
    // clauses: every rule has a literal that holds
    Cnf,
    // terms: some rule has all its literals holding
    Dnf,
}

// As the header of a text spells it.
impl fmt::Display for Form {
    ghost output = { λ f. Some (form_word f) };

    fn fmt<W: fmt::Write>(&self, f: &mut fmt::Formatter<W>) -> fmt::Result {
        match self {
            Form::Cnf => write!(f, "cnf"),
            Form::Dnf => write!(f, "dnf"),
        }
    }
}
