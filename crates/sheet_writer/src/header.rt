// The header of a sheet's text.
ghost use Rattle.std.specs.Prelude.{Some};
ghost use Rattle.sheet_text.specs.Grammar.{header_line};
ghost use Rattle.sheet_writer.specs.Writing.{line_text};

use sheet::Form;
use std::fmt;

// The form of the rules, how many variables, how many rules.
#[derive(Clone, Copy)]
pub(crate) struct Header {
    pub(crate) form: Form,
    pub(crate) length: usize,
    pub(crate) rules: usize,
}

impl fmt::Display for Header {
    ghost output = { λ h. Some (line_text (header_line h.form h.length h.rules)) };

    fn fmt<W: fmt::Write>(&self, f: &mut fmt::Formatter<W>) -> fmt::Result {
        let Header {
            form,
            length,
            rules,
        } = *self;
        writeln!(f, "p {form} {length} {rules}")
    }
}
