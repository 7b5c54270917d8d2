// The quantifier lines of a sheet's text.
ghost use Rattle.std.specs.Prelude.{Some};
ghost use Rattle.std.specs.List.{flat_map};
ghost use Rattle.prefix.specs.Prefixes.{kinds};
ghost use Rattle.sheet_writer.specs.Writing.{line_text, quantifier_lines};

use prefix::Prefix;
use std::fmt;

// A line for each run of positions of one kind.
#[derive(Clone, Copy)]
pub(crate) struct QuantifierLines(pub(crate) Prefix);

impl fmt::Display for QuantifierLines {
    ghost output = { λ q. Some (flat_map line_text (quantifier_lines (kinds q.0))) };

    #[tactic(auto, using(std::proofs::lemmas::Grind::common_steps, crate::proofs::Quantified::some_kind, crate::proofs::Quantified::begun))]
    fn fmt<W: fmt::Write>(&self, f: &mut fmt::Formatter<W>) -> fmt::Result {
        let prefix = self.0;
        // the kind of the open line
        let mut kind = prefix.kind(1).unwrap();
        write!(f, "{kind} 1")?;
        for position in 2..=prefix.len() {
            let next = prefix.kind(position).unwrap();
            if next == kind {
                write!(f, " {position}")?;
            } else {
                write!(f, " 0\n{next} {position}")?;
            }
            kind = next;
        }
        writeln!(f, " 0")
    }
}
