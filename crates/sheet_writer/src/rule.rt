// The rules of a sheet's text.
ghost use Rattle.std.specs.Prelude.{map, Some};
ghost use Rattle.std.specs.List.{flat_map};
ghost use Rattle.sheet_text.specs.Grammar.{rule_line};
ghost use Rattle.sheet_writer.specs.Writing.{rising, signed, line_text, rule_lines, literal_text};

use sheet::Rule;
use std::fmt;

// A line for each rule.
#[derive(Clone, Copy)]
pub(crate) struct RuleLines<'a> {
    pub(crate) length: usize,
    pub(crate) rules: &'a [Rule],
}

impl fmt::Display for RuleLines<'_> {
    ghost output = { λ r. Some (flat_map line_text (rule_lines (map (λ q. rising q r.length) r.rules.now))) };

    fn fmt<W: fmt::Write>(&self, f: &mut fmt::Formatter<W>) -> fmt::Result {
        let length = self.length;
        for &rule in self.rules {
            let line = RuleLine { length, rule };
            write!(f, "{line}")?;
        }
        Ok(())
    }
}

// A rule's literals at the first `length` positions, in rising position.
#[derive(Clone, Copy)]
struct RuleLine {
    length: usize,
    rule: Rule,
}

impl fmt::Display for RuleLine {
    ghost output = { λ l. Some (line_text (rule_line (map signed (rising l.rule l.length)))) };

    #[tactic(auto, using(std::proofs::lemmas::Grind::common_steps, crate::proofs::Ruled::literals_next))]
    fn fmt<W: fmt::Write>(&self, f: &mut fmt::Formatter<W>) -> fmt::Result {
        for position in 1..=self.length {
            let wanted = self.rule.wanted(position);
            let literal = LiteralAt { position, wanted };
            write!(f, "{literal}")?;
        }
        writeln!(f, "0")
    }
}

// The literal at a position, if a value is wanted there, and a space after it.
#[derive(Clone, Copy)]
struct LiteralAt {
    position: usize,
    wanted: Option<bool>,
}

impl fmt::Display for LiteralAt {
    ghost output = { λ l. Some (literal_text l.position l.wanted) };

    fn fmt<W: fmt::Write>(&self, f: &mut fmt::Formatter<W>) -> fmt::Result {
        let position = self.position;
        match self.wanted {
            Some(true) => write!(f, "{position} "),
            Some(false) => write!(f, "-{position} "),
            None => Ok(()),
        }
    }
}
