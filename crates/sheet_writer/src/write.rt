// Writes a sheet out as text, so that it can be handed on. Of four positions
// with reports at 1 and 3, and the clause that wants 2 or 3 on:
//
//     p cnf 4 1
//     a 1 0
//     e 2 0
//     a 3 0
//     e 4 0
//     2 3 0
ghost use Rattle.std.specs.Prelude.{◌≡◌, IfOk, Ok, Some};
ghost use Rattle.sheet_text.specs.Grammar.{Says};
ghost use Rattle.sheet_text.specs.Reading.{read_text};
ghost use Rattle.sheet_writer.specs.Writing.{sheet_of_rules, written};

use crate::header::Header;
use crate::quantifier::QuantifierLines;
use crate::rule::RuleLines;
use prefix::Prefix;
use sheet::rule::counted;
use sheet::{Form, Rule};
use std::alloc::{AllocError, Global};
use std::fmt;

// The text of a sheet, whose variables are numbered by position. Of the rules
// the first 256 count, and of a rule the literals within the prefix. Three parameters
// and no public struct, as in `count_policies_of`.
pub fn write_sheet(
    heap: Global,
    form: Form,
    prefix: Prefix,
    rules: &[Rule],
) -> Result<Vec<u8>, AllocError>
    ensures text { IfOk result (λ v. v.items ≡ written form prefix rules.now) }
    ensures says { IfOk result (λ v. Says v.items (sheet_of_rules form prefix rules.now)) }
    ensures back { IfOk result (λ v. read_text v.items ≡ Ok (sheet_of_rules form prefix rules.now)) }
{
    let sheet = SheetText {
        form,
        prefix,
        rules,
    };
    let text = sheet.to_string(heap)?;
    Ok(text.into_bytes())
}

// A sheet as its text.
#[derive(Clone, Copy)]
struct SheetText<'a> {
    form: Form,
    prefix: Prefix,
    rules: &'a [Rule],
}

impl fmt::Display for SheetText<'_> {
    ghost output = { λ s. Some (written s.form s.prefix s.rules.now) };

    fn fmt<W: fmt::Write>(&self, f: &mut fmt::Formatter<W>) -> fmt::Result {
        let length = self.prefix.len();
        let rules = counted(self.rules);
        let header = Header {
            form: self.form,
            length,
            rules: rules.len(),
        };
        let quantifiers = QuantifierLines(self.prefix);
        let rules = RuleLines { length, rules };
        write!(f, "{header}{quantifiers}{rules}")
    }
}
