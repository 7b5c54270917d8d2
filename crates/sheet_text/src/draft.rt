// A sheet as far as its words have come.
ghost use Rattle.std.specs.Prelude.{◌≡◌};
ghost use Rattle.arrayvec.specs.ArrayVec.{array_vec_len};
ghost use Rattle.sheet_text.specs.Words.{token};
ghost use Rattle.sheet_text.specs.Reading.{Progress, begin, advance};
ghost use Rattle.sheet_text.specs.Drafts.{Stands, Advanced};

use crate::reader::Reader;
use crate::taken::Taken;
use crate::word::Word;
use arrayvec::ArrayVec;
use faults::SheetFault;
use sheet::Rule;
use sheet::rule::MOST_RULES;

#[derive(Drop)]
pub(crate) struct Draft {
    pub(crate) reader: Reader,
    // the rule that is being read
    pub(crate) rule: Rule,
    // the rules that are over
    pub(crate) rules: ArrayVec<Rule, MOST_RULES>,
}

impl Draft {
    // Before the first word.
    pub(crate) fn new() -> Draft
        ensures { Stands begin result }
    {
        Draft {
            reader: Reader::new(),
            rule: Rule::empty(),
            rules: ArrayVec::new(),
        }
    }

    // Takes the next word.
    pub(crate) fn take(&mut self, word: Word<'_>) -> Result<(), SheetFault>
        requires { array_vec_len self.old.rules ≡ self.old.reader.state.read }
        ensures { (s : Progress) → Stands s self.old → Advanced (advance s (token word.entry)) result self.new }
    {
        match self.reader.take(word)? {
            None => {}
            Some(Taken::Literal { literal, place }) => {
                let rule = self.rule.with(literal);
                self.rule = rule.ok_or(SheetFault::Repeated { place })?;
            }
            Some(Taken::Rule) => {
                self.rules.push(self.rule);
                self.rule = Rule::empty();
            }
        }
        Ok(())
    }
}
