// Lists the choices of the policy that a search finds; the stack and the words of its book are
// the job's own.
ghost use Rattle.std.specs.Prelude.{◌≡◌, take, IfOk};
ghost use Rattle.prefix.specs.Prefixes.{kinds};
ghost use Rattle.sheet.specs.Rules.{rules_kept};
ghost use Rattle.worth.specs.Winning.{WinnableOf};
ghost use Rattle.jobs.specs.Choices.{SearchedChoices};

use crate::choice::Choice;
use crate::listing::list_choices;
use book::TableBook;
use play::search;
use prefix::Prefix;
use sheet::{ClauseSheet, Form, Rule, Sheet, TermSheet};
use std::alloc::{AllocError, Global};
use worth::WorthStack;

// The choices on the sheet of these rules, read as clauses or as terms, on which some policy
// wins; of more than 256 rules the first 256 count.
pub(crate) fn searched_choices_of(
    heap: Global,
    form: Form,
    prefix: Prefix,
    rules: &[Rule],
) -> Result<Vec<Choice>, AllocError>
    requires won { WinnableOf (rules_kept form prefix.length (take 256 rules.now)) prefix }
    ensures { IfOk result (λ v. SearchedChoices (rules_kept form prefix.length (take 256 rules.now)) (kinds prefix) v.items) }
{
    match form {
        Form::Cnf => searched_choices(heap, &ClauseSheet::new(prefix, rules)),
        Form::Dnf => searched_choices(heap, &TermSheet::new(prefix, rules)),
    }
}

// The choices on a sheet on which some policy wins.
fn searched_choices<F: Sheet>(heap: Global, sheet: &F) -> Result<Vec<Choice>, AllocError>
    requires won { WinnableOf (F.Sheet.kept sheet.now) (F.Sheet.prefix sheet.now) }
    ensures { IfOk result (λ v. SearchedChoices (F.Sheet.kept sheet.now) (kinds (F.Sheet.prefix sheet.now)) v.items) }
{
    let prefix = sheet.prefix();
    let mut cells = vec![in heap; false; prefix.len()]?;
    let mut words = vec![in heap; 0; TableBook::word_count(prefix)]?;
    let mut stack = WorthStack::new(&mut cells);
    let mut book = TableBook::new(prefix, &mut words);
    // both tables are large enough, and some policy wins
    search(&mut stack, sheet, &mut book).unwrap();
    list_choices(heap, &book)
}
