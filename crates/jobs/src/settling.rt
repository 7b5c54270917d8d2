// Settles a site: how many policies win on its sheet, and what the one that a search finds
// replies at each point.
ghost use Rattle.std.specs.Prelude.{◌≡◌, length, take, Some, IfOk};
ghost use Rattle.sheet.specs.Rules.{rules_kept};
ghost use Rattle.jobs.specs.Inputs.{taken as counted};
ghost use Rattle.jobs.specs.Settling.{Settles, Settled, settlement_text};

use crate::choice::Choice;
use crate::fault::JobFault;
use crate::input::taken;
use crate::searched::searched_choices_of;
use prefix::Prefix;
use sheet::rule::MOST_RULES;
use sheet::{Form, Rule};
use sheet_text::read_sheet;
use std::alloc::{AllocError, Global};
use std::fmt;
use worth::count_policies_of;
use worth::policy_count::PolicyCount;

// What a site's sheet comes to: how many policies win, and what the one that a search finds
// replies at each point, in order; nothing where none wins.
#[derive(Clone, PartialEq, Eq, Debug, Drop)]
pub struct Settlement {
    pub policies: PolicyCount,
    pub choices: Vec<Choice>,
}

// A line for the count, and one for each choice.
impl fmt::Display for Settlement {
    ghost output = { λ s. Some (settlement_text s) };

    fn fmt<W: fmt::Write>(&self, f: &mut fmt::Formatter<W>) -> fmt::Result {
        let policies = self.policies;
        write!(f, "policies {policies}")?;
        for choice in &self.choices {
            write!(f, "\n{choice}")?;
        }
        Ok(())
    }
}

// The settlement of the sheet that the input says; an input of more than 65,536
// bytes counts as empty.
pub fn settle(heap: Global, input: &[u8]) -> Result<Settlement, JobFault>
    ensures { Settled (counted input.now) result }
{
    let mut table = vec![in heap; Rule::empty(); MOST_RULES]?;
    settle_in(heap, &mut table, taken(input))
}

// The same in a table that has a place for each of the 256 rules that a sheet may have.
fn settle_in(heap: Global, table: &mut [Rule], text: &[u8]) -> Result<Settlement, JobFault>
    requires table { length table.old ≡ 256 }
    ensures { Settled text.now result }
{
    let reading = read_sheet(text, table)?;
    let rules = &table[..reading.rules];
    Ok(settle_rules(heap, reading.form, reading.prefix, rules)?)
}

// The settlement of the sheet of these rules, read as clauses or as terms; of more than
// 256 rules the first 256 count.
fn settle_rules(
    heap: Global,
    form: Form,
    prefix: Prefix,
    rules: &[Rule],
) -> Result<Settlement, AllocError>
    ensures { IfOk result (λ s. Settles (rules_kept form prefix.length (take 256 rules.now)) prefix s) }
{
    let policies = count_policies_of(form, prefix, rules);
    if policies.is_none() {
        let choices = Vec::new(heap);
        return Ok(Settlement { policies, choices });
    }
    let choices = searched_choices_of(heap, form, prefix, rules)?;
    Ok(Settlement { policies, choices })
}
