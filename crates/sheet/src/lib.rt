// Sheets: what a site's rules mean, for every way of keeping them, and the two
// ways at hand, clauses (cnf) and terms (dnf).
//
//     let rules = [Rule::of(&[Literal::on(2), Literal::off(3)])?];
//     let sheet = ClauseSheet::new(prefix, &rules);
//     sheet.broken(PartLine { length: 2, line }) // do the first two values break it already?
#![tactic(auto)]

pub mod clause;
pub mod form;
pub mod literal;
pub mod normal_form;
pub mod rule;
pub mod rule_sheet;
pub mod sheet;
pub mod term;

pub use clause::{ClauseSheet, Clauses};
pub use form::Form;
pub use literal::Literal;
pub use normal_form::NormalForm;
pub use rule::Rule;
pub use rule_sheet::RuleSheet;
pub use sheet::Sheet;
pub use term::{TermSheet, Terms};
