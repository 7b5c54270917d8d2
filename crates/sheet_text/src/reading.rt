// What a text gives besides the rules in the table.
use prefix::Prefix;
use sheet::Form;

#[derive(Clone, Copy, PartialEq, Eq, Debug)]
pub struct Reading {
    pub form: Form,
    pub prefix: Prefix,
    // how many rules stand at the front of the table, which is the caller's memory
    pub rules: usize,
}
