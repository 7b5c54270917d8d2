// The tests of `prefix`, `sheet`, `worth` and `sheet_writer`.
#![tactic(auto)]

#[cfg(test)]
mod common;
#[cfg(test)]
mod prefixes;
#[cfg(test)]
mod sheets;
#[cfg(test)]
mod texts;
#[cfg(test)]
mod worths;
