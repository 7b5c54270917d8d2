// The tests of `book` and `play`.
#![tactic(auto)]

#[cfg(test)]
mod checked_lists;
#[cfg(test)]
mod checks;
#[cfg(test)]
mod common;
#[cfg(test)]
mod copies;
#[cfg(test)]
mod list_searches;
#[cfg(test)]
mod lists;
#[cfg(test)]
mod plays;
#[cfg(test)]
mod rounds;
#[cfg(test)]
mod rows;
#[cfg(test)]
mod searches;
#[cfg(test)]
mod tables;
