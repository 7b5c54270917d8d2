// The tests of `book_file`, `jobs` and `program_io`.
#![tactic(auto)]

#[cfg(test)]
mod common;
#[cfg(test)]
mod explanations;
#[cfg(test)]
mod files;
#[cfg(test)]
mod inputs;
#[cfg(test)]
mod listings;
#[cfg(test)]
mod numbers;
#[cfg(test)]
mod passes;
#[cfg(test)]
mod settlements;
#[cfg(test)]
mod writing;
#[cfg(test)]
mod written_books;
