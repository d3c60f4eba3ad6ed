//! Tests of the crates from the values to the readers of texts, and of the order and the records of a history, of what no contract and no
//! script says. Each module begins with why none does. What a contract says is proved and not tried here, what a script says stands in
//! `test_cases`, and what a caller of the C library sees in the tests of `bindings`.
//!
//! Nothing stands on this crate, and it has nothing but tests, so that the crates that it tries are not proved a second time for them.
#![tactic(auto)]

#[cfg(test)]
mod explanations;
#[cfg(test)]
mod listed;
#[cfg(test)]
mod objects;
#[cfg(test)]
mod order;
#[cfg(test)]
mod records;
#[cfg(test)]
mod same;
#[cfg(test)]
mod texts_changed;
#[cfg(test)]
mod texts_hostile;
#[cfg(test)]
mod texts_written;
