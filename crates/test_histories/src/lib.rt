//! Tests of what lists of calls leave, by the crates that make it: each object by itself, the whole store, tables of results and editions;
//! and of the lists of tuples that builds take.
//! Each module begins with why no contract says what it tries.
//!
//! Nothing stands on this crate, and it has nothing but tests, so that the crates that it tries are not proved a second time for them.
#![tactic(auto)]

#[cfg(test)]
mod assembled;
#[cfg(test)]
mod drawn_calls;
#[cfg(test)]
mod editions;
#[cfg(test)]
mod histories;
#[cfg(test)]
mod let_go;
#[cfg(test)]
mod looked;
#[cfg(test)]
mod memory;
#[cfg(test)]
mod operations;
#[cfg(test)]
mod results;
#[cfg(test)]
mod same;
#[cfg(test)]
mod stores;
#[cfg(test)]
mod texts;
#[cfg(test)]
mod tuples;
#[cfg(test)]
mod values;
