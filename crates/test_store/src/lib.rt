//! Tests alone, of the shared store and of the program: what no contract and no script says of them, and what no caller of the C library
//! sees. What such a caller sees stands in the tests of `bindings`.
//!
//! One unit is one test. Each module begins with why it stands here. They stand apart from the crates that they test, so that each of
//! those is proved once and not twice.
#![tactic(auto)]

#[cfg(test)]
mod tests;
