//! JSON texts (RFC 8259), recognised and not built, in whatever pieces their bytes come.
//!
//! `specs/Grammar` has the grammar as trees, each spelled before what follows it, and with them
//! what a JSON text is: of the grammar, and of at most 1,024 levels of arrays and objects (section 9
//! leaves such a limit to the parser). `specs/Reading` says what follows a piece of the grammar that
//! begins a text, and `specs/Residuals`, from each state of the machine, which texts may still come.
//! Nothing here takes memory or fails.
#![tactic(auto)]

mod json_test;
mod machine;
mod runs;
mod states;
mod steps;
#[cfg(test)]
mod tests;

pub use json_test::JsonTest;
