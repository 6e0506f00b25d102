//! Which lists of tokens are scripts (ECMA-262 5.1, sections 7.9 and 11 to 14), read token by token.
//!
//! A [`Machine`] has a control state and a stack of at most 1,024 frames, one for each unit that is open: a
//! pair of brackets, a conditional up to its `:`, the first branch of an `if`, a `do` with its body. It
//! looks at no token but the one at hand, builds no tree, and treats all binary operators alike. It is
//! dead exactly where no program that nests at most so deep at these tokens begins with them, and says
//! before each token how a slash there is read. `states` has its states and frames, `expressions` and `statements`
//! what each does at a token, `machine` the stack and the semicolons that are left out. docs/SCRIPT-MACHINE.md
//! walks through an example.
#![tactic(auto)]

mod classes;
mod expressions;
mod machine;
mod script_tests;
mod scripts;
mod semicolons;
mod statements;
mod states;
#[cfg(test)]
mod tests;

pub use machine::Machine;
pub use script_tests::ScriptTest;
