//! The grammar of programs (ECMA-262 5.1, sections 11 to 14), as trees over the tokens of
//! `es5_lexer`; definitions and their laws, and no machine.
//!
//! `specs/Trees` has a constructor for each alternative of a rule, `specs/Spelling` the tokens of each
//! tree before what follows, `specs/Good` what a rule asks besides its tokens, `specs/Endings`
//! where a semicolon may be left out, and `specs/Depths` how many units are open at each token. `specs/Programs` joins
//! them: `IsProgram` says which lists of tokens are programs.
#![tactic(auto)]

pub mod laws;
