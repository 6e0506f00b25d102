//! The tokens of scripts (ECMA-262 5.1, section 7): of a slice of characters, the plain form, and of a text
//! that is fed a character at a time.
//!
//! The definitions in `specs/` follow the standard: `Characters`, `Trivia` and one file for each kind of
//! token say what their texts are, `Tokens` where one stands, and `Texts` which tokens a text has, each
//! slash read by the goal that came with the character after it. Both forms go along places in a token
//! (`Places`, `PlaceResiduals`). [`next_token`] looks for the longest token of a slice and may go back; a [`Lexer`]
//! never does, and stands between its characters in a state (`Residuals`, `Lexing`).
#![tactic(auto)]

mod characters;
mod laws;
mod letters;
mod lexer;
mod longest;
mod marks;
mod names;
mod next;
#[cfg(test)]
mod piece_tests;
mod places;
mod runs;
mod slices;
mod states;
#[cfg(test)]
mod tests;
mod tokens;
mod trivia;

pub use laws::{
    either_reading, ended_tokens_are_given, given_tokens_stay, one_list_of_tokens, one_next_token,
};
pub use lexer::Lexer;
pub use next::{next_token, rest_is_trivia};
pub use tokens::{Goal, Lexeme, Punct, Token, Word};
