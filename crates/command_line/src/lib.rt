//! The words of a command line, read with `clap`, and proved exact.
//!
//! [`read_words`] takes the words without the program's own name, and answers with the [`Command`] that they ask for:
//!
//! | Words | Command |
//! |---|---|
//! | `filter` or `explain`, then options in any order, each at most once: `--policy orb` or `--policy corb`, and `--limit` with a number of bytes from 1,024 to 268,435,456. The value may stand in the same word, as in `--limit=1024`. Without them the policy is `orb` and the limit 8,388,608 | [`Command::Judge`] |
//! | `trial SEED COUNT`, with a seed of at most 10^18 and a count from 1 to 1,000,000 | [`Command::Trial`] |
//! | `mime TEXT`, where the text doesn't begin with `-` | [`Command::Mime`] |
//! | `har` | [`Command::Har`] |
//! | `type` | [`Command::Type`] |
//! | `serve ADDRESS COUNT`, where the address doesn't begin with `-`, and with a count from 1 to 1,000,000 | [`Command::Serve`] |
//! | `proxy ADDRESS COUNT`, with the same | [`Command::Proxy`] |
//!
//! Numbers are 1 to 19 ASCII digits. All other words are refused as [`Refused::Usage`], and no others are: an option
//! that is given twice or without its value, short names, `--` as a word, and words that ask for help or a version.
//!
//! `specs/Taken` says which words ask for what, as the list of options that the words spell, and knows nothing of clap. `specs/Program`
//! is what clap is told, and `specs/Values` what the values that it finds mean. The proofs go from one to the other along the kit's
//! model of clap's walk over the words: `proofs/WordLemmas` and `WalkLemmas` say what one word is to the walk, `JobLemmas`
//! reads options from words that the walk takes, `SpellLemmas` goes the other way, `OperandLemmas` does both for operands,
//! `FirstLemmas` enters a subcommand, and `TakenLemmas` joins them.
#![tactic(auto)]

mod asked;
mod laws;
mod numbers;
mod options;
mod program;
mod reading;
#[cfg(test)]
mod tests;

pub use asked::{Command, Job, Policy, Refused};
pub use laws::{one_reading, ranges};
pub use numbers::{DEFAULT_LIMIT, LEAST_LIMIT, MOST_COUNT, MOST_LIMIT, MOST_SEED};
pub use reading::read_words;
