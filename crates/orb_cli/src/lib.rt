//! The command line: from the words, a source and a sink to an outcome, its status and its line.
//!
//! [`run`] is the call that the program makes, and its contract is what the program promises.
//! `specs/` says it from the outside in: `Words` which command lines are taken, `Answer` what each
//! answer says of the bytes read and written and of the faults, `Har` the same of a log, `Complete` when the answer is `Done`,
//! and `Report` the status and the line. What a recording is, where it ends and what is written of it
//! stands in the definitions of `orb_engine`.
//!
//! [`serve`] does the same over connections, one after the other, each by [`serve_link`], and [`proxy`] has a client of a
//! proxy on each.
//! `specs/ServeWords` and `Serving` say what the words, the listener and the log have to do with its
//! answer.
#![tactic(auto)]

mod commands;
mod har_word;
mod judging;
mod laws;
mod mime_word;
mod outcome;
mod proxying;
mod report;
mod serve_words;
mod serving;
#[cfg(test)]
mod tests;
mod top;
mod trial_word;
mod type_word;

pub use har_word::MOST_OF_A_LOG;
pub use laws::{completeness, serving_completeness};
pub use outcome::{ClientOutcome, Outcome, ServeOutcome};
pub use report::{outcome_line, serve_outcome_line};
pub use serve_words::{proxy, serve};
pub use serving::serve_link;
pub use top::run;
pub use trial_word::trial_run;
