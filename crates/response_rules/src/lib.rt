//! The rules of Opaque Response Blocking, and those of Cross-Origin Read Blocking: whether a page may see the body of a
//! response that it asked for without CORS, and which rule says so.
//!
//! The rules are those of the ORB proposal and of the CORB explainer as this project restates them: `specs/Tables` has the
//! tables, in the order in which their rows are asked, and the first row that holds decides. `specs/Settled`
//! says when a rule is known for good: by the head alone, by the first 1,024 bytes of the body or all
//! of a shorter one, or by the whole body. A [`Decider`] judges a body that comes in pieces, cut
//! anywhere, and keeps no more of it than those first bytes. It has a fixed size, takes no memory and never fails.
#![tactic(auto)]

mod deciding;
mod facts;
mod groups;
mod laws;
mod rules;
mod tables;
#[cfg(test)]
mod tests;
mod text;
mod verdicts;

pub use deciding::Decider;
pub use facts::Facts;
pub use laws::{
    blocked_is_for_good, hopeless_is_for_good, judgement_is_settled, one_essence,
    open_body_is_short, rule_is_computed, sent_is_for_good, settled_is_computed,
    settled_is_for_good, text_is_for_good, text_is_read, texts_are_decided,
};
pub use rules::Rule;
pub use verdicts::{Policy, Progress, Verdict};
