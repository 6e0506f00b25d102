//! What the rules ask of a response but its body.
ghost use Rattle.std.specs.Prelude.{◌≡◌, ◌≤◌, ◌==◌, length, None, option_and_then, if◌then◌else◌};
ghost use Rattle.header_values.specs.Fields.{AreOfHead, pairs_in};
ghost use Rattle.response_rules.specs.Heads.{stated_range, is_first, partial_content};

use crate::groups::{Groups, read_groups};
use crate::verdicts::Policy;
use header_values::{Fields, Scratch, coded, nosniff};
use media_state::{ContentRange, MediaState, read_content_range};

/// What the rules ask of a response but its body: its head is read once, and not kept.
#[derive(Clone, Copy)]
pub struct Facts {
    /// The rules that judge.
    pub(crate) policy: Policy,
    /// The state of the request's media resource before the response.
    pub(crate) state: MediaState,
    /// The request is opaque.
    pub(crate) opaque: bool,
    /// The status code.
    pub(crate) status: u16,
    /// The groups of the type.
    pub(crate) groups: Groups,
    /// The type isn't to be guessed.
    pub(crate) nosniff: bool,
    /// The body has a content coding.
    pub(crate) coded: bool,
    /// Content-Range gives a range from the first byte on.
    pub(crate) from_first: bool,
    /// The number of bytes of the whole that the response is a part of, where it states one.
    pub(crate) complete: Option<u64>,
    /// How many bytes of a body are read for a script.
    pub(crate) limit: u64,
}

impl Facts {
    ghost use Rattle.std.specs.Prelude.{ℕ, List, Option};
    ghost use Rattle.response_rules.specs.Heads.{HasEssence};
    ghost use Rattle.response_rules.specs.Facts.{AreFactsOf};
    ghost use Rattle.response_rules.specs.Reads.{case_of};

    /// The facts of a response: the rules that judge it, the state of the media resource that the request is for,
    /// whether the request is opaque, the status and fields of its head, and how many bytes of a body are read for a script.
    /// The scratch needs room for the head.
    pub fn read(
        policy: Policy,
        state: MediaState,
        opaque: bool,
        status: u16,
        fields: &Fields,
        scratch: &mut Scratch,
        limit: u64,
    ) -> Facts
        requires fields { AreOfHead fields.now }
        requires room { length fields.now.head.now ≤ scratch.old }
        ensures facts { (essence : Option (List ℕ × List ℕ)) → HasEssence (pairs_in fields.now) essence
            → AreFactsOf result (case_of policy state opaque status (pairs_in fields.now) limit essence) }
        ensures one { (essence : Option (List ℕ × List ℕ)) × HasEssence (pairs_in fields.now) essence }
        ensures kept { scratch.new ≡ scratch.old }
    {
        let range = stated_range(fields, scratch);
        Facts {
            policy,
            state,
            opaque,
            status,
            nosniff: nosniff(fields, scratch),
            coded: coded(fields, scratch),
            from_first: is_first(range),
            complete: length_in(status, range),
            groups: read_groups(fields, scratch),
            limit,
        }
    }

    /// Those of a response that no rule judges, since the request isn't opaque.
    pub(crate) fn idle() -> Facts {
        Facts {
            policy: Policy::Orb,
            state: MediaState::Na,
            opaque: false,
            status: 0,
            nosniff: false,
            coded: false,
            from_first: false,
            complete: None,
            groups: Groups::NONE,
            limit: 0,
        }
    }
}

/// The range that Content-Range gives, if it gives one.
#[tactic(auto, unfolding(crate::specs::Heads::stated_range))]
fn stated_range(fields: &Fields, scratch: &mut Scratch) -> Option<ContentRange>
    requires fields { AreOfHead fields.now }
    requires room { length fields.now.head.now ≤ scratch.old }
    ensures value { result ≡ stated_range (pairs_in fields.now) }
    ensures kept { scratch.new ≡ scratch.old }
{
    read_content_range(scratch.join(fields, b"Content-Range")?)
}

/// Whether there is a range, and it begins at the first byte.
fn is_first(range: Option<ContentRange>) -> bool
    ensures { result ≡ is_first range }
{
    match range {
        Some(range) => range.first == 0,
        None => false,
    }
}

/// The number of bytes of the whole that a response with this status and range is a part of, where it states one.
fn length_in(status: u16, range: Option<ContentRange>) -> Option<u64>
    ensures { result ≡ (if status == partial_content then option_and_then (λ range. range.complete) range else None) }
{
    if status == 206 { range?.complete } else { None }
}
