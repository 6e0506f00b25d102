//! The tables of the rules.
ghost use Rattle.std.specs.Prelude.{◌≡◌, ◌&&◌};
ghost use Rattle.corb_sniffers.specs.Values as value;
ghost use Rattle.response_rules.specs.Heads.{Case, is_na, is_initial, is_subsequent, kept_length, is_other_length};
ghost use Rattle.response_rules.specs.Tables.{first_rule, orb_head_rows, orb_window_rows, corb_head_rows, corb_window_rows};
ghost use Rattle.response_rules.specs.Settled.{head_rule_of, rule_in_window};
ghost use Rattle.response_rules.specs.Facts.{facts_of};

use crate::facts::Facts;
use crate::rules::Rule;
use crate::verdicts::Policy;
use corb_sniffers::{has_breaker, sniffs_html, sniffs_json, sniffs_xml};
use media_state::MediaState;
use signatures::{image_type, media_type};

/// The first rule of the head that holds.
pub(crate) fn rule_of_head(facts: &Facts) -> Option<Rule>
    ensures { (h : Case) → facts.now ≡ facts_of h → result ≡ head_rule_of h }
{
    match facts.policy {
        Policy::Orb => orb_rule_of_head(facts),
        Policy::Corb => corb_rule_of_head(facts),
    }
}

/// The first rule of the window that holds.
pub(crate) fn rule_of_window(facts: &Facts, window: &[u8]) -> Option<Rule>
    ensures { (h : Case) → facts.now ≡ facts_of h → result ≡ rule_in_window h window.now }
{
    match facts.policy {
        Policy::Orb => orb_rule_of_window(facts, window),
        Policy::Corb => corb_rule_of_window(facts, window),
    }
}

/// The first rule of Opaque Response Blocking that the head decides.
fn orb_rule_of_head(facts: &Facts) -> Option<Rule>
    ensures { (h : Case) → facts.now ≡ facts_of h → result ≡ first_rule (orb_head_rows h) }
{
    let groups = facts.groups;
    let partial = facts.status == 206;
    first_of(&[
        (Rule::NotOpaque, !facts.opaque),
        (Rule::Safelisted, groups.safelisted),
        (Rule::NeverSniffed, groups.never_sniffed),
        (Rule::PartialBlocklisted, partial & groups.blocklisted),
        (
            Rule::NosniffBlocklisted,
            facts.nosniff & (groups.blocklisted | groups.plain_text),
        ),
        (
            Rule::RangeMismatch,
            is_other_length(kept_length(facts.state), facts.complete),
        ),
        (Rule::Subsequent, is_subsequent_state(facts.state)),
        (Rule::BadRange, partial & !facts.from_first),
        (Rule::Coded, facts.coded),
    ])
}

/// The first that the window decides.
fn orb_rule_of_window(facts: &Facts, window: &[u8]) -> Option<Rule>
    ensures { (h : Case) → facts.now ≡ facts_of h → result ≡ first_rule (orb_window_rows h window.now) }
{
    let is_media = media_type(window).is_some();
    let status = facts.status;
    first_of(&[
        (
            Rule::MediaUnexpected,
            is_media & !is_initial_state(facts.state),
        ),
        (
            Rule::MediaStatus,
            is_media & !((status == 200) | (status == 206)),
        ),
        (Rule::Media, is_media),
        (Rule::MediaExpected, !is_na_state(facts.state)),
        (Rule::Image, image_type(window).is_some()),
        (Rule::Nosniff, facts.nosniff),
        (Rule::NotOk, !((200 <= status) & (status <= 299))),
        (Rule::Untyped, !facts.groups.typed),
        (Rule::TypedMedia, facts.groups.media),
    ])
}

/// The first rule of Cross-Origin Read Blocking that the head decides.
fn corb_rule_of_head(facts: &Facts) -> Option<Rule>
    ensures { (h : Case) → facts.now ≡ facts_of h → result ≡ first_rule (corb_head_rows h) }
{
    let groups = facts.groups;
    let guarded = groups.blocklisted | groups.plain_text;
    first_of(&[
        (Rule::NotOpaque, !facts.opaque),
        (Rule::CorbSafelisted, groups.safelisted),
        (Rule::CorbNeverSniffed, groups.never_sniffed),
        (Rule::CorbPartial, (facts.status == 206) & guarded),
        (Rule::CorbNosniff, facts.nosniff & guarded),
        (Rule::CorbCoded, facts.coded & guarded),
    ])
}

/// The first that the window decides.
fn corb_rule_of_window(facts: &Facts, window: &[u8]) -> Option<Rule>
    ensures { (h : Case) → facts.now ≡ facts_of h → result ≡ first_rule (corb_window_rows h window.now) }
{
    let groups = facts.groups;
    let plain = groups.plain_text;
    first_of(&[
        (Rule::CorbBreaker, shows_breaker(!facts.coded, window)),
        (Rule::CorbHtml, shows_html(groups.html | plain, window)),
        (Rule::CorbXml, shows_xml(groups.xml | plain, window)),
        (Rule::CorbJson, shows_json(groups.json | plain, window)),
        (Rule::CorbUnprotected, !(groups.blocklisted | plain)),
        (Rule::CorbText, plain),
        (Rule::CorbUnconfirmed, true),
    ])
}

// Each sniffer is asked only where its rule may hold.

fn shows_breaker(asked: bool, window: &[u8]) -> bool
    ensures { result ≡ (asked && value.has_breaker window.now) }
{
    asked && has_breaker(window)
}

fn shows_html(asked: bool, window: &[u8]) -> bool
    ensures { result ≡ (asked && value.sniffs_html window.now) }
{
    asked && sniffs_html(window)
}

fn shows_xml(asked: bool, window: &[u8]) -> bool
    ensures { result ≡ (asked && value.sniffs_xml window.now) }
{
    asked && sniffs_xml(window)
}

fn shows_json(asked: bool, window: &[u8]) -> bool
    ensures { result ≡ (asked && value.sniffs_json window.now) }
{
    asked && sniffs_json(window)
}

/// The first of the rules that holds.
fn first_of(rows: &[(Rule, bool)]) -> Option<Rule>
    ensures { result ≡ first_rule rows.now }
{
    rows.iter().find(|(_, holds)| *holds).map(|(rule, _)| *rule)
}

fn is_na_state(state: MediaState) -> bool
    ensures { result ≡ is_na state }
{
    matches!(state, MediaState::Na)
}

fn is_initial_state(state: MediaState) -> bool
    ensures { result ≡ is_initial state }
{
    matches!(state, MediaState::Initial)
}

fn is_subsequent_state(state: MediaState) -> bool
    ensures { result ≡ is_subsequent state }
{
    matches!(state, MediaState::Subsequent { .. })
}

/// The complete length of the media resource that the state keeps.
fn kept_length(state: MediaState) -> Option<u64>
    ensures { result ≡ kept_length state }
{
    match state {
        MediaState::Subsequent { complete } => complete,
        MediaState::Na | MediaState::Initial => None,
    }
}

/// Whether a length is kept, and a response states another one.
fn is_other_length(kept: Option<u64>, stated: Option<u64>) -> bool
    ensures { result ≡ is_other_length kept stated }
{
    match (kept, stated) {
        (Some(kept), Some(stated)) => stated != kept,
        _ => false,
    }
}
