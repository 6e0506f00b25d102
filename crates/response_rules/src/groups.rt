//! The groups of the MIME type that a head states.
ghost use Rattle.std.specs.Prelude.{◌≡◌, ◌≤◌, Some, length};
ghost use Rattle.header_values.specs.Fields.{AreOfHead, pairs_in};
ghost use Rattle.mime_types.specs.Sets.{main_of, sub_of};
ghost use Rattle.response_rules.specs.Facts.{AreGroups, groups_of};

use header_values::{Fields, Scratch, extract_essence};
use mime_types::{
    Essence, is_html, is_json, is_media, is_never_sniffed, is_safelisted, is_text_plain, is_xml,
};

/// Whether there is a type, and the groups that have it.
#[derive(Clone, Copy)]
pub(crate) struct Groups {
    /// The fields state a type.
    pub(crate) typed: bool,
    /// A script's, a style sheet's or SVG.
    pub(crate) safelisted: bool,
    /// Of those whose bodies are never looked at.
    pub(crate) never_sniffed: bool,
    /// HTML, JSON or XML.
    pub(crate) blocklisted: bool,
    /// Plain text.
    pub(crate) plain_text: bool,
    /// HTML.
    pub(crate) html: bool,
    /// XML.
    pub(crate) xml: bool,
    /// JSON.
    pub(crate) json: bool,
    /// Audio, image or video.
    pub(crate) media: bool,
}

impl Groups {
    /// Those where no type is stated.
    pub(crate) const NONE: Groups = Groups {
        typed: false,
        safelisted: false,
        never_sniffed: false,
        blocklisted: false,
        plain_text: false,
        html: false,
        xml: false,
        json: false,
        media: false,
    };
}

/// The groups of the type that the fields state.
pub(crate) fn read_groups(fields: &Fields, scratch: &mut Scratch) -> Groups
    requires fields { AreOfHead fields.now }
    requires room { length fields.now.head.now ≤ scratch.old }
    ensures groups { AreGroups (pairs_in fields.now) result }
    ensures kept { scratch.new ≡ scratch.old }
{
    match extract_essence(scratch, fields) {
        Some(essence) => groups_of(&essence),
        None => Groups::NONE,
    }
}

/// The groups of a type.
fn groups_of(essence: &Essence) -> Groups
    ensures { result ≡ groups_of (Some (main_of essence.now, sub_of essence.now)) }
{
    let html = is_html(essence);
    let json = is_json(essence);
    let xml = is_xml(essence);
    Groups {
        typed: true,
        safelisted: is_safelisted(essence),
        never_sniffed: is_never_sniffed(essence),
        blocklisted: html || json || xml,
        plain_text: is_text_plain(essence),
        html,
        xml,
        json,
        media: is_media(essence),
    }
}
