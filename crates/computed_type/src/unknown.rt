//! The type of a body of which nothing is stated (WHATWG MIME Sniffing 7.1).
ghost use Rattle.std.specs.Prelude.{◌≡◌, codes};
ghost use Rattle.computed_type.specs.Unknown.{first_of as first_that_applies, unknown_type as type_of_unknown, begins_with_html as shows_html};
ghost use Rattle.corb_sniffers.specs.Values.{begins_with_tag as begins_with_tag_of};

use crate::names::{image_essence, media_essence};
use crate::plain::{begins_with_mark, has_binary_byte};
use corb_sniffers::{begins_with_tag, sniffs_xml};
use orb_bytes::{eq_ignore_case, first_bytes, is_tag_end, trim_whitespace_start};
use signatures::{image_type, media_type};

/// Whether the rule applies, and the essence that it gives, if it gives one.
pub(crate) type Rule = (bool, Option<&'static [u8]>);

/// The essence that the first rule that applies gives, if it gives one.
#[tactic(auto, unfolding(crate::specs::Unknown::first_of))]
pub(crate) fn first_of(rules: &[Rule]) -> Option<&'static [u8]>
    ensures { result ≡ first_that_applies rules.now }
{
    let (_, essence) = rules.iter().find(|(applies, _)| *applies)?;
    *essence
}

/// The essence of a window of which nothing is stated. A type that may run scripts is given only where the response lets
/// types be guessed.
#[tactic(auto, unfolding(crate::specs::Unknown::unknown_type, crate::specs::Unknown::unknown_rules))]
pub(crate) fn unknown_type(nosniff: bool, window: &[u8]) -> &'static [u8]
    ensures { result.now ≡ type_of_unknown nosniff window.now }
{
    let guessed = !nosniff;
    first_of(&[
        (guessed & begins_with_html(window), Some(b"text/html")),
        (guessed & sniffs_xml(window), Some(b"text/xml")),
        (
            guessed & window.starts_with(b"%PDF-"),
            Some(b"application/pdf"),
        ),
        (
            window.starts_with(b"%!PS-Adobe-"),
            Some(b"application/postscript"),
        ),
        (begins_with_mark(window), Some(b"text/plain")),
        (image_type(window).is_some(), image_essence(window)),
        (media_type(window).is_some(), media_essence(window)),
        (
            window.starts_with(b"\x1f\x8b\x08"),
            Some(b"application/x-gzip"),
        ),
        (window.starts_with(b"PK\x03\x04"), Some(b"application/zip")),
        (!has_binary_byte(window), Some(b"text/plain")),
    ])
    .unwrap_or(b"application/octet-stream")
}

/// Whether the window begins, after its leading white space, with a tag that shows HTML, the beginning of a comment among
/// them, and a byte that ends it.
fn begins_with_html(window: &[u8]) -> bool
    ensures { result ≡ shows_html window.now }
{
    let text = trim_whitespace_start(window);
    begins_with_comment(text) || begins_with_tag(text)
}

/// Whether the text begins with the beginning of a comment and a byte that ends a tag.
fn begins_with_comment(text: &[u8]) -> bool
    ensures { result ≡ begins_with_tag_of text.now (codes "<!--") }
{
    eq_ignore_case(first_bytes(text, 4), b"<!--") && text.get(4).is_some_and(|b| is_tag_end(*b))
}
