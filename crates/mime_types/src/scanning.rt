//! Cuts of a text where a class of bytes begins or ends, and tests of whole texts.
ghost use Rattle.std.specs.Prelude.{◌≡◌, ◌==◌, true, not, ◌∷◌, ◌++◌, IfSome, IfNone, IfOk};
ghost use Rattle.std.specs.List.{list_all};
ghost use Rattle.std.specs.Str.{str_to_ascii_lowercase};
ghost use Rattle.mime_types.specs.Mime.{is_name_byte, is_token as is_token_text};
ghost use Rattle.mime_types.specs.Spans.{begins_outside, Spans};
ghost use Rattle.orb_bytes.specs.Bytes.{AllPass};
ghost use Rattle.orb_bytes.specs.Bytes.{is_token_byte, is_quoted_token_byte};

use memchr::{memchr, memchr2};
use orb_bytes::{is_quoted_token, is_token, lower};
use std::alloc::{AllocError, Global};

/// The text before the first such byte, and after it; `None` exactly where there is none.
pub(crate) fn split_once(stop: u8, text: &[u8]) -> Option<(&[u8], &[u8])>
    ensures cut { IfSome result (λ x. text.now ≡ x.0.now ++ (stop ∷ x.1.now)) }
    ensures first { IfSome result (λ x. AllPass (λ b. not (b == stop)) x.0.now) }
    ensures none { IfNone result (AllPass (λ b. not (b == stop)) text.now) }
{
    let place = memchr(stop, text)?;
    Some((&text[..place], &text[place + 1..]))
}

/// The text after the byte, where it begins with it.
pub(crate) fn strip_byte(byte: u8, text: &[u8]) -> Option<&[u8]>
    ensures found { IfSome result (λ x. text.now ≡ byte ∷ x.now) }
    ensures none { IfNone result (begins_outside (λ b. b == byte) text.now ≡ true) }
{
    match text.split_first() {
        Some((first, after)) if *first == byte => Some(after),
        _ => None,
    }
}

/// The text up to the first such byte, and from it on.
pub(crate) fn split_before(stop: u8, text: &[u8]) -> (&[u8], &[u8])
    ensures { Spans (λ b. not (b == stop)) text.now result.0.now result.1.now }
{
    let place = memchr(stop, text).unwrap_or(text.len());
    text.split_at(place)
}

/// The name at the beginning of the text, up to the first `;` or `=`, and from there on.
pub(crate) fn split_name(text: &[u8]) -> (&[u8], &[u8])
    ensures { Spans is_name_byte text.now result.0.now result.1.now }
{
    let place = memchr2(b';', b'=', text).unwrap_or(text.len());
    text.split_at(place)
}

/// Whether the text is an HTTP token code point or more of them.
pub(crate) fn is_nonempty_token(text: &[u8]) -> bool
    ensures { result ≡ is_token_text text.now }
{
    !text.is_empty() && are_token_bytes(text)
}

/// Whether each byte is an HTTP token code point.
pub(crate) fn are_token_bytes(text: &[u8]) -> bool
    ensures { result ≡ list_all is_token_byte text.now }
{
    text.iter().all(|b| is_token(*b))
}

/// Whether each byte is an HTTP quoted-string token code point.
pub(crate) fn are_quoted_token_bytes(text: &[u8]) -> bool
    ensures { result ≡ list_all is_quoted_token_byte text.now }
{
    text.iter().all(|b| is_quoted_token(*b))
}

/// The text in ASCII lowercase.
pub(crate) fn lowered(alloc: Global, text: &[u8]) -> Result<Vec<u8>, AllocError>
    ensures { IfOk result (λ v. v.items ≡ str_to_ascii_lowercase text.now) }
{
    text.iter().map(|b| lower(*b)).collect(alloc)
}
