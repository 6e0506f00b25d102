//! Plain text and binary data.
ghost use Rattle.std.specs.Prelude.{◌≡◌, ◌≤◌, length, bytes_eq};
ghost use Rattle.std.specs.List.{list_any};
ghost use Rattle.header_values.specs.Fields.{AreOfHead, pairs_in};
ghost use Rattle.computed_type.specs.Plain.{is_binary_byte, has_binary_byte as has_binary, begins_with_mark as is_marked};
ghost use Rattle.computed_type.specs.Plain.{text_or_binary as type_of_text, is_default_plain as states_default};

use header_values::{Fields, Scratch};

/// What servers have written without knowing the type (WHATWG MIME Sniffing 5.1). None has a comma, so that no two values
/// are one of them when they are joined.
const DEFAULTS: [&[u8]; 4] = [
    b"text/plain",
    b"text/plain; charset=ISO-8859-1",
    b"text/plain; charset=iso-8859-1",
    b"text/plain; charset=UTF-8",
];

/// Whether a byte of the window is a binary data byte (WHATWG MIME Sniffing 3).
pub(crate) fn has_binary_byte(window: &[u8]) -> bool
    ensures { result ≡ has_binary window.now }
{
    window.iter().any(|b| is_binary(*b))
}

/// Whether the byte is a binary data byte: 00 to 08, 0B, 0E to 1A, or 1C to 1F.
fn is_binary(b: u8) -> bool
    ensures { result ≡ is_binary_byte b }
{
    matches!(b, 0x00..=0x08 | 0x0b | 0x0e..=0x1a | 0x1c..=0x1f)
}

/// Whether the window begins with the byte order mark of UTF-16 or UTF-8.
pub(crate) fn begins_with_mark(window: &[u8]) -> bool
    ensures { result ≡ is_marked window.now }
{
    window.starts_with(b"\xfe\xff")
        || window.starts_with(b"\xff\xfe")
        || window.starts_with(b"\xef\xbb\xbf")
}

/// `text/plain`, or `application/octet-stream` where the window is binary data (WHATWG MIME Sniffing 7.2).
#[tactic(auto, unfolding(crate::specs::Plain::text_or_binary))]
pub(crate) fn text_or_binary(window: &[u8]) -> &'static [u8]
    ensures { result.now ≡ type_of_text window.now }
{
    if begins_with_mark(window) || !has_binary_byte(window) {
        b"text/plain"
    } else {
        b"application/octet-stream"
    }
}

/// Whether there is one Content-Type field and its value is one that servers write without knowing the type
/// (WHATWG MIME Sniffing 5.1).
pub(crate) fn is_default_plain(fields: &Fields, scratch: &mut Scratch) -> bool
    requires fields { AreOfHead fields.now }
    requires room { length fields.now.head.now ≤ scratch.old }
    ensures value { result ≡ states_default (pairs_in fields.now) }
    ensures kept { scratch.new ≡ scratch.old }
{
    match scratch.join(fields, b"Content-Type") {
        Some(value) => is_one_of(value, &DEFAULTS),
        None => false,
    }
}

/// Whether it is one of the values.
fn is_one_of(value: &[u8], values: &[&[u8]]) -> bool
    ensures { result ≡ list_any (λ v. bytes_eq value.now v.now) values.now }
{
    values.iter().any(|v| value == *v)
}
