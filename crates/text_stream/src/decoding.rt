//! The characters of bytes (The Unicode Standard, Table 3-7), a whole text at a time.
//!
//! `bstr` reads the one character at the beginning of some bytes. Its own way of reading a whole text
//! isn't taken, because that gives one U+FFFD for as much of a broken sequence as could have been
//! one, where the definition gives one for each byte.
ghost use Rattle.std.specs.Prelude.{◌≡◌, ◌+◌, ◌<◌, ◌≤◌, ◌∷◌, ◌++◌, [], IfOk, length, vec_len, vec_capacity};
ghost use Rattle.bstr.specs.Utf8.{decoded, or_replacement};
ghost use Rattle.text_stream.specs.Decoding.{characters_after, characters_of, further_bytes, without_mark};

use bstr::decode_utf8;
use std::alloc::Global;

/// Want of memory.
#[derive(Clone, Copy, Debug, PartialEq, Eq)]
pub struct NoMemory;

/// EF BB BF (The Unicode Standard, 23.8).
pub const BYTE_ORDER_MARK: &[u8] = b"\xEF\xBB\xBF";

/// The characters of the bytes. [`NoMemory`] where there is no memory for one character a byte.
#[tactic(auto, unfolding(crate::specs::Decoding::characters_of))]
pub fn decode_slice(alloc: Global, bytes: &[u8]) -> Result<Vec<char>, NoMemory>
    ensures { IfOk result (λ text. text.items ≡ characters_of bytes.now) }
{
    match Vec::with_capacity(alloc, bytes.len()) {
        Ok(mut text) => {
            append_characters(&mut text, without_mark(bytes));
            Ok(text)
        }
        Err(_) => Err(NoMemory),
    }
}

/// The bytes without one byte order mark at their beginning.
fn without_mark(bytes: &[u8]) -> &[u8]
    ensures value { result.now ≡ without_mark bytes.now }
    ensures within { length result.now ≤ length bytes.now }
{
    if bytes.starts_with(BYTE_ORDER_MARK) {
        &bytes[BYTE_ORDER_MARK.len()..]
    } else {
        bytes
    }
}

/// Appends the characters of the bytes, for which there is room.
fn append_characters(text: &mut Vec<char>, bytes: &[u8])
    requires { vec_len text.old + length bytes.now ≤ vec_capacity text.old }
    ensures { text.new.items ≡ text.old.items ++ characters_after 0 bytes.now }
{
    let mut rest = bytes;
    'reading: while !rest.is_empty() {
        let (c, size) = first_character(rest);
        append(text, c);
        rest = rest.split_at(size).1;
    }
}

/// The character at the beginning of the bytes, and how many of them it takes.
pub fn first_character(bytes: &[u8]) -> (char, usize)
    requires { 0 < length bytes.now }
    ensures character { result.0 ≡ or_replacement (decoded bytes.now).char }
    ensures size { result.1 ≡ further_bytes (decoded bytes.now) + 1 }
    ensures within { result.1 ≤ length bytes.now }
{
    match decode_utf8(bytes) {
        (Some(c), size) => (c, size),
        (None, _) => (char::REPLACEMENT_CHARACTER, 1),
    }
}

/// Appends the character, for which there is room.
fn append(text: &mut Vec<char>, c: char)
    requires { vec_len text.old < vec_capacity text.old }
    ensures items { text.new.items ≡ text.old.items ++ (c ∷ []) }
    ensures len { vec_len text.new ≡ vec_len text.old + 1 }
    ensures capacity { vec_capacity text.old ≤ vec_capacity text.new }
{
    match text.push(c) {
        Ok(()) => {}
        Err(_) => unreachable!(),
    }
}

#[cfg(test)]
mod tests {
    use super::*;
    use std::test::Fail;

    /// Bytes, and the characters that they are.
    const ROWS: [(&[u8], &[char]); 21] = [
        (b"", &[]),
        (b"a\0\x7f", &['a', '\0', '\u{7F}']),
        (b"\xC3\xA9\xE2\x80\xA8", &['\u{E9}', '\u{2028}']),
        (b"\xF0\x9F\x98\x80", &['\u{1F600}']),
        (b"\xF4\x8F\xBF\xBF\xEF\xBF\xBD", &['\u{10FFFF}', '\u{FFFD}']),
        // one byte order mark is dropped
        (b"\xEF\xBB\xBFa", &['a']),
        (b"\xEF\xBB\xBF1", &['1']),
        (b"\xEF\xBB\xBF", &[]),
        (b"\xEF\xBB\xBF\xEF\xBB\xBF1", &['\u{FEFF}', '1']),
        (b"a\xEF\xBB\xBF", &['a', '\u{FEFF}']),
        // sequences that break off
        (b"\xF0\x9F\x98A", &['\u{FFFD}', '\u{FFFD}', '\u{FFFD}', 'A']),
        (b"\xEF\xBB", &['\u{FFFD}', '\u{FFFD}']),
        (b"\xE2\x80\xC3\xA9", &['\u{FFFD}', '\u{FFFD}', '\u{E9}']),
        // bytes that begin nothing
        (b"\x80a\xBF", &['\u{FFFD}', 'a', '\u{FFFD}']),
        (b"\xF5\xFF", &['\u{FFFD}'; 2]),
        // overlong forms
        (b"\xC0\x80", &['\u{FFFD}'; 2]),
        (b"\xE0\x9F\xBF", &['\u{FFFD}'; 3]),
        (b"\xF0\x8F\xBF\xBF", &['\u{FFFD}'; 4]),
        // a surrogate, and what is past the last code point
        (b"\xED\xA0\x80", &['\u{FFFD}'; 3]),
        (b"\xED\x9F\xBF", &['\u{D7FF}']),
        (b"\xF4\x90\x80\x80", &['\u{FFFD}'; 4]),
    ];

    #[test]
    fn bytes_are_read_as_characters(rt: HostRuntime) -> Result<(), Fail> {
        for (bytes, characters) in ROWS {
            let text = decode_slice(rt.alloc(), bytes)?;
            assert!(rt; text.as_slice() == characters, "{bytes:?}");
        }
        Ok(())
    }
}
