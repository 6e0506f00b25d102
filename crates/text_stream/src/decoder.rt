//! The characters of bytes that come one after the other.
//!
//! **What it keeps.** At most three bytes are pending. The character at the beginning of a text hangs on its first four bytes
//! alone (Table 3-7), so a fourth byte always settles one, and often an earlier byte does. Before the first
//! character the bytes of a byte order mark are pending too, until they are one or none.
//!
//! **Why a broken sequence waits.** `bstr` says of fewer than four bytes that no character stands there, and not
//! whether one may still come. So what isn't a character yet waits for the fourth byte, and only then reads as U+FFFD.
ghost use Rattle.std.specs.Prelude.{◌≡◌, ◌≢◌, ◌+◌, ◌<◌, ◌≤◌, ◌∷◌, ◌++◌, [], ℕ, List, false, length, take, drop, MatchOption};
ghost use Rattle.text_stream.specs.Decoding.{characters_after, characters_of};
ghost use Rattle.text_stream.specs.declared.decoder.Stage.TheVariants.{Finished};
ghost use Rattle.text_stream.specs.DecoderStages.{most_pending};

use crate::decoding::{BYTE_ORDER_MARK, first_character};
use arrayvec::ArrayVec;
use bstr::decode_utf8;

/// Where a decoder stands in its text.
#[derive(Clone, Copy, Debug, PartialEq, Eq)]
enum Stage {
    /// At the beginning, where a byte order mark may stand.
    Start,
    /// Past it.
    Within,
    /// After the end.
    Finished,
}

/// Reads bytes as characters, in whatever pieces they come. It has a fixed size.
#[derive(Drop)]
pub struct Decoder {
    stage: Stage,
    pending: ArrayVec<u8, 4>,
    ghost few: { length pending.items ≤ most_pending stage },
}

impl Decoder {
    ghost use Rattle.text_stream.specs.Decoder.{CanDecode, HasRead, PassesAscii, PassesText, is_pending};

    /// A decoder that has read nothing.
    pub fn new() -> Decoder
        ensures reads { HasRead result [] [] }
        ensures can { CanDecode result }
    {
        Decoder {
            stage: Stage::Start,
            pending: ArrayVec::new(),
        }
    }

    /// Reads a byte, and gives the characters that it settles.
    pub fn feed_byte(&mut self, b: u8) -> ArrayVec<char, 4>
        requires { CanDecode self.old }
        ensures reads { (bytes given : List ℕ) → HasRead self.old bytes given → HasRead self.new (bytes ++ b ∷ []) (given ++ result.items) }
        ensures can { CanDecode self.new }
    {
        let mut given = ArrayVec::new();
        self.pending.push(b);
        if self.stage == Stage::Start && BYTE_ORDER_MARK.starts_with(self.pending.as_slice()) {
            if self.pending.len() == BYTE_ORDER_MARK.len() {
                self.pending.clear();
                self.stage = Stage::Within;
            }
            return given;
        }
        self.stage = Stage::Within;
        settle(&mut self.pending, &mut given);
        given
    }

    /// The characters of the bytes that are pending at the end. After it the decoder takes no more calls.
    pub fn finish(&mut self) -> ArrayVec<char, 3>
        requires { CanDecode self.old }
        ensures value { (bytes given : List ℕ) → HasRead self.old bytes given → given ++ result.items ≡ characters_of bytes }
        ensures none { (bytes given : List ℕ) → ¬ HasRead self.new bytes given }
    {
        let given = self.ending();
        self.pending.clear();
        self.stage = Stage::Finished;
        given
    }

    /// The characters of the bytes that are pending, if these are the last.
    pub fn ending(&self) -> ArrayVec<char, 3>
        ensures { (bytes given : List ℕ) → HasRead self.now bytes given → given ++ result.items ≡ characters_of bytes }
    {
        read_all(self.pending.as_slice())
    }

    /// Whether some bytes are pending, or the text hasn't begun. Where it is false, a byte below 128 is its character, and
    /// bytes before one are the characters that they are by themselves.
    #[inline]
    pub fn is_pending(&self) -> bool
        ensures value { result ≡ is_pending self.now }
        ensures passes { result ≡ false → PassesAscii self.now }
        ensures text { result ≡ false → PassesText self.now }
    {
        match self.stage {
            Stage::Within => !self.pending.is_empty(),
            Stage::Start | Stage::Finished => true,
        }
    }
}

/// Gives the characters at the beginning of the bytes that are settled, whatever follows.
fn settle(pending: &mut ArrayVec<u8, 4>, given: &mut ArrayVec<char, 4>)
    requires { length given.old.items + length pending.old.items ≤ 4 }
    ensures reads { (more : List ℕ) → given.old.items ++ characters_after 0 (pending.old.items ++ more)
        ≡ given.new.items ++ characters_after 0 (pending.new.items ++ more) }
    ensures few { length pending.new.items ≤ 3 }
{
    'settling: while let Some((c, size)) = settled_character(pending.as_slice()) {
        given.push(c);
        *pending = without_first(pending, size);
    }
}

/// The bytes without the first ones, so many.
fn without_first(bytes: &ArrayVec<u8, 4>, size: usize) -> ArrayVec<u8, 4>
    requires { size ≤ length bytes.now.items }
    ensures { result.items ≡ drop size bytes.now.items }
{
    let mut rest = ArrayVec::new();
    let _ = rest.try_extend_from_slice(bytes.as_slice().split_at(size).1);
    rest
}

/// The character at the beginning of at most four bytes, and how many of them it takes, where it is settled whatever follows.
fn settled_character(bytes: &[u8]) -> Option<(char, usize)>
    requires { length bytes.now ≤ 4 }
    ensures { MatchOption result (length bytes.now ≤ 3) (λ first. (0 < first.1) × (first.1 ≤ length bytes.now)
        × ((more : List ℕ) → characters_after 0 (bytes.now ++ more) ≡ first.0 ∷ characters_after 0 (drop first.1 bytes.now ++ more))) }
{
    match decode_utf8(bytes) {
        (Some(c), size) => Some((c, size)),
        (None, _) if bytes.len() == 4 => Some((char::REPLACEMENT_CHARACTER, 1)),
        (None, _) => None,
    }
}

/// The characters of at most three bytes at the end of a text.
fn read_all(bytes: &[u8]) -> ArrayVec<char, 3>
    requires { length bytes.now ≤ 3 }
    ensures { result.items ≡ characters_after 0 bytes.now }
{
    let mut given = ArrayVec::new();
    let mut rest = bytes;
    'reading: while !rest.is_empty() {
        let (c, size) = first_character(rest);
        given.push(c);
        rest = rest.split_at(size).1;
    }
    given
}

#[cfg(test)]
mod tests {
    use super::*;
    use crate::decoding::decode_slice;
    use std::alloc::{AllocError, Global};
    use std::test::Fail;

    /// Bytes with marks, broken sequences, overlong forms and surrogates.
    const TEXTS: [&[u8]; 16] = [
        b"",
        b"a\0\x7f",
        b"\xC3\xA9\xE2\x80\xA8\xF0\x9F\x98\x80",
        b"\xEF\xBB\xBFa",
        b"\xEF\xBB\xBF",
        b"\xEF\xBB\xBF\xEF\xBB\xBF1",
        b"a\xEF\xBB\xBF",
        b"\xEF",
        b"\xEF\xBB",
        b"\xEF\xBBa",
        b"\xF0\x9F\x98A",
        b"\xE2\x80\xC3\xA9",
        b"\x80a\xBF",
        b"\xE0\x9F\xBF\xED\xA0\x80",
        b"\xF4\x90\x80\x80\xF4\x8F\xBF\xBF",
        b"\xF0\xF0\x9F\x98\x80\xF0\x9F",
    ];

    /// The characters that a decoder gives of the bytes, one after the other.
    fn decoded(alloc: Global, bytes: &[u8]) -> Result<Vec<char>, AllocError> {
        let mut decoder = Decoder::new();
        let mut text = Vec::new(alloc);
        'bytes: for b in bytes {
            if *b < 128 && !decoder.is_pending() {
                text.push(*b as char)?;
            } else {
                text.extend_from_slice(decoder.feed_byte(*b).as_slice())?;
            }
        }
        text.extend_from_slice(decoder.finish().as_slice())?;
        Ok(text)
    }

    #[test]
    fn bytes_read_one_by_one_as_whole(rt: HostRuntime) -> Result<(), Fail> {
        for bytes in TEXTS {
            let whole = decode_slice(rt.alloc(), bytes)?;
            assert!(rt;
                decoded(rt.alloc(), bytes)?.as_slice() == whole.as_slice(),
                "{bytes:?}"
            );
        }
        Ok(())
    }

    #[test]
    fn long_texts_read_one_by_one_as_whole(rt: HostRuntime) -> Result<(), Fail> {
        let mut bytes = b"\xEF\xBB\xBF".to_vec(rt.alloc())?;
        for _ in 0..9_090 {
            bytes.extend_from_slice(b"a\xC3\xA9\xE2\x80\xA8\xF0\x9F\x98\x80\xFF")?;
        }
        bytes.extend_from_slice(b"to here")?;
        assert_eq!(rt; bytes.len(), 100_000);
        let whole = decode_slice(rt.alloc(), &bytes)?;
        assert_eq!(rt; whole.len(), 45_457);
        assert!(rt; decoded(rt.alloc(), &bytes)?.as_slice() == whole.as_slice());
        Ok(())
    }
}
