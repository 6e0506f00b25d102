//! The test of a JSON text that comes in pieces.
//!
//! **What it is made of.** A decoder, which gives the characters of the bytes, and a machine over them. Bytes below 128 go
//! to the machine at once where the decoder has nothing pending.
//!
//! **Why it looks ahead in a string.** Bytes before an ASCII character are characters by themselves, and in a string all but three
//! kinds of character stand for themselves. So those from 128 on are passed there without being decoded.
ghost use Rattle.std.specs.Prelude.{◌≡◌, ◌<◌, ◌≤◌, ◌↔◌, ◌&&◌, not, nat_lt, ◌∷◌, ◌++◌, [], ℕ, List, IsTrue, true, length, take};
ghost use Rattle.text_stream.specs.Decoder.{CanDecode, is_pending};
ghost use Rattle.text_stream.specs.Decoding.{characters_of};
ghost use Rattle.json_recogniser.specs.Grammar.{IsJson};

use crate::machine::Machine;
use crate::runs::text_length;
use text_stream::Decoder;

/// Reads bytes in whatever pieces they come, and tells whether they are a JSON text of at most 1,024 levels. It has a fixed
/// size: one mark for each bracket that is open.
#[derive(Drop)]
pub struct JsonTest {
    decoder: Decoder,
    machine: Machine,
    ghost decodes: { CanDecode decoder },
}

impl JsonTest {
    ghost use Rattle.json_recogniser.specs.JsonTest.{HasRead, Reads, is_dead};

    /// A test that has read nothing.
    pub fn new() -> JsonTest
        ensures { HasRead result [] }
    {
        JsonTest {
            decoder: Decoder::new(),
            machine: Machine::new(),
        }
    }

    /// Reads a piece.
    pub fn feed(&mut self, piece: &[u8])
        ensures reads { (bytes : List ℕ) → HasRead self.old bytes → HasRead self.new (bytes ++ piece.now) }
        ensures stays_dead { is_dead self.old ≡ true → is_dead self.new ≡ true }
    {
        let mut rest = piece;
        'bytes: while !self.is_dead() {
            let left = rest.split_at(self.feed_ascii(rest)).1;
            if left.is_empty() {
                return;
            }
            rest = left.split_at(self.feed_others(left)).1;
        }
    }

    /// Whether the bytes are a JSON text.
    pub fn finish(&self) -> bool
        ensures { (bytes : List ℕ) → HasRead self.now bytes → IsTrue result ↔ IsJson (characters_of bytes) }
    {
        let mut machine = self.machine.copy();
        machine.take_all(self.decoder.ending().as_slice());
        machine.is_whole()
    }

    /// Whether the bytes are no JSON text, whatever follows. It stays so for good.
    pub fn is_dead(&self) -> bool
        ensures value { result ≡ is_dead self.now }
        ensures never { (bytes more : List ℕ) → HasRead self.now bytes → IsTrue result → ¬ IsJson (characters_of (bytes ++ more)) }
    {
        self.machine.is_dead()
    }

    /// Reads the ASCII characters at the beginning of the piece, where nothing is pending, and says how many these are.
    #[inline]
    fn feed_ascii(&mut self, piece: &[u8]) -> usize
        ensures within { result ≤ length piece.now }
        ensures reads { (bytes : List ℕ) → Reads self.old bytes → Reads self.new (bytes ++ take result piece.now) }
    {
        if self.decoder.is_pending() {
            0
        } else {
            self.machine.take_ascii(piece)
        }
    }

    /// Reads the byte at the beginning of the piece, in a string those up to an ASCII character that ends it or may, and says how
    /// many these are.
    #[inline(never)]
    fn feed_others(&mut self, piece: &[u8]) -> usize
        requires { 0 < length piece.now }
        ensures some { 0 < result }
        ensures within { result ≤ length piece.now }
        ensures reads { (bytes : List ℕ) → Reads self.old bytes → Reads self.new (bytes ++ take result piece.now) }
    {
        if self.decoder.is_pending() || !self.machine.is_in_text() {
            self.feed_byte(piece[0]);
            return 1;
        }
        let run = text_length(piece);
        if run < piece.len() {
            self.machine.take(piece[run] as char);
            run + 1
        } else {
            self.feed_all(piece);
            run
        }
    }

    /// Reads the bytes, one after the other.
    fn feed_all(&mut self, bytes: &[u8])
        ensures { (before : List ℕ) → Reads self.old before → Reads self.new (before ++ bytes.now) }
    {
        for b in bytes {
            self.feed_byte(*b);
        }
    }

    /// Reads a byte.
    fn feed_byte(&mut self, b: u8)
        ensures { (bytes : List ℕ) → Reads self.old bytes → Reads self.new (bytes ++ b ∷ []) }
    {
        if self.is_character(b) {
            self.machine.take(b as char);
        } else {
            let given = self.decoder.feed_byte(b);
            self.machine.take_all(given.as_slice());
        }
    }

    /// Whether the byte is a character by itself.
    fn is_character(&self, b: u8) -> bool
        ensures { result ≡ (nat_lt b 128 && not (is_pending self.now.decoder)) }
    {
        b < 128 && !self.decoder.is_pending()
    }
}
