//! Which bytes are scripts, in whatever pieces they come.
ghost use Rattle.std.specs.Prelude.{◌≡◌, ◌≤◌, ◌++◌, ◌∷◌, [], ℕ, List, true, IsTrue, ◌↔◌, length, take};
ghost use Rattle.text_stream.specs.Decoder.{CanDecode};

use crate::scripts::ScriptReader;
use text_stream::Decoder;

/// Reads the bytes of a body, and says whether they are a script (ECMA-262 5.1, section 14). It has a fixed size, takes
/// no memory and has no error.
#[derive(Drop)]
pub struct ScriptTest {
    decoder: Decoder,
    reader: ScriptReader,
    ghost decodes: { CanDecode decoder },
}

impl ScriptTest {
    ghost use Rattle.es5_machine.specs.Scripts.{IsScript};
    ghost use Rattle.es5_machine.specs.ScriptTests.{HasRead, is_dead};

    /// A test that has read nothing.
    pub fn new() -> ScriptTest
        ensures { HasRead result [] }
    {
        ScriptTest {
            decoder: Decoder::new(),
            reader: ScriptReader::new(),
        }
    }

    /// Reads the next piece. Once nothing can make a script of the bytes, it isn't looked at.
    pub fn feed(&mut self, piece: &[u8])
        ensures reads { (m : List ℕ) → HasRead self.old m → HasRead self.new (m ++ piece.now) }
        ensures dead { is_dead self.old ≡ true → is_dead self.new ≡ true }
    {
        let mut rest = piece;
        'bytes: while !self.reader.is_dead() {
            match rest.split_at(self.feed_run(rest)).1 {
                [] => return,
                [b, others @ ..] => {
                    self.read_byte(*b);
                    rest = others;
                }
            }
        }
    }

    /// Whether nothing can make a script of the bytes, whatever follows them. Once it is so, it stays so.
    pub fn is_dead(&self) -> bool
        ensures state { result ≡ is_dead self.now }
        ensures hopeless { IsTrue result → (m w : List ℕ) → HasRead self.now m → IsScript (m ++ w) → ⊥ }
    {
        self.reader.is_dead()
    }

    /// Whether the bytes are a script. What the test has read then, nothing says.
    pub fn finish(&mut self) -> bool
        ensures { (m : List ℕ) → HasRead self.old m → (IsTrue result ↔ IsScript m) }
    {
        let last = self.decoder.ending();
        self.reader.feed_all(last.as_slice());
        self.reader.finish()
    }
}

impl ScriptTest {
    ghost use Rattle.es5_machine.specs.ScriptTests.{Reads, is_dead as is_lost};

    /// Reads the bytes at the beginning of the piece that neither end a token nor begin one, as in a comment, a string or a
    /// name, and says how many these are; those after them may be so too.
    #[inline]
    fn feed_run(&mut self, piece: &[u8]) -> usize
        ensures within { result ≤ length piece.now }
        ensures reads { (m : List ℕ) → Reads self.old m → Reads self.new (m ++ take result piece.now) }
        ensures dead { is_lost self.new ≡ is_lost self.old }
    {
        if self.decoder.is_pending() {
            0
        } else {
            self.reader.feed_run(piece)
        }
    }

    /// Reads a byte: most are characters of their own.
    fn read_byte(&mut self, b: u8)
        ensures reads { (m : List ℕ) → Reads self.old m → Reads self.new (m ++ b ∷ []) }
        ensures dead { is_lost self.old ≡ true → is_lost self.new ≡ true }
    {
        if b < 128 && !self.decoder.is_pending() {
            self.reader.feed_char(b as char);
        } else {
            self.decode(b);
        }
    }

    /// Reads a byte through the decoder.
    #[inline(never)]
    fn decode(&mut self, b: u8)
        ensures reads { (m : List ℕ) → Reads self.old m → Reads self.new (m ++ b ∷ []) }
        ensures dead { is_lost self.old ≡ true → is_lost self.new ≡ true }
    {
        let characters = self.decoder.feed_byte(b);
        self.reader.feed_all(characters.as_slice());
    }
}
