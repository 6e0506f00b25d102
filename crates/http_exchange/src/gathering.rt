//! A head gathered from pieces, up to its limit.
//!
//! What is looked through of a piece is the piece alone, and the seam of it and the last three bytes before it,
//! so that a head that comes byte by byte costs no more than its length.
ghost use Rattle.std.specs.Prelude.{◌≡◌, ◌≤◌, length, None};
ghost use Rattle.http_exchange.specs.Head.{head_length};
ghost use Rattle.http_exchange.specs.Gathering.{EndsAfter};

use crate::ends::head_end;
use arrayvec::ArrayVec;
use orb_bytes::{append, extend, first_bytes, last_bytes};
use orb_io::NoMemory;
use std::alloc::Global;
use std::marker::Model;

/// The most bytes of a head.
const HEAD: usize = 65_536;

/// What became of a piece.
#[derive(Clone, Copy, Debug, PartialEq, Eq)]
pub enum HeadTaken {
    /// All of it belongs to the head, which goes on.
    Open,
    /// The head is longer than a head may be.
    Long,
    /// So many bytes of it complete the head.
    Whole { used: usize },
}

/// The bytes of a head that have come. To a contract it is those bytes.
#[derive(Drop)]
pub struct HeadReader {
    bytes: Vec<u8>,
}

impl Model for HeadReader {
    ghost use Rattle.std.specs.Prelude.{ℕ, List, ◌≤◌, vec_len, vec_capacity};

    ghost Value = { List ℕ };

    ghost view = { λ b. b.bytes.items };

    ghost invariant = { λ b. (vec_len b.bytes ≤ 65536) × (65536 ≤ vec_capacity b.bytes) };
}

impl HeadReader {
    ghost use Rattle.std.specs.Prelude.{[], IfOk};
    ghost use Rattle.http_exchange.specs.HeadTexts.{IsOpenHead};
    ghost use Rattle.http_exchange.specs.Gathering.{TakesHead};

    /// Reserves room for a head.
    pub fn open(alloc: Global) -> Result<HeadReader, NoMemory>
        ensures { IfOk result (λ b. b ≡ []) }
    {
        match Vec::with_capacity(alloc, HEAD) {
            Ok(bytes) => Ok(HeadReader { bytes }),
            Err(_) => Err(NoMemory),
        }
    }

    /// Forgets the bytes.
    pub fn clear(&mut self)
        ensures { self.new ≡ [] }
    {
        self.bytes.clear();
    }

    /// The bytes.
    pub fn as_slice(&self) -> &[u8]
        ensures value { result.now ≡ self.now }
        ensures fits { length result.now ≤ 65536 }
    {
        self.bytes.as_slice()
    }

    /// Takes the bytes of the piece that belong to the head: up to the end of its first empty line (RFC 9112 2.1),
    /// or as many as a head may have.
    #[tactic(auto, unfolding(crate::specs::HeadTexts::head_limit))]
    pub fn take(&mut self, piece: &[u8]) -> HeadTaken
        requires { IsOpenHead self.old }
        ensures { TakesHead self.old self.new piece.now result }
    {
        let first = first_bytes(piece, HEAD - self.bytes.len());
        match end_after(self.bytes.as_slice(), first) {
            Some(used) => {
                append(&mut self.bytes, first.split_at(used).0);
                HeadTaken::Whole { used }
            }
            None => {
                append(&mut self.bytes, first);
                if self.bytes.len() == HEAD {
                    HeadTaken::Long
                } else {
                    HeadTaken::Open
                }
            }
        }
    }
}

/// How many bytes of the piece there are up to the end of the first empty line of the text and the piece;
/// the text has none.
fn end_after(text: &[u8], piece: &[u8]) -> Option<usize>
    requires { head_length text.now ≡ None }
    ensures { EndsAfter text.now piece.now result }
{
    if text.is_empty() {
        return head_end(piece);
    }
    let before = last_bytes(text, 3);
    let mut seam: ArrayVec<u8, 6> = ArrayVec::new();
    extend(&mut seam, before);
    extend(&mut seam, first_bytes(piece, 3));
    match head_end(seam.as_slice()) {
        Some(end) => Some(end - before.len()),
        None => head_end(piece),
    }
}
