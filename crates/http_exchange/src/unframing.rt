//! The content of a body, out of the bytes in which it is sent (RFC 9112 6 and 7.1).
//!
//! An [`Unframer`] reads a body in pieces, cut anywhere, and gives the content as slices of the
//! pieces: nothing is copied, and one answer has a whole run of content.
ghost use Rattle.std.specs.Prelude.{◌≡◌, ℕ, List, [], ◌↔◌, IsTrue};

use crate::frames::BodyFrame;
use crate::pieces::{Taken, prefix_of, take_chunks};
use crate::places::Place;
use std::marker::Model;

/// How a body goes on.
#[derive(Clone, Copy)]
pub(crate) enum Reading {
    /// By so many bytes.
    Counted { left: u64 },
    /// As a chunked body from this place on.
    Chunks(Place),
    /// To the end of the input.
    Rest,
}

/// Reads a body in pieces.
#[derive(Drop)]
pub struct Unframer {
    reading: Reading,
}

impl Model for Unframer {
    ghost use Rattle.http_exchange.specs.declared.unframing.Reading.{Reading};

    ghost Value = { Reading };

    ghost use Rattle.http_exchange.specs.Sound.{IsSoundReading};

    ghost view = { λ u. u.reading };

    ghost invariant = { λ u. IsSoundReading u.reading };
}

impl Unframer {
    ghost use Rattle.http_exchange.specs.Frames.{IsWhole};
    ghost use Rattle.http_exchange.specs.Reads.{HasRead, Answers, IsTaken, is_ended};

    /// Before the first byte of a body of the frame.
    pub fn new(frame: BodyFrame) -> Unframer
        ensures { HasRead result frame [] [] }
    {
        let reading = match frame {
            BodyFrame::Empty => Reading::Counted { left: 0 },
            BodyFrame::Length(n) => Reading::Counted { left: n },
            BodyFrame::Chunked => Reading::Chunks(Place::START),
            BodyFrame::ToEnd => Reading::Rest,
        };
        Unframer { reading }
    }

    /// Reads the beginning of a piece, up to and with its first run of content bytes, and not after the
    /// end of the body: at least one byte, unless the piece is empty or the body has ended. `Bad`
    /// comes only of a chunked body, and exactly where a byte is refused before a content byte; the
    /// unframer then has no further use.
    pub fn feed<'p>(&mut self, piece: &'p [u8]) -> Taken<'p>
        ensures taken { IsTaken result self.new piece.now }
        ensures answers { (f : BodyFrame) (m given : List ℕ) → HasRead self.old f m given → Answers result self.new f m given piece.now }
    {
        match self.reading {
            Reading::Counted { left } => {
                let body = prefix_of(piece, left);
                self.reading = Reading::Counted {
                    left: left - body.len() as u64,
                };
                Taken::Got {
                    body,
                    used: body.len(),
                }
            }
            Reading::Rest => Taken::Got {
                body: piece,
                used: piece.len(),
            },
            Reading::Chunks(place) => {
                let (after, taken) = take_chunks(place, piece);
                self.reading = Reading::Chunks(after);
                taken
            }
        }
    }

    /// Whether the body has ended by its own bytes; never so for one that runs to the end.
    pub fn is_whole(&self) -> bool
        ensures value { result ≡ is_ended self.now }
        ensures whole { (f : BodyFrame) (m given : List ℕ) → HasRead self.now f m given → IsTrue result ↔ IsWhole f m }
    {
        match &self.reading {
            Reading::Counted { left } => *left == 0,
            Reading::Chunks(place) => place.is_end(),
            Reading::Rest => false,
        }
    }
}

#[cfg(test)]
mod tests {
    use super::*;
    use std::alloc::{AllocError, Global};
    use std::test::Fail;

    /// What was read of some pieces: the content, how many bytes, and whether a byte was refused.
    #[derive(Drop)]
    struct Read {
        content: Vec<u8>,
        used: usize,
        refused: bool,
    }

    impl Read {
        fn new(alloc: Global) -> Read {
            Read {
                content: Vec::new(alloc),
                used: 0,
                refused: false,
            }
        }

        /// Feeds a piece until nothing more of it is taken.
        fn take(&mut self, unframer: &mut Unframer, piece: &[u8]) -> Result<(), AllocError> {
            let mut rest = piece;
            for _ in 0..=piece.len() {
                if self.refused {
                    break;
                }
                match unframer.feed(rest) {
                    Taken::Got { body, used } => {
                        self.content.extend_from_slice(body)?;
                        self.used = self.used.saturating_add(used);
                        rest = rest.get(used..).unwrap_or(&[]);
                    }
                    Taken::Bad { at } => {
                        self.used = self.used.saturating_add(at);
                        self.refused = true;
                    }
                }
            }
            Ok(())
        }
    }

    const CHUNKED: &[u8] = b"5;x=\r\nhello\r\n00A \t\r\n0123456789\r\n0\r\nA: b\r\n\xe9\r\n\r\n";

    #[test]
    fn reads_chunks_however_they_are_cut(rt: HostRuntime) -> Result<(), Fail> {
        for cut in 0..=CHUNKED.len() {
            let mut unframer = Unframer::new(BodyFrame::Chunked);
            let mut read = Read::new(rt.alloc());
            read.take(&mut unframer, &CHUNKED[..cut])?;
            assert_eq!(rt; unframer.is_whole(), cut == CHUNKED.len());
            read.take(&mut unframer, &CHUNKED[cut..])?;
            read.take(&mut unframer, b"GET")?;
            assert_eq!(rt;
                read.content.as_slice(),
                b"hello0123456789".as_slice(),
                "cut at {cut}"
            );
            assert!(rt; unframer.is_whole() && !read.refused && read.used == CHUNKED.len());
        }
        for size in 1..8 {
            let mut unframer = Unframer::new(BodyFrame::Chunked);
            let mut read = Read::new(rt.alloc());
            for piece in CHUNKED.chunks(size) {
                read.take(&mut unframer, piece)?;
            }
            assert_eq!(rt; read.content.as_slice(), b"hello0123456789".as_slice());
            assert!(rt; unframer.is_whole() && !read.refused && read.used == CHUNKED.len());
        }
        Ok(())
    }

    /// Texts that no chunked body begins with, and the place of the first byte that is refused.
    const BAD: [(&[u8], usize); 16] = [
        (b"G", 0),
        (b"\r\n", 0),
        (b";\r\n", 0),
        (b"1x", 1),
        (b"1\n", 1),
        (b"1\r\r", 2),
        (b"1 \x7f", 2),
        (b"1\r\nab", 4),
        (b"1\r\na\n", 4),
        (b"1\r\na\r\r", 5),
        (b"1\r\na\r\n\r\n", 6),
        (b"0\r\n\x00", 3),
        (b"0\r\n\r\r", 4),
        (b"0\r\nA\n", 4),
        (b"0\r\nA\r\r", 5),
        (b"0000000000000001", 15),
    ];

    #[test]
    fn refuses_the_first_bad_byte(rt: HostRuntime) -> Result<(), Fail> {
        for (text, at) in BAD {
            for size in 1..8 {
                let mut unframer = Unframer::new(BodyFrame::Chunked);
                let mut read = Read::new(rt.alloc());
                for piece in text.chunks(size) {
                    read.take(&mut unframer, piece)?;
                }
                assert!(rt; read.refused);
                assert_eq!(rt; read.used, at);
            }
        }
        Ok(())
    }

    /// Frames, what comes, its content, and whether the body is whole then.
    const BODIES: [(BodyFrame, &[u8], &[u8], bool); 8] = [
        (BodyFrame::Empty, b"GET", b"", true),
        (BodyFrame::Length(0), b"GET", b"", true),
        (BodyFrame::Length(3), b"abcd", b"abc", true),
        (BodyFrame::Length(3), b"ab", b"ab", false),
        (BodyFrame::ToEnd, b"abcd", b"abcd", false),
        (BodyFrame::Chunked, b"", b"", false),
        (
            BodyFrame::Chunked,
            b"000000000000001\r\na\r\n0\r\n\r\n0",
            b"a",
            true,
        ),
        (
            BodyFrame::Chunked,
            b"FFFFFFFFFFFFFFF\r\na\r\n0",
            b"a\r\n0",
            false,
        ),
    ];

    #[test]
    fn ends_a_body_by_its_frame(rt: HostRuntime) -> Result<(), Fail> {
        for (frame, bytes, content, whole) in BODIES {
            let mut unframer = Unframer::new(frame);
            let mut read = Read::new(rt.alloc());
            read.take(&mut unframer, bytes)?;
            assert_eq!(rt; read.content.as_slice(), content);
            assert_eq!(rt; unframer.is_whole(), whole);
            assert!(rt; !read.refused);
        }
        Ok(())
    }

    #[test]
    fn gives_a_run_of_content_at_once(rt: HostRuntime) {
        let mut unframer = Unframer::new(BodyFrame::Chunked);
        let _ = unframer.feed(b"2000;\r\n");
        let piece = [7u8; 8192];
        let taken = unframer.feed(&piece);
        assert!(rt; matches!(taken, Taken::Got { body, used: 8192 } if body.len() == 8192));
    }
}
