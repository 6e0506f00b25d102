//! A piece of a body as it is sent: its framing bytes, and its content as a slice.
ghost use Rattle.std.specs.Prelude.{◌≡◌, IfErr, IfOk, length, min, take};
ghost use Rattle.http_exchange.specs.Places.{IsSound};
ghost use Rattle.http_exchange.specs.Pieces.{Passes, Fails, Takes, TakesChunks};

use crate::places::{Place, next};

/// What an [`Unframer`](crate::Unframer) took of a piece.
#[derive(Clone, Copy, Debug)]
pub enum Taken<'p> {
    /// The first `used` bytes of the piece, of which `body` are content.
    Got {
        /// The content bytes: a slice of the piece.
        body: &'p [u8],
        /// How many bytes of the piece were read.
        used: usize,
    },
    /// No chunked body goes on by the byte of the piece at this place.
    Bad {
        /// The place of the byte in the piece.
        at: usize,
    },
}

/// Reads the beginning of a piece of a chunked body: the place after it, and what was taken.
pub(crate) fn take_chunks<'p>(start: Place, piece: &'p [u8]) -> (Place, Taken<'p>)
    requires { IsSound start }
    ensures taken { TakesChunks start result.0 piece.now result.1 }
    ensures sound { IsSound result.0 }
{
    let (place, used) = match pass_framing(start, piece) {
        Ok(passed) => passed,
        Err(at) => return (Place::Dead, Taken::Bad { at }),
    };
    let (after, body) = take_content(place, piece.split_at(used).1);
    (
        after,
        Taken::Got {
            body,
            used: used + body.len(),
        },
    )
}

/// Reads the framing bytes at the beginning of a piece: the place after them and their number, up to
/// a content byte, the end of the body or the end of the piece; or the place of one that is refused.
fn pass_framing(start: Place, piece: &[u8]) -> Result<(Place, usize), usize>
    requires { IsSound start }
    ensures passed { IfOk result (λ r. Passes start r.0 piece.now r.1) }
    ensures sound { IfOk result (λ r. IsSound r.0) }
    ensures refused { IfErr result (Fails start piece.now) }
{
    let mut place = start;
    for (at, b) in piece.iter().enumerate() {
        if place.is_content() || place.is_end() {
            return Ok((place, at));
        }
        place = next(place, *b);
        if place.is_dead() {
            return Err(at);
        }
    }
    Ok((place, piece.len()))
}

/// Reads the content bytes at the beginning of a piece: the place after them, and them.
fn take_content<'p>(start: Place, piece: &'p [u8]) -> (Place, &'p [u8])
    requires { IsSound start }
    ensures taken { Takes start result.0 piece.now result.1.now }
    ensures sound { IsSound result.0 }
{
    let Place::Data { left } = start else {
        return (start, &[]);
    };
    let body = prefix_of(piece, left);
    let rest = left - body.len() as u64;
    if rest == 0 {
        (Place::DataCr, body)
    } else {
        (Place::Data { left: rest }, body)
    }
}

/// The first bytes of a piece, at most so many.
pub(crate) fn prefix_of(piece: &[u8], most: u64) -> &[u8]
    ensures { result.now ≡ take (min most (length piece.now)) piece.now }
{
    if most < piece.len() as u64 {
        piece.split_at(most as usize).0
    } else {
        piece
    }
}
