//! What goes out of a response: its head and its body.
ghost use Rattle.std.specs.Prelude.{◌≡◌, ◌++◌, OnOk};
ghost use Rattle.orb_io.specs.Calls.{Puts};
ghost use Rattle.http_exchange.specs.Framing.{put_of, kept_after, end_of};
ghost use Rattle.http_exchange.specs.Framers.{is_chunked_by, kept_by};

use crate::pushing::{WriteFault, put_bytes};
use http_exchange::Framer;
use orb_io::{Failed, Sink};

/// How the chunks of a body are pushed.
#[derive(Clone, Copy)]
pub enum Pushes {
    /// Some by one push.
    Batches,
    /// Each part of one by a push of its own, into a sink that gathers.
    Parts,
}

/// Puts the next piece of a body.
pub(crate) fn put_piece<O: Sink>(
    framer: &mut Framer,
    piece: &[u8],
    pushes: Pushes,
    sink: &mut O,
) -> Result<(), WriteFault>
    ensures puts { Puts O.Sink result sink.old sink.new (put_of (is_chunked_by framer.old) (kept_by framer.old) piece.now) }
    ensures rest { OnOk result (kept_by framer.new ≡ kept_after (is_chunked_by framer.old) (kept_by framer.old) piece.now) }
    ensures chunked { is_chunked_by framer.new ≡ is_chunked_by framer.old }
{
    let put = match pushes {
        Pushes::Batches => framer.put(piece, sink),
        Pushes::Parts => framer.put_parts(piece, sink),
    };
    match put {
        Ok(()) => Ok(()),
        Err(Failed) => Err(WriteFault),
    }
}

/// Puts the end of a body.
pub(crate) fn put_last<O: Sink>(framer: &mut Framer, sink: &mut O) -> Result<(), WriteFault>
    ensures puts { Puts O.Sink result sink.old sink.new (end_of (is_chunked_by framer.old) (kept_by framer.old)) }
{
    match framer.finish(sink) {
        Ok(()) => Ok(()),
        Err(Failed) => Err(WriteFault),
    }
}

/// Puts a head, the body that was held and the piece after it.
pub(crate) fn release<O: Sink>(
    framer: &mut Framer,
    head: &[u8],
    held: &[u8],
    piece: &[u8],
    pushes: Pushes,
    sink: &mut O,
) -> Result<(), WriteFault>
    ensures puts { Puts O.Sink result sink.old sink.new (head.now ++ (put_of (is_chunked_by framer.old) (kept_by framer.old) held.now
        ++ put_of (is_chunked_by framer.old)
        (kept_after (is_chunked_by framer.old) (kept_by framer.old) held.now) piece.now)) }
    ensures rest { OnOk result (kept_by framer.new ≡ kept_after (is_chunked_by framer.old)
        (kept_after (is_chunked_by framer.old) (kept_by framer.old) held.now) piece.now) }
    ensures chunked { is_chunked_by framer.new ≡ is_chunked_by framer.old }
{
    put_bytes(head, sink)?;
    put_piece(framer, held, pushes, sink)?;
    put_piece(framer, piece, pushes, sink)
}

/// Puts a head, the body that was held and its end.
pub(crate) fn put_whole<O: Sink>(
    framer: &mut Framer,
    head: &[u8],
    held: &[u8],
    sink: &mut O,
) -> Result<(), WriteFault>
    ensures puts { Puts O.Sink result sink.old sink.new (head.now ++ (put_of (is_chunked_by framer.old) (kept_by framer.old) held.now
        ++ end_of (is_chunked_by framer.old)
        (kept_after (is_chunked_by framer.old) (kept_by framer.old) held.now))) }
{
    put_bytes(head, sink)?;
    put_piece(framer, held, Pushes::Batches, sink)?;
    put_last(framer, sink)
}
