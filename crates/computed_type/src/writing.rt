//! The line of a computed type.
ghost use Rattle.std.specs.Prelude.{◌≡◌, ◌≤◌, ◌++◌, ◌∷◌, [], length};
ghost use Rattle.std.specs.Str.{str_to_ascii_lowercase};
ghost use Rattle.orb_bytes.specs.Ascii.{line_feed};
ghost use Rattle.orb_io.specs.Calls.{Puts};
ghost use Rattle.mime_types.specs.Sets.{main_of, sub_of};
ghost use Rattle.computed_type.specs.Computed.{essence_text};
ghost use Rattle.orb_bytes.specs.Ascii.{solidus};

use crate::answer::Computed;
use arrayvec::ArrayVec;
use mime_types::Essence;
use orb_bytes::{first_bytes, lower};
use orb_io::{Failed, Sink};

/// How many bytes of a type are put into lowercase at once.
const PIECE: usize = 64;

/// Puts the essence in ASCII lowercase, and the end of a line.
pub(crate) fn put_line<O: Sink>(computed: &Computed, sink: &mut O) -> Result<(), Failed>
    ensures puts { Puts O.Sink result sink.old sink.new (essence_text computed.now ++ line_feed ∷ []) }
{
    put_essence(computed, sink)?;
    sink.push(b"\n")
}

/// Puts the essence in ASCII lowercase.
fn put_essence<O: Sink>(computed: &Computed, sink: &mut O) -> Result<(), Failed>
    ensures puts { Puts O.Sink result sink.old sink.new (essence_text computed.now) }
{
    match computed {
        Computed::Known(name) => sink.push(name),
        Computed::Supplied(essence) => put_supplied(essence, sink),
    }
}

fn put_supplied<O: Sink>(essence: &Essence, sink: &mut O) -> Result<(), Failed>
    ensures puts { Puts O.Sink result sink.old sink.new (main_of essence.now ++ (solidus ∷ sub_of essence.now)) }
{
    put_lowered(essence.main, sink)?;
    sink.push(b"/")?;
    put_lowered(essence.sub, sink)
}

/// Puts the text in ASCII lowercase, piece by piece.
fn put_lowered<O: Sink>(text: &[u8], sink: &mut O) -> Result<(), Failed>
    ensures puts { Puts O.Sink result sink.old sink.new (str_to_ascii_lowercase text.now) }
{
    let mut rest = text;
    'pieces: while !rest.is_empty() {
        let piece = first_bytes(rest, PIECE);
        sink.push(lowered(piece).as_slice())?;
        rest = rest.split_at(piece.len()).1;
    }
    Ok(())
}

/// The piece in ASCII lowercase.
fn lowered(piece: &[u8]) -> ArrayVec<u8, PIECE>
    requires { length piece.now ≤ 64 }
    ensures { result.items ≡ str_to_ascii_lowercase piece.now }
{
    let mut text = ArrayVec::new();
    for b in piece {
        text.push(lower(*b));
    }
    text
}
