//! What is built over a sink's one call.
ghost use Rattle.orb_io.specs.Calls.{Puts};

use crate::outside::{Failed, Sink};

/// Pushes the bytes in one piece, where there are any.
pub fn push_nonempty<O: Sink>(bytes: &[u8], sink: &mut O) -> Result<(), Failed>
    ensures puts { Puts O.Sink result sink.old sink.new bytes.now }
{
    if bytes.is_empty() {
        return Ok(());
    }
    sink.push(bytes)
}
