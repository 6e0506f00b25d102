//! What is put into a sink.
ghost use Rattle.orb_io.specs.Calls.{Puts};

use orb_io::{Failed, Sink, push_nonempty};

/// The sink failed. It comes only where the sink's count of faults rose.
#[derive(Clone, Copy, Debug, PartialEq, Eq)]
pub struct WriteFault;

/// Puts the bytes by one push, where there are any.
pub(crate) fn put_bytes<O: Sink>(bytes: &[u8], sink: &mut O) -> Result<(), WriteFault>
    ensures puts { Puts O.Sink result sink.old sink.new bytes.now }
{
    match push_nonempty(bytes, sink) {
        Ok(()) => Ok(()),
        Err(Failed) => Err(WriteFault),
    }
}
