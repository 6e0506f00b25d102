//! What becomes of a body while it comes.
ghost use Rattle.std.specs.Prelude.{◌≡◌, OnOk, OnErr};

use crate::pushing::WriteFault;

/// What becomes of the body that comes.
#[derive(Clone, Copy)]
pub(crate) enum Phase {
    /// None comes.
    Idle,
    /// It is kept, and so is the head.
    Holding,
    /// It goes out.
    Passing,
    /// It is dropped: the response is given up.
    Dropping,
}

/// Hands the answer on, and makes the phase idle where it is a fault.
pub(crate) fn idle_at_fault(
    phase: &mut Phase,
    put: Result<(), WriteFault>,
) -> Result<(), WriteFault>
    ensures same { result ≡ put }
    ensures ok { OnOk result (phase.new ≡ phase.old) }
    ensures fault { OnErr result (phase.new ≡ Phase.Idle) }
{
    if put.is_err() {
        *phase = Phase::Idle;
    }
    put
}
