//! What connects to hosts.
ghost use Rattle.std.specs.Prelude.{◌≡◌, ℕ};
ghost use Rattle.orb_io.specs.Told.{HasCause};

use crate::outside::{Duplex, Failed};

/// What connects to a host at a port.
pub trait Dialer {
    /// A connection: what came from it, and what goes to it.
    type Link: Duplex;

    // How many faults of `dial` there were.
    ghost faults: { Self → ℕ };

    /// Connects to the host, a name or an IP address, where one of version 6 stands between brackets (RFC 3986 3.2.2).
    ///
    /// Answers [`Failed`] only where the count of its faults rose.
    fn dial(&mut self, host: &[u8], port: u16) -> Result<Self::Link, Failed>
        ensures cause { HasCause (faults self.old) (faults self.new) result };

    /// Takes a link that is no longer used.
    fn give_back(&mut self, link: Self::Link)
        ensures faults { faults self.new ≡ faults self.old };
}
