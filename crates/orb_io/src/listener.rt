//! What links come from.
ghost use Rattle.std.specs.Prelude.{◌≡◌, ℕ, Option};
ghost use Rattle.orb_io.specs.Told.{HasCause};
ghost use Rattle.orb_io.specs.Listeners.{HandsOut};

use crate::outside::{Duplex, Failed};

/// What links come from, one after the other.
pub trait Listener {
    /// A connection: what came from it, and what goes to it.
    type Link: Duplex;

    // How many faults of `bind`, and of `accept`, there were.
    ghost bind_faults: { Self → ℕ };

    ghost accept_faults: { Self → ℕ };

    // How many links were handed out, where it is told.
    ghost handed: { Self → Option ℕ };

    /// Takes the address on which links will come.
    ///
    /// Answers [`Failed`] only where the count of its faults rose.
    fn bind(&mut self, addr: &[u8]) -> Result<(), Failed>
        ensures cause { HasCause (bind_faults self.old) (bind_faults self.new) result }
        ensures accepts { accept_faults self.new ≡ accept_faults self.old }
        ensures handed { handed self.new ≡ handed self.old };

    /// Hands out the next link. It may wait for it, and isn't promised to return.
    ///
    /// Answers [`Failed`] only where the count of its faults rose.
    fn accept(&mut self) -> Result<Self::Link, Failed>
        ensures cause { HasCause (accept_faults self.old) (accept_faults self.new) result }
        ensures binds { bind_faults self.new ≡ bind_faults self.old }
        ensures handed { HandsOut (handed self.old) (handed self.new) result };

    /// Takes a link that is no longer used.
    fn give_back(&mut self, link: Self::Link)
        ensures binds { bind_faults self.new ≡ bind_faults self.old }
        ensures accepts { accept_faults self.new ≡ accept_faults self.old }
        ensures handed { handed self.new ≡ handed self.old };
}
