//! A source in memory, without faults.
ghost use Rattle.std.specs.Prelude.{◌≡◌, ◌≤◌, Some, Ok, length};
ghost use Rattle.std.specs.Io.{ReadsAtMost};
ghost use Rattle.orb_io.specs.Told.{Pulls, HasCause};
ghost use Rattle.orb_io.specs.Memory.{given_count};

use crate::outside::{Failed, Source};
use crate::supply::Supply;
use std::marker::Model;

/// A source of bytes in memory, none of whose pulls fails.
#[derive(Drop)]
pub struct NeverFails {
    supply: Supply,
}

impl Model for NeverFails {
    ghost use Rattle.orb_io.specs.Memory.{SupplyState};

    ghost Value = { SupplyState };

    ghost view = { λ s. s.supply };
}

impl NeverFails {
    /// Gives `bytes`, at most `piece` of them for each pull.
    pub fn new(bytes: Vec<u8>, piece: usize) -> NeverFails
        requires { 1 ≤ piece }
        ensures { result ≡ record { rest = bytes.items; piece = piece } }
    {
        NeverFails {
            supply: Supply::new(bytes, piece),
        }
    }
}

impl Source for NeverFails {
    ghost left = { λ s. Some s.rest };

    ghost faults = { λ _. 0 };

    ghost kept = { λ _ _. Unit {0} };

    ghost kept_reflexive = { λ _. tt };

    ghost kept_transitive = { λ _ _ _ _ _. tt };

    fn pull(&mut self, buf: &mut [u8]) -> Result<usize, Failed>
        ensures bound { ReadsAtMost result buf.new }
        ensures bytes { Pulls (Some self.old.rest) (Some self.new.rest) result buf.new }
        ensures cause { HasCause 0 0 result }
        ensures gives { result ≡ Ok (given_count self.old.rest self.old.piece (length buf.new)) }
        ensures piece { self.new.piece ≡ self.old.piece }
    {
        Ok(self.supply.give(buf))
    }
}

#[cfg(test)]
mod tests {
    use super::*;
    use std::test::Fail;

    #[test]
    fn gives_pieces_to_the_end(rt: HostRuntime) -> Result<(), Fail> {
        let mut source = NeverFails::new(b"abcde".to_vec(rt.alloc())?, 2);
        let mut buf = [0u8; 4];
        for want in ["ab", "cd", "e", "", ""] {
            let count = source.pull(&mut buf).expect(&rt, "a pull that never fails");
            assert_eq!(rt; &buf[..count], want.as_bytes());
        }
        Ok(())
    }
}
