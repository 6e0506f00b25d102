//! A supply of bytes, as the sources in memory give them.
ghost use Rattle.std.specs.Prelude.{◌≡◌, ◌++◌, ◌<◌, ◌≤◌, [], take, drop, length};
ghost use Rattle.orb_io.specs.Memory.{given_count};

use std::marker::Model;

/// Bytes that are given from the first on, at most `piece` at a time.
#[derive(Drop)]
pub(crate) struct Supply {
    bytes: Vec<u8>,
    at: usize,
    piece: usize,
}

impl Model for Supply {
    ghost use Rattle.std.specs.Prelude.{◌≤◌, length, drop};
    ghost use Rattle.orb_io.specs.Memory.{SupplyState};

    ghost Value = { SupplyState };

    ghost view = { λ s. record { rest = drop s.at s.bytes.items; piece = s.piece } };

    ghost invariant = { λ s. (s.at ≤ length s.bytes.items) × (1 ≤ s.piece) };
}

impl Supply {
    pub(crate) fn new(bytes: Vec<u8>, piece: usize) -> Supply
        requires { 1 ≤ piece }
        ensures { result ≡ record { rest = bytes.items; piece = piece } }
    {
        Supply {
            bytes,
            at: 0,
            piece,
        }
    }

    /// Gives the next bytes into the first places of `buf`, and answers how many.
    pub(crate) fn give(&mut self, buf: &mut [u8]) -> usize
        ensures count { result ≡ given_count self.old.rest self.old.piece (length buf.new) }
        ensures given { self.old.rest ≡ take result buf.new ++ self.new.rest }
        ensures after { self.new ≡ record self.old { rest = drop result self.old.rest } }
        ensures none { result ≡ 0 → 0 < length buf.new → self.new.rest ≡ [] }
    {
        let (_, rest) = self.bytes.as_slice().split_at(self.at);
        let count = self.piece.min(buf.len()).min(rest.len());
        buf[..count].copy_from_slice(rest.split_at(count).0);
        self.at += count;
        count
    }
}
