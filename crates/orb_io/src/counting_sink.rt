//! A sink that only counts.
ghost use Rattle.std.specs.Prelude.{◌≡◌, ◌+◌, ◌-◌, ◌^◌, min, Some, length};
ghost use Rattle.orb_io.specs.Told.{Pushes, HasCause, told_number};
ghost use Rattle.std.proofs.Math.Nat.{min-le_right as min_le_right};

use crate::outside::{Failed, Sink};
use std::marker::Model;

/// A sink that keeps the number of its bytes and never fails. To a contract it is that number.
#[derive(Drop)]
pub struct CountingSink {
    count: u64,
}

impl Model for CountingSink {
    ghost use Rattle.std.specs.Prelude.{ℕ};

    ghost Value = { ℕ };

    ghost view = { λ s. s.count };
}

impl CountingSink {
    /// No byte was put.
    pub fn new() -> CountingSink
        ensures { result ≡ 0 }
    {
        CountingSink { count: 0 }
    }

    /// How many bytes were put; past the last `u64` the number stays there.
    pub fn count(&self) -> u64
        ensures value { result ≡ self.now }
        ensures size { (⟦<CountingSink as Sink>⟧.told self.now).size ≡ Some result }
    {
        self.count
    }
}

impl Sink for CountingSink {
    // In a law the number may be any.
    ghost told = { λ s. told_number s };

    ghost faults = { λ _. 0 };

    ghost kept = { λ _ _. Unit {0} };

    ghost told_agrees = { λ s. record { number = tt; fits = min_le_right s (2 ^ 64 - 1) } };

    ghost kept_reflexive = { λ _. tt };

    ghost kept_transitive = { λ _ _ _ _ _. tt };

    fn push(&mut self, piece: &[u8]) -> Result<(), Failed>
        ensures bytes { Pushes result (told_number self.old) (told_number self.new) piece.now }
        ensures cause { HasCause 0 0 result }
        ensures count { self.new ≡ min (self.old + length piece.now) (2 ^ 64 - 1) }
    {
        self.count = self.count.saturating_add(piece.len() as u64);
        Ok(())
    }
}

#[cfg(test)]
mod tests {
    use super::*;

    #[test]
    fn counts_up_to_the_last_number(rt: HostRuntime) {
        let mut sink = CountingSink::new();
        for (piece, count) in [("abc", 3), ("", 3), ("de", 5)] {
            assert_eq!(rt; sink.push(piece.as_bytes()), Ok(()));
            assert_eq!(rt; sink.count(), count);
        }
        sink.count = u64::MAX - 1;
        assert_eq!(rt; sink.push(b"abc"), Ok(()));
        assert_eq!(rt; sink.count(), u64::MAX);
    }
}
