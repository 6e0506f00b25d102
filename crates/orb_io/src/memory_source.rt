//! A source in memory, with faults at chosen calls.
ghost use Rattle.std.specs.Prelude.{◌≡◌, ◌≤◌, Some, length};
ghost use Rattle.std.specs.Io.{ReadsAtMost};
ghost use Rattle.orb_io.specs.Told.{Pulls, HasCause};
ghost use Rattle.orb_io.specs.Memory.{PullsInMemory};

use crate::fault_count::raised;
use crate::outside::{Failed, Source};
use crate::supply::Supply;
use std::marker::Model;

/// A source of bytes in memory, some of whose pulls fail.
#[derive(Drop)]
pub struct MemorySource {
    supply: Supply,
    fails: Vec<u64>,
    calls: u64,
    faults: u64,
}

impl Model for MemorySource {
    ghost use Rattle.orb_io.specs.Memory.{SourceState};

    ghost Value = { SourceState };

    ghost view = { λ s. record {
      rest = s.supply.rest;
      piece = s.supply.piece;
      fails = s.fails.items;
      calls = s.calls;
      faults = s.faults;
    } };
}

impl MemorySource {
    /// Gives `bytes`, at most `piece` of them for each pull. The pulls whose numbers, from 0, stand
    /// in `fails` fail, also at the end and where the buffer is empty.
    pub fn new(bytes: Vec<u8>, piece: usize, fails: Vec<u64>) -> MemorySource
        requires { 1 ≤ piece }
        ensures { result ≡ record {
          rest = bytes.items;
          piece = piece;
          fails = fails.items;
          calls = 0;
          faults = 0;
        } }
    {
        MemorySource {
            supply: Supply::new(bytes, piece),
            fails,
            calls: 0,
            faults: 0,
        }
    }
}

impl Source for MemorySource {
    ghost left = { λ s. Some s.rest };

    ghost faults = { λ s. s.faults };

    ghost kept = { λ _ _. Unit {0} };

    ghost kept_reflexive = { λ _. tt };

    ghost kept_transitive = { λ _ _ _ _ _. tt };

    fn pull(&mut self, buf: &mut [u8]) -> Result<usize, Failed>
        ensures bound { ReadsAtMost result buf.new }
        ensures bytes { Pulls (Some self.old.rest) (Some self.new.rest) result buf.new }
        ensures cause { HasCause self.old.faults self.new.faults result }
        ensures does { PullsInMemory self.old self.new result (length buf.new) }
    {
        let fails = self.fails.contains(&self.calls);
        self.calls = self.calls.saturating_add(1);
        if fails {
            return Err(raised(&mut self.faults));
        }
        Ok(self.supply.give(buf))
    }
}

#[cfg(test)]
mod tests {
    use super::*;
    use std::test::Fail;

    /// The room for each pull, and what it gives; none where it fails.
    const PULLS: [(usize, Option<&str>); 8] = [
        (5, Some("abc")),
        (2, Some("de")),
        (5, None),
        (0, Some("")),
        (5, Some("fgh")),
        (5, Some("")),
        (0, None),
        (5, Some("")),
    ];

    #[test]
    fn gives_pieces_and_fails_at_its_calls(rt: HostRuntime) -> Result<(), Fail> {
        let bytes = b"abcdefgh".to_vec(rt.alloc())?;
        let fails = [2, 6].to_vec(rt.alloc())?;
        let mut source = MemorySource::new(bytes, 3, fails);
        let mut buf = [0u8; 5];
        for (room, want) in PULLS {
            assert!(rt; room <= 5);
            let given = match source.pull(&mut buf[..room]) {
                Ok(count) => Some(&buf[..count]),
                Err(Failed) => None,
            };
            assert_eq!(rt; given, want.map(|text| text.as_bytes()));
        }
        Ok(())
    }
}
