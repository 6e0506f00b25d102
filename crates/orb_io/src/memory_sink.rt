//! A sink in memory.
ghost use Rattle.std.specs.Prelude.{◌≡◌, ◌-◌, ◌^◌, [], IfOk, length};
ghost use Rattle.orb_io.specs.Told.{Pushes, HasCause, told_bytes};
ghost use Rattle.orb_io.specs.Memory.{PushesInMemory};
ghost use Rattle.std.proofs.Common.{refl};
ghost use Rattle.std.proofs.Math.Nat.{min-le_right as min_le_right};

use crate::fault_count::raised;
use crate::outside::{Failed, NoMemory, Sink};
use orb_bytes::append;
use std::alloc::Global;
use std::marker::Model;

/// A sink that keeps its bytes in memory, and takes no more memory after [`MemorySink::open`].
#[derive(Drop)]
pub struct MemorySink {
    bytes: Vec<u8>,
    room: usize,
    fails: Vec<u64>,
    calls: u64,
    faults: u64,
}

impl Model for MemorySink {
    ghost use Rattle.std.specs.Prelude.{◌≤◌, vec_capacity, length};
    ghost use Rattle.orb_io.specs.Memory.{SinkState};

    ghost Value = { SinkState };

    ghost view = { λ s. record {
      bytes = s.bytes.items;
      room = s.room;
      fails = s.fails.items;
      calls = s.calls;
      faults = s.faults;
    } };

    ghost invariant = { λ s. (length s.bytes.items ≤ s.room) × (s.room ≤ vec_capacity s.bytes) };
}

impl MemorySink {
    /// Reserves room for `room` bytes. The pushes whose numbers, from 0, stand in `fails` take
    /// nothing and fail; one whose piece doesn't fit takes what fits and fails.
    pub fn open(alloc: Global, room: usize, fails: Vec<u64>) -> Result<MemorySink, NoMemory>
        ensures { IfOk result (λ s. s ≡ record {
          bytes = [];
          room = room;
          fails = fails.items;
          calls = 0;
          faults = 0;
        }) }
    {
        match Vec::with_capacity(alloc, room) {
            Ok(bytes) => Ok(MemorySink {
                bytes,
                room,
                fails,
                calls: 0,
                faults: 0,
            }),
            Err(_) => Err(NoMemory),
        }
    }

    /// What was put.
    pub fn bytes(&self) -> &[u8]
        ensures { result.now ≡ self.now.bytes }
    {
        self.bytes.as_slice()
    }
}

impl Sink for MemorySink {
    ghost told = { λ s. told_bytes s.bytes };

    ghost faults = { λ s. s.faults };

    ghost kept = { λ _ _. Unit {0} };

    ghost told_agrees = { λ s. record {
      number = refl;
      fits = min_le_right (length s.bytes) (2 ^ 64 - 1);
    } };

    ghost kept_reflexive = { λ _. tt };

    ghost kept_transitive = { λ _ _ _ _ _. tt };

    fn push(&mut self, piece: &[u8]) -> Result<(), Failed>
        ensures bytes { Pushes result (told_bytes self.old.bytes) (told_bytes self.new.bytes) piece.now }
        ensures cause { HasCause self.old.faults self.new.faults result }
        ensures does { PushesInMemory self.old self.new result piece.now }
    {
        let fails = self.fails.contains(&self.calls);
        self.calls = self.calls.saturating_add(1);
        if fails {
            return Err(raised(&mut self.faults));
        }
        let (taken, rest) = piece.split_at(piece.len().min(self.room - self.bytes.len()));
        append(&mut self.bytes, taken);
        if !rest.is_empty() {
            return Err(raised(&mut self.faults));
        }
        Ok(())
    }
}

#[cfg(test)]
mod tests {
    use super::*;
    use std::test::Fail;

    /// What is pushed, whether that goes well, and what was put then.
    const PUSHES: [(&str, bool, &str); 7] = [
        ("a", true, "a"),
        ("b", false, "a"),
        ("", true, "a"),
        ("bcdef", false, "abc"),
        ("", false, "abc"),
        ("", true, "abc"),
        ("d", false, "abc"),
    ];

    #[test]
    fn takes_what_fits_and_fails_at_its_calls(rt: HostRuntime) -> Result<(), Fail> {
        let fails = [1, 4].to_vec(rt.alloc())?;
        let mut sink = MemorySink::open(rt.alloc(), 3, fails)?;
        for (piece, done, bytes) in PUSHES {
            assert_eq!(rt; sink.push(piece.as_bytes()).is_ok(), done);
            assert_eq!(rt; sink.bytes(), bytes.as_bytes());
        }
        assert_eq!(rt; sink.faults, 4);
        Ok(())
    }
}
