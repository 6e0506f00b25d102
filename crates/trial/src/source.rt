//! The self-test's recording as a source, made as it is read.
ghost use Rattle.std.specs.Prelude.{◌≡◌, ◌+◌, ◌^◌, ◌<◌, ◌≤◌, IsOk, Some, length};
ghost use Rattle.std.specs.Io.{ReadsAtMost};
ghost use Rattle.orb_io.specs.Told.{Pulls, HasCause};
ghost use Rattle.trial.specs.Trials.{trial_of};

use crate::heads::ROOM;
use crate::numbered::write_exchange;
use arrayvec::ArrayVec;
use orb_io::{Failed, Source};
use std::marker::Model;

/// The bytes of the self-test's recording, none of whose pulls fails. It holds one exchange at a time, and takes no memory.
#[derive(Drop)]
pub struct TrialSource {
    // The exchange that is being given, and how much of it was.
    text: ArrayVec<u8, ROOM>,
    offset: usize,
    // The number of the next exchange, and how many there are from it on.
    number: u64,
    count: u64,
}

impl Model for TrialSource {
    ghost use Rattle.std.specs.Prelude.{ℕ, ◌+◌, ◌^◌, ◌<◌, ◌≤◌, ◌++◌, List, length, drop};
    ghost use Rattle.trial.specs.Trials.{trial_of};

    ghost Value = { List ℕ };

    ghost view = { λ s. drop s.offset s.text.items ++ trial_of s.number s.count };

    ghost invariant = { λ s. (s.offset ≤ length s.text.items) × (s.number + s.count < 2 ^ 64) };
}

impl TrialSource {
    /// So many exchanges, whose numbers go on from the seed.
    pub fn new(seed: u64, count: u64) -> TrialSource
        requires seed { seed ≤ 10 ^ 18 }
        requires count { count ≤ 1000000 }
        ensures { result ≡ trial_of seed count }
    {
        TrialSource {
            text: ArrayVec::new(),
            offset: 0,
            number: seed,
            count,
        }
    }
}

impl Source for TrialSource {
    ghost left = { λ s. Some s };

    ghost faults = { λ _. 0 };

    ghost kept = { λ _ _. Unit {0} };

    ghost kept_reflexive = { λ _. tt };

    ghost kept_transitive = { λ _ _ _ _ _. tt };

    fn pull(&mut self, buf: &mut [u8]) -> Result<usize, Failed>
        ensures bound { ReadsAtMost result buf.new }
        ensures bytes { Pulls (Some self.old) (Some self.new) result buf.new }
        ensures cause { HasCause 0 0 result }
        ensures ok { IsOk result }
    {
        if self.offset == self.text.len() && self.count > 0 {
            write_exchange(&mut self.text, self.number);
            self.offset = 0;
            self.number += 1;
            self.count -= 1;
        }
        let (_, rest) = self.text.as_slice().split_at(self.offset);
        let count = buf.len().min(rest.len());
        buf[..count].copy_from_slice(rest.split_at(count).0);
        self.offset += count;
        Ok(count)
    }
}
