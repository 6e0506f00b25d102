//! A link in memory.
ghost use Rattle.std.specs.Prelude.{◌≡◌, ◌-◌, ◌^◌, Some, length};
ghost use Rattle.std.specs.Io.{ReadsAtMost};
ghost use Rattle.orb_io.specs.Told.{Pulls, Pushes, HasCause, told_bytes};
ghost use Rattle.orb_io.specs.Memory.{PullsInMemory, PushesInMemory};
ghost use Rattle.std.proofs.Common.{refl, ap, ◌∙◌};
ghost use Rattle.std.proofs.Math.Nat.{min-le_right as min_le_right};

use crate::memory_sink::MemorySink;
use crate::memory_source::MemorySource;
use crate::outside::{Duplex, Failed, Sink, Source};
use std::marker::Model;

/// A source and a sink in memory as one object.
#[derive(Drop)]
pub struct MemoryLink {
    source: MemorySource,
    sink: MemorySink,
}

impl Model for MemoryLink {
    ghost use Rattle.orb_io.specs.Memory.{LinkState};

    ghost Value = { LinkState };

    ghost view = { λ s. record { source = s.source; sink = s.sink } };
}

impl MemoryLink {
    /// Pulls from the source, and pushes to the sink.
    pub fn new(source: MemorySource, sink: MemorySink) -> MemoryLink
        ensures { result ≡ record { source = source; sink = sink } }
    {
        MemoryLink { source, sink }
    }

    /// The sink, with what was put.
    pub fn sink(&self) -> &MemorySink
        ensures { result.now ≡ self.now.sink }
    {
        &self.sink
    }
}

impl Source for MemoryLink {
    ghost left = { λ s. Some s.source.rest };

    ghost faults = { λ s. s.source.faults };

    ghost kept = { λ s t. t.sink ≡ s.sink };

    ghost kept_reflexive = { λ _. refl };

    ghost kept_transitive = { λ _ _ _ p q. q ∙ p };

    fn pull(&mut self, buf: &mut [u8]) -> Result<usize, Failed>
        ensures bound { ReadsAtMost result buf.new }
        ensures bytes { Pulls (Some self.old.source.rest) (Some self.new.source.rest) result buf.new }
        ensures cause { HasCause self.old.source.faults self.new.source.faults result }
        ensures keeps { self.new.sink ≡ self.old.sink }
        ensures does { PullsInMemory self.old.source self.new.source result (length buf.new) }
    {
        self.source.pull(buf)
    }
}

impl Sink for MemoryLink {
    ghost told = { λ s. told_bytes s.sink.bytes };

    ghost faults = { λ s. s.sink.faults };

    ghost kept = { λ s t. t.source ≡ s.source };

    ghost told_agrees = { λ s. record {
      number = refl;
      fits = min_le_right (length s.sink.bytes) (2 ^ 64 - 1);
    } };

    ghost kept_reflexive = { λ _. refl };

    ghost kept_transitive = { λ _ _ _ p q. q ∙ p };

    fn push(&mut self, piece: &[u8]) -> Result<(), Failed>
        ensures bytes { Pushes result (told_bytes self.old.sink.bytes) (told_bytes self.new.sink.bytes)
            piece.now }
        ensures cause { HasCause self.old.sink.faults self.new.sink.faults result }
        ensures keeps { self.new.source ≡ self.old.source }
        ensures does { PushesInMemory self.old.sink self.new.sink result piece.now }
    {
        self.sink.push(piece)
    }
}

impl Duplex for MemoryLink {
    ghost pull_leaves_told = { λ _ _ same. ap (λ k. told_bytes k.bytes) same };

    ghost pull_leaves_faults = { λ _ _ same. ap (λ k. k.faults) same };

    ghost push_leaves_left = { λ _ _ same. ap (λ k. Some k.rest) same };

    ghost push_leaves_faults = { λ _ _ same. ap (λ k. k.faults) same };
}

#[cfg(test)]
mod tests {
    use super::*;
    use std::test::Fail;

    /// Pushes what the next pull gives, and answers whether both went well.
    fn echo<L: Duplex>(link: &mut L) -> bool {
        let mut buf = [0u8; 4];
        match link.pull(&mut buf) {
            Ok(count) => link.push(&buf[..count]).is_ok(),
            Err(Failed) => false,
        }
    }

    /// Whether a pull and a push go well, and what was put then.
    const TURNS: [(bool, &str); 7] = [
        (true, "abc"),
        (false, "abc"),
        (false, "abc"),
        (true, "abcgh"),
        (false, "abcgh"),
        (false, "abcgh"),
        (true, "abcgh"),
    ];

    #[test]
    fn pulls_and_pushes(rt: HostRuntime) -> Result<(), Fail> {
        let alloc = rt.alloc();
        let bytes = b"abcdefgh".to_vec(alloc)?;
        let source = MemorySource::new(bytes, 3, [1, 4].to_vec(alloc)?);
        let sink = MemorySink::open(alloc, 7, [1, 3].to_vec(alloc)?)?;
        let mut link = MemoryLink::new(source, sink);
        for (done, put) in TURNS {
            assert_eq!(rt; echo(&mut link), done);
            assert_eq!(rt; link.sink().bytes(), put.as_bytes());
        }
        Ok(())
    }
}
