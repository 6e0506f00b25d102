//! A sink of fixed room, in which what is to go out in one push is gathered.
ghost use Rattle.std.specs.Prelude.{◌≡◌};
ghost use Rattle.orb_io.specs.Told.{Pushes, HasCause, told_bytes};

use crate::fault_count::raised;
use crate::outside::{Failed, NoMemory, Sink};
use orb_bytes::{append, first_bytes};
use std::alloc::Global;
use std::marker::Model;

/// How many bytes are gathered at most.
const ROOM: usize = 16_384;

/// A sink of fixed room in memory. It fails only where it is full.
#[derive(Drop)]
pub struct Outbox {
    bytes: Vec<u8>,
    faults: u64,
}

impl Model for Outbox {
    ghost use Rattle.std.specs.Prelude.{◌≤◌, vec_len, vec_capacity};
    ghost use Rattle.orb_io.specs.Outboxes.{OutboxState};

    ghost Value = { OutboxState };

    ghost view = { λ b. record { bytes = b.bytes.items; faults = b.faults } };

    ghost invariant = { λ b. (vec_len b.bytes ≤ 16384) × (16384 ≤ vec_capacity b.bytes) };
}

impl Outbox {
    ghost use Rattle.std.specs.Prelude.{◌<◌, ◌+◌, ◌-◌, ◌++◌, ◌↔◌, IfOk, IsTrue, [], length, take};
    ghost use Rattle.orb_io.specs.Told.{Rose};
    ghost use Rattle.orb_io.specs.Outboxes.{OutboxState, outbox_room, empty_outbox};

    /// Reserves the room.
    pub fn open(alloc: Global) -> Result<Outbox, NoMemory>
        ensures { IfOk result (λ b. b ≡ empty_outbox) }
    {
        match Vec::with_capacity(alloc, ROOM) {
            Ok(bytes) => Ok(Outbox { bytes, faults: 0 }),
            Err(_) => Err(NoMemory),
        }
    }

    /// Forgets the bytes, and the faults.
    pub fn clear(&mut self)
        ensures { self.new ≡ empty_outbox }
    {
        self.bytes.clear();
        self.faults = 0;
    }

    /// The bytes.
    pub fn as_slice(&self) -> &[u8]
        ensures { result.now ≡ self.now.bytes }
    {
        self.bytes.as_slice()
    }

    /// Whether there is room for so many bytes, and one more.
    #[tactic(auto, unfolding(crate::specs::Outboxes::outbox_room))]
    pub fn has_room(&self, most: u64) -> bool
        ensures { IsTrue result ↔ length self.now.bytes + most < outbox_room }
    {
        most < (ROOM - self.bytes.len()) as u64
    }

    /// Takes what there is room for of a longer piece, and counts the fault.
    #[cold]
    fn fill(&mut self, piece: &[u8]) -> Failed
        ensures bytes { self.new.bytes ≡ self.old.bytes ++ take (outbox_room - length self.old.bytes) piece.now }
        ensures faults { Rose self.old.faults self.new.faults }
    {
        let room = ROOM - self.bytes.len();
        append(&mut self.bytes, first_bytes(piece, room));
        raised(&mut self.faults)
    }
}

impl Sink for Outbox {
    ghost use Rattle.orb_io.specs.Outboxes.{OnlyFills};
    ghost use Rattle.orb_io.specs.OutboxLaws.{OnlyFills-same, OnlyFills-twice};
    ghost use Rattle.std.specs.Prelude.{◌-◌, ◌^◌};
    ghost use Rattle.std.proofs.Common.{refl, length};
    ghost use Rattle.std.proofs.Math.Nat.{min-le_right as min_le_right};

    ghost told = { λ b. told_bytes b.bytes };

    ghost faults = { λ b. b.faults };

    ghost kept = { λ b c. OnlyFills b c };

    ghost told_agrees = { λ b. record {
      number = refl;
      fits = min_le_right (length b.bytes) (2 ^ 64 - 1);
    } };

    ghost kept_reflexive = { λ b. OnlyFills-same b };

    ghost kept_transitive = { λ b c d first second. OnlyFills-twice b c d first second };

    #[inline(always)]
    fn push(&mut self, piece: &[u8]) -> Result<(), Failed> {
        if piece.len() <= ROOM - self.bytes.len() {
            append(&mut self.bytes, piece);
            Ok(())
        } else {
            Err(self.fill(piece))
        }
    }
}
