//! What bytes come from and go to.
ghost use Rattle.std.specs.Prelude.{◌≡◌, ℕ, List, Option};
ghost use Rattle.std.specs.Io.{ReadsAtMost};
ghost use Rattle.orb_io.specs.Told.{Told, Agrees, Pulls, Pushes, HasCause};

/// A pull or a push that failed.
#[derive(Clone, Copy, Debug, PartialEq, Eq)]
pub struct Failed;

/// Want of memory.
#[derive(Clone, Copy, Debug, PartialEq, Eq)]
pub struct NoMemory;

/// What bytes come from.
pub trait Source {
    // The bytes still to come, where they are told.
    ghost left: { Self → Option (List ℕ) };

    // How many faults there were.
    ghost faults: { Self → ℕ };

    // What every pull leaves as it was, from the state before to the state after.
    ghost kept: { Self → Self → Type 0 };

    /// Takes the next bytes into the first places of `buf`, and answers how many: none only at the end of
    /// the input or where `buf` is empty. The rest of `buf`, and after [`Failed`] all of it, may
    /// hold anything.
    ///
    /// Answers [`Failed`] only where the count of faults rose, and then nothing was taken.
    fn pull(&mut self, buf: &mut [u8]) -> Result<usize, Failed>
        ensures bound { ReadsAtMost result buf.new }
        ensures bytes { Pulls (left self.old) (left self.new) result buf.new }
        ensures cause { HasCause (faults self.old) (faults self.new) result }
        ensures keeps { kept self.old self.new };

    ghost kept_reflexive: { (s : Self) → kept s s };

    ghost kept_transitive: { (r s t : Self) → kept r s → kept s t → kept r t };
}

/// What bytes go to.
pub trait Sink {
    // The bytes so far, and the lesser of their number and the last u64, each where it is told.
    ghost told: { Self → Told };

    // How many faults there were.
    ghost faults: { Self → ℕ };

    // What every push leaves as it was, from the state before to the state after.
    ghost kept: { Self → Self → Type 0 };

    /// Appends the whole piece.
    ///
    /// Answers [`Failed`] only where the count of faults rose, and then a prefix of the piece was
    /// appended.
    fn push(&mut self, piece: &[u8]) -> Result<(), Failed>
        ensures bytes { Pushes result (told self.old) (told self.new) piece.now }
        ensures cause { HasCause (faults self.old) (faults self.new) result }
        ensures keeps { kept self.old self.new };

    ghost told_agrees: { (s : Self) → Agrees (told s) };

    ghost kept_reflexive: { (s : Self) → kept s s };

    ghost kept_transitive: { (r s t : Self) → kept r s → kept s t → kept r t };
}

/// A source and a sink at once: a pull leaves the sink as it was, and a push the source.
pub trait Duplex: Source + Sink {
    ghost pull_leaves_told: { (s t : Self) → Self.Source.kept s t → Self.told t ≡ Self.told s };

    ghost pull_leaves_faults: { (s t : Self) → Self.Source.kept s t
        → Self.Sink.faults t ≡ Self.Sink.faults s };

    ghost push_leaves_left: { (s t : Self) → Self.Sink.kept s t → Self.left t ≡ Self.left s };

    ghost push_leaves_faults: { (s t : Self) → Self.Sink.kept s t
        → Self.Source.faults t ≡ Self.Source.faults s };
}
