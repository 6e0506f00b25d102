//! How far a recording has been read, and how many of its exchanges are whole.
ghost use Rattle.std.specs.Prelude.{◌≡◌, ◌+◌, ◌<◌, ◌≤◌, ◌^◌};
ghost use Rattle.orb_engine.specs.Progress.{count_with, advanced, closed, committed, rolled_back};

/// How many exchanges were allowed, and how many blocked.
#[derive(Clone, Copy, Debug)]
pub(crate) struct Counts {
    allowed: u64,
    blocked: u64,
}

impl Counts {
    const NONE: Counts = Counts {
        allowed: 0,
        blocked: 0,
    };

    /// With one exchange more.
    fn with(self, allow: bool) -> Counts
        requires { self.allowed + self.blocked < 2 ^ 62 }
        ensures { result ≡ count_with self allow }
    {
        if allow {
            Counts {
                allowed: self.allowed + 1,
                blocked: self.blocked,
            }
        } else {
            Counts {
                allowed: self.allowed,
                blocked: self.blocked + 1,
            }
        }
    }
}

/// How far a recording has been read.
#[derive(Clone, Copy, Debug)]
pub(crate) struct Progress {
    // Where the exchange at hand begins, and how many bytes were taken.
    offset: u64,
    taken: u64,
    // The exchanges that are whole, and those whose output has gone out.
    counts: Counts,
    told: Counts,
}

impl Progress {
    /// Of a recording of which nothing was read.
    pub(crate) const START: Progress = Progress {
        offset: 0,
        taken: 0,
        counts: Counts::NONE,
        told: Counts::NONE,
    };

    /// Takes so many bytes more.
    pub(crate) fn advance(&mut self, size: usize)
        requires { self.old.taken + size ≤ 2 ^ 62 }
        ensures { self.new ≡ advanced self.old size }
    {
        self.taken += size as u64;
    }

    /// Closes the exchange at hand: the next begins after the bytes that were taken.
    pub(crate) fn close(&mut self, allow: bool)
        requires { self.old.counts.allowed + self.old.counts.blocked < 2 ^ 62 }
        ensures { self.new ≡ closed self.old allow }
    {
        self.counts = self.counts.with(allow);
        self.offset = self.taken;
    }

    /// The output of all exchanges that are whole has gone out.
    pub(crate) fn commit(&mut self)
        ensures { self.new ≡ committed self.old }
    {
        self.told = self.counts;
    }

    /// Forgets the exchanges whose output has not gone out.
    pub(crate) fn roll_back(&mut self)
        ensures { self.new ≡ rolled_back self.old }
    {
        self.counts = self.told;
    }

    /// How many bytes were taken.
    pub(crate) fn taken(&self) -> u64
        ensures { result ≡ self.now.taken }
    {
        self.taken
    }

    /// Where the exchange at hand begins.
    pub(crate) fn offset(&self) -> u64
        ensures { result ≡ self.now.offset }
    {
        self.offset
    }

    /// How many exchanges were allowed.
    pub(crate) fn allowed(&self) -> u64
        ensures { result ≡ self.now.counts.allowed }
    {
        self.counts.allowed
    }

    /// How many were blocked.
    pub(crate) fn blocked(&self) -> u64
        ensures { result ≡ self.now.counts.blocked }
    {
        self.counts.blocked
    }

    /// The number of the exchange at hand.
    pub(crate) fn number(&self) -> u64
        requires { self.now.counts.allowed + self.now.counts.blocked < 2 ^ 62 }
        ensures { result ≡ self.now.counts.allowed + self.now.counts.blocked + 1 }
    {
        self.counts.allowed + self.counts.blocked + 1
    }
}
