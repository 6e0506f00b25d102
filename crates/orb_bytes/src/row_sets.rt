//! Sets of rows by their indices, at most 32: a bit each.
ghost use Rattle.std.specs.Prelude.{◌≡◌, ◌<◌, ◌≤◌, ◌==◌, ◌||◌, ◌&&◌, ◌^◌, not, nat_lt, ℕ, true, false, MatchOption, MatchBool};

#[derive(Clone, Copy)]
pub struct RowSet {
    bits: u32,
    ghost fits: { bits < 2 ^ 32 },
}

impl RowSet {
    ghost use Rattle.orb_bytes.specs.RowSets.{has, IsEmpty, HasSome, IsFirst};

    pub const EMPTY: RowSet = RowSet { bits: 0 };

    /// The first rows, so many.
    pub fn first_of(count: usize) -> RowSet
        requires { count ≤ 32 }
        ensures { (i : ℕ) → has result i ≡ nat_lt i count }
    {
        RowSet {
            bits: ((1u64 << count) - 1) as u32,
        }
    }

    pub fn is_empty(self) -> bool
        ensures { MatchBool result (IsEmpty self) (HasSome self) }
    {
        self.bits == 0
    }

    /// The least index in the set.
    pub fn first(self) -> Option<usize>
        ensures { MatchOption result (IsEmpty self) (IsFirst self) }
    {
        if self.bits == 0 {
            None
        } else {
            Some(self.bits.trailing_zeros() as usize)
        }
    }

    pub fn insert(&mut self, index: usize)
        requires { index < 32 }
        ensures { (i : ℕ) → has self.new i ≡ (i == index || has self.old i) }
    {
        self.bits |= 1 << index;
    }

    pub fn remove(&mut self, index: usize)
        requires { index < 32 }
        ensures others { (i : ℕ) → has self.new i ≡ (not (i == index) && has self.old i) }
        ensures less { has self.old index ≡ true → self.new.bits < self.old.bits }
    {
        self.bits &= !(1 << index);
    }

    /// The indices of both sets.
    pub fn with(self, other: RowSet) -> RowSet
        ensures { (i : ℕ) → has result i ≡ (has self i || has other i) }
    {
        RowSet {
            bits: self.bits | other.bits,
        }
    }
}
