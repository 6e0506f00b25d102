//! Pulls of a run, which takes a bounded number of bytes.
ghost use Rattle.std.specs.Prelude.{◌≡◌, ◌≤◌, ◌<◌, ◌+◌, ◌^◌, length, IfOk};
ghost use Rattle.orb_io.specs.Told.{Pulls, HasCause};

use crate::outside::{Failed, Source};

/// The most bytes that one run takes.
pub const MOST_OF_A_RUN: u64 = 1 << 62;

/// Pulls into the room what comes next in a run that has taken so many bytes: no more than are left of the run, while
/// any are left. A run that has taken them all pulls once more, to see whether more come.
///
/// Answers [`Failed`] only where the source's count of faults rose.
pub fn pull_within<I: Source>(input: &mut I, room: &mut [u8], taken: u64) -> Result<usize, Failed>
    requires run { taken ≤ 2 ^ 62 }
    requires room { 1 ≤ length room.old }
    ensures room { length room.new ≡ length room.old }
    ensures bound { IfOk result (λ n. n ≤ length room.new) }
    ensures few { IfOk result (λ n. taken < 2 ^ 62 → taken + n ≤ 2 ^ 62) }
    ensures bytes { Pulls (I.left input.old) (I.left input.new) result room.new }
    ensures cause { HasCause (I.faults input.old) (I.faults input.new) result }
    ensures keeps { I.kept input.old input.new }
{
    let size = size_of_pull(room.len(), taken);
    input.pull(&mut room[..size])
}

/// How many bytes the next pull may give.
fn size_of_pull(room: usize, taken: u64) -> usize
    requires run { taken ≤ 2 ^ 62 }
    requires some { 1 ≤ room }
    ensures some { 1 ≤ result }
    ensures most { result ≤ room }
    ensures few { taken < 2 ^ 62 → taken + result ≤ 2 ^ 62 }
{
    let left = MOST_OF_A_RUN - taken;
    if left == 0 || left >= room as u64 {
        room
    } else {
        left as usize
    }
}
