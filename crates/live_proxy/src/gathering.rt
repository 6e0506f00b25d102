//! A head, gathered from a source.
ghost use Rattle.std.specs.Prelude.{◌≡◌, ◌≤◌, [], length};
ghost use Rattle.live_proxy.specs.Hearing.{Lost, Gathers, GatherCause};

use exchanges::HeadRoom;
use http_exchange::HeadTaken;
use orb_io::Source;

/// A head that came. Of the last bytes that were pulled, so many belong to it.
#[derive(Clone, Copy, Debug)]
pub(crate) struct Came {
    /// How many bytes were pulled.
    pub(crate) count: usize,
    /// How many of them belong to the head.
    pub(crate) used: usize,
}

/// Why no head came.
#[derive(Clone, Copy, Debug)]
pub(crate) enum HeadStop {
    /// It is longer than a head may be.
    Long,
    /// The source ended.
    Ended,
    /// The source failed.
    Failed,
}

/// Pulls into the room until a head has come.
pub(crate) fn gather<I: Source>(
    head: &mut HeadRoom,
    input: &mut I,
    room: &mut [u8],
) -> Result<Came, HeadStop>
    requires empty { head.old ≡ [] }
    requires room { 1 ≤ length room.old }
    ensures gathers { Lost (I.left input.old) (I.left input.new) (Gathers result head.new room.new (I.left input.new)) }
    ensures cause { GatherCause result (I.faults input.old) (I.faults input.new) }
    ensures keeps { I.kept input.old input.new }
    ensures size { length room.new ≡ length room.old }
{
    'pulls: loop {
        match input.pull(room) {
            Err(_) => return Err(HeadStop::Failed),
            Ok(0) => return Err(HeadStop::Ended),
            Ok(count) => match head.take(&room[..count]) {
                HeadTaken::Open => {}
                HeadTaken::Long => return Err(HeadStop::Long),
                HeadTaken::Whole { used } => return Ok(Came { count, used }),
            },
        }
    }
}
