//! The exchanges, by their numbers.
ghost use Rattle.std.specs.Prelude.{◌≡◌, ◌<◌, length};
ghost use Rattle.trial.specs.Trials.{numbered_text};

use crate::bodies::{append_sent, body_of};
use crate::heads::{ROOM, append_response, start_request};
use crate::kinds::kind_of;
use arrayvec::ArrayVec;

/// Writes the exchange of this number, in the place of what stands there.
#[tactic(auto, unfolding(crate::specs::Trials::kind_text))]
pub(crate) fn write_exchange(text: &mut ArrayVec<u8, ROOM>, number: u64)
    ensures text { text.new.items ≡ numbered_text number }
    ensures some { 0 < length text.new.items }
{
    let kind = kind_of(number);
    let body = body_of(kind, (number % 1009) as usize);
    start_request(text, kind, number / 8 % 16);
    append_response(text, kind, body.len() as u64);
    append_sent(text, kind, body.as_slice());
}
