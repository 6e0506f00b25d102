//! What stands in the place of a response that is blocked.
ghost use Rattle.std.specs.Prelude.{◌≡◌};
ghost use Rattle.orb_io.specs.Calls.{Puts};
ghost use Rattle.body_filter.specs.Reply.{reply_of};

use crate::pushing::{WriteFault, put_bytes};
use arrayvec::ArrayVec;
use orb_bytes::extend;
use orb_io::Sink;
use response_rules::Rule;

/// The most bytes of a reply.
const REPLY: usize = 80;

/// What stands in the reply before the name of the rule.
const PREFIX: &[u8] = b"HTTP/1.1 403 Forbidden\r\nContent-Length: 0\r\nOrb-Rule: ";

/// Puts the reply that names the rule, by one push.
pub(crate) fn put_reply<O: Sink>(rule: Rule, sink: &mut O) -> Result<(), WriteFault>
    ensures puts { Puts O.Sink result sink.old sink.new (reply_of rule) }
{
    put_bytes(reply(rule).as_slice(), sink)
}

fn reply(rule: Rule) -> ArrayVec<u8, REPLY>
    ensures { result.items ≡ reply_of rule }
{
    let mut text = ArrayVec::new();
    extend(&mut text, PREFIX);
    extend(&mut text, rule.name());
    extend(&mut text, b"\r\n\r\n");
    text
}
