//! The line of an exchange in a report.
ghost use Rattle.std.specs.Prelude.{◌≡◌, ◌≤◌, length};
ghost use Rattle.orb_engine.specs.Outputs.{line_of, verdict_name};

use arrayvec::ArrayVec;
use media_state::MediaState;
use orb_bytes::{decimal, extend};
use response_rules::Rule;

/// The number of the exchange, the verdict, the rule, the state of the media resource after it, and how
/// long the body is: one line.
#[tactic(auto, unfolding(crate::specs::Outputs::line_of))]
pub(crate) fn line(number: u64, rule: Rule, state: MediaState, size: u64) -> ArrayVec<u8, 100>
    ensures line { result.items ≡ line_of number rule state size }
    ensures short { length result.items ≤ 100 }
{
    let mut line = ArrayVec::new();
    extend(&mut line, decimal(number).as_slice());
    extend(&mut line, b" ");
    extend(&mut line, verdict(rule.allows()));
    extend(&mut line, b" ");
    extend(&mut line, rule.name());
    extend(&mut line, b" ");
    extend(&mut line, state.name().as_slice());
    extend(&mut line, b" ");
    extend(&mut line, decimal(size).as_slice());
    extend(&mut line, b"\n");
    line
}

fn verdict(allow: bool) -> &'static [u8]
    ensures value { result.now ≡ verdict_name allow }
    ensures short { length result.now ≤ 5 }
{
    if allow { b"allow" } else { b"block" }
}
