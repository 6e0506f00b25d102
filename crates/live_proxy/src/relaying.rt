//! A response that is relayed: pulled from upstream, judged, and put into the client as far as it may go out.
ghost use Rattle.std.specs.Prelude.{◌≡◌, ◌≤◌, ◌^◌, ℕ, List, [], ◌++◌, length, take, drop};
ghost use Rattle.orb_io.specs.Told.{Gives};
ghost use Rattle.orb_io.specs.Calls.{Acts};
ghost use Rattle.http_exchange.specs.HeadTexts.{IsHeadText};
ghost use Rattle.body_filter.specs.Reads.{limit_of};
ghost use Rattle.exchanges.specs.declared.room.Context.{Context};
ghost use Rattle.live_proxy.specs.Relaying.{Receives, HasPassed, Begins, Passes, PumpSays, RelaySays, Pulled, ClientCause, RelayCauses};

use crate::gathering::{Came, HeadStop, gather};
use crate::outcomes::ProxyOutcome;
use body_filter::Filter;
use exchanges::{Context, HeadRoom, is_chunked, is_to_end};
use http_exchange::{BadKind, Taken, Unframer};
use media_state::MediaState;
use orb_io::{MOST_OF_A_RUN, Sink, Source, pull_within};

/// The most bytes that one pull gives.
const PULL: usize = 8192;

/// A body that comes.
#[derive(Drop)]
pub(crate) struct Arriving {
    pub(crate) unframer: Unframer,
    /// It runs to the end of the connection.
    pub(crate) to_end: bool,
}

/// Relays the response to a request: pulls it from upstream, judges it, and puts into the client what may go out of it, or
/// the reply in its place. Gives the state in which a whole response leaves its media resource.
pub(crate) fn relay<U: Source, K: Sink>(
    head: &mut HeadRoom,
    filter: &mut Filter,
    context: Context,
    upstream: &mut U,
    client: &mut K,
) -> Result<MediaState, ProxyOutcome>
    requires limit { context.limit ≡ limit_of filter.old }
    ensures relays { Gives (K.told client.old) (K.told client.new) []
        (Pulled result (U.left upstream.old) (U.left upstream.new) [] (RelaySays result context)) }
    ensures causes { RelayCauses result (U.faults upstream.old) (U.faults upstream.new)
        (K.faults client.old) (K.faults client.new) }
    ensures upstream { U.kept upstream.old upstream.new }
    ensures client { K.kept client.old client.new }
    ensures limit { limit_of filter.new ≡ limit_of filter.old }
{
    head.clear();
    let mut room = [0u8; PULL];
    let came = match gather(head, upstream, &mut room) {
        Ok(came) => came,
        Err(HeadStop::Long) => return Err(ProxyOutcome::HeadLimit),
        Err(HeadStop::Ended) => return Err(ProxyOutcome::Cut),
        Err(HeadStop::Failed) => return Err(ProxyOutcome::PeerFault),
    };
    let arriving = match begin(head, filter, context, client) {
        Ok(arriving) => arriving,
        Err(outcome) => return Err(outcome),
    };
    let taken = count_of(head.as_slice(), &came);
    relay_body(arriving, filter, came, taken, upstream, &mut room, client)
}

/// How many bytes of a response have come: its head, and those after it in the room.
fn count_of(head: &[u8], came: &Came) -> u64
    requires text { IsHeadText head.now }
    requires used { came.now.used ≤ came.now.count }
    requires few { came.now.count ≤ 8192 }
    ensures is { (room : List ℕ) → came.now.count ≤ length room
        → result ≡ length (head.now ++ drop came.now.used (take came.now.count room)) }
    ensures few { result ≤ 2 ^ 62 }
{
    (head.len() + (came.count - came.used)) as u64
}

/// Relays the body of a response, of which the first bytes stand in the room. So many bytes of the response came
/// before.
fn relay_body<U: Source, K: Sink>(
    arriving: Arriving,
    filter: &mut Filter,
    came: Came,
    before: u64,
    upstream: &mut U,
    room: &mut [u8],
    client: &mut K,
) -> Result<MediaState, ProxyOutcome>
    requires can { (c : Context) × (bytes : List ℕ) × (given : List ℕ)
        × Receives c arriving filter.old bytes (drop came.used (take came.count room.old)) given × (before ≡ length bytes) }
    requires few { before ≤ 2 ^ 62 }
    requires used { came.used ≤ came.count }
    requires count { came.count ≤ length room.old }
    requires room { 1 ≤ length room.old }
    ensures relays { (c : Context) (bytes given : List ℕ)
        → Receives c arriving filter.old bytes (drop came.used (take came.count room.old)) given → before ≡ length bytes
        → Gives (K.told client.old) (K.told client.new) given
        (Pulled result (U.left upstream.old) (U.left upstream.new) bytes (RelaySays result c)) }
    ensures causes { RelayCauses result (U.faults upstream.old) (U.faults upstream.new)
        (K.faults client.old) (K.faults client.new) }
    ensures upstream { U.kept upstream.old upstream.new }
    ensures client { K.kept client.old client.new }
    ensures limit { limit_of filter.new ≡ limit_of filter.old }
{
    let mut arriving = arriving;
    let (_, rest) = room[..came.count].split_at(came.used);
    match pass(&mut arriving, filter, rest, client) {
        Ok(()) => {}
        Err(outcome) => return Err(outcome),
    }
    match pump(&mut arriving, filter, before, upstream, room, client) {
        Ok(()) => {}
        Err(outcome) => return Err(outcome),
    }
    match filter.end(client) {
        Ok(verdict) => Ok(verdict.state),
        Err(_) => Err(ProxyOutcome::WriteFault),
    }
}

/// Reads the head of a response, and begins to filter it.
fn begin<K: Sink>(
    head: &mut HeadRoom,
    filter: &mut Filter,
    context: Context,
    client: &mut K,
) -> Result<Arriving, ProxyOutcome>
    requires text { IsHeadText head.old }
    requires limit { context.limit ≡ limit_of filter.old }
    ensures acts { Acts K.Sink (ClientCause result) client.old client.new (λ told told'.
        (rest : List ℕ) → Gives told told' [] (Begins result context filter.new head.old rest)) }
    ensures same { head.new ≡ head.old }
    ensures limit { limit_of filter.new ≡ limit_of filter.old }
{
    let (facts, frame) = match head.response(context) {
        Ok(read) => read,
        Err(kind) => return Err(ProxyOutcome::Bad { kind }),
    };
    match filter.begin_with(facts, head.as_slice(), is_chunked(frame), client) {
        Ok(()) => Ok(Arriving {
            unframer: Unframer::new(frame),
            to_end: is_to_end(frame),
        }),
        Err(_) => Err(ProxyOutcome::WriteFault),
    }
}

/// Unframes and filters the bytes that come next, up to the end of the body.
fn pass<K: Sink>(
    arriving: &mut Arriving,
    filter: &mut Filter,
    piece: &[u8],
    client: &mut K,
) -> Result<(), ProxyOutcome>
    requires { (c : Context) × (bytes : List ℕ) × (given : List ℕ) × Receives c arriving.old filter.old bytes piece.now given }
    ensures acts { Acts K.Sink (ClientCause result) client.old client.new (λ told told'.
        (c : Context) (bytes given : List ℕ) → Receives c arriving.old filter.old bytes piece.now given
        → Gives told told' given (Passes result c arriving.new filter.new bytes)) }
    ensures limit { limit_of filter.new ≡ limit_of filter.old }
{
    let mut rest = piece;
    'runs: while !rest.is_empty() && !arriving.unframer.is_whole() {
        match arriving.unframer.feed(rest) {
            Taken::Got { body, used } => {
                rest = rest.split_at(used).1;
                match filter.feed(body, client) {
                    Ok(()) => {}
                    Err(_) => return Err(ProxyOutcome::WriteFault),
                }
            }
            Taken::Bad { .. } => {
                return Err(ProxyOutcome::Bad {
                    kind: BadKind::BadChunk,
                });
            }
        }
    }
    Ok(())
}

/// Pulls the rest of a body, and passes it on. So many bytes of the response came before.
fn pump<U: Source, K: Sink>(
    arriving: &mut Arriving,
    filter: &mut Filter,
    before: u64,
    upstream: &mut U,
    room: &mut [u8],
    client: &mut K,
) -> Result<(), ProxyOutcome>
    requires can { (c : Context) × (bytes : List ℕ) × (given : List ℕ) × HasPassed c arriving.old filter.old bytes given
        × (before ≡ length bytes) }
    requires few { before ≤ 2 ^ 62 }
    requires room { 1 ≤ length room.old }
    ensures pumps { (c : Context) (bytes given : List ℕ) → HasPassed c arriving.old filter.old bytes given → before ≡ length bytes
        → Gives (K.told client.old) (K.told client.new) given
        (Pulled result (U.left upstream.old) (U.left upstream.new) bytes (PumpSays result c filter.new)) }
    ensures causes { RelayCauses result (U.faults upstream.old) (U.faults upstream.new)
        (K.faults client.old) (K.faults client.new) }
    ensures upstream { U.kept upstream.old upstream.new }
    ensures client { K.kept client.old client.new }
    ensures limit { limit_of filter.new ≡ limit_of filter.old }
{
    let mut taken = before;
    'pulls: while !arriving.unframer.is_whole() {
        let Ok(count) = pull_within(upstream, room, taken) else {
            return Err(ProxyOutcome::PeerFault);
        };
        if count == 0 {
            return if arriving.to_end {
                Ok(())
            } else {
                Err(ProxyOutcome::Cut)
            };
        }
        if taken == MOST_OF_A_RUN {
            return Err(ProxyOutcome::Endless);
        }
        match pass(arriving, filter, &room[..count], client) {
            Ok(()) => taken += count as u64,
            Err(outcome) => return Err(outcome),
        }
    }
    Ok(())
}
