//! The proxy: what it keeps, and how it takes a request.
ghost use Rattle.std.specs.Prelude.{◌≡◌, ◌≤◌, [], None, IfOk, OnErr};
ghost use Rattle.orb_io.specs.Told.{Gives};
ghost use Rattle.std.specs.FinMap as map;
ghost use Rattle.http_exchange.specs.HeadTexts.{IsHeadText};
ghost use Rattle.live_proxy.specs.Hearing.{Lost, Hears, RequestAnswers, RequestCause};
ghost use Rattle.live_proxy.specs.Requests.{Request, forwarded};
ghost use Rattle.live_proxy.specs.Answers.{context_of, Sends, Answered, AnswerCauses};
ghost use Rattle.live_proxy.specs.Proxies.{limit_of, table_of, Holds, IsIdle};

use crate::forwarding::prepare;
use crate::gathering::{HeadStop, gather};
use crate::outcomes::{ProxyOutcome, ProxyRefusal};
use crate::relaying::relay;
use crate::targets::{ProxyTarget, TargetRefusal, host_of};
use body_filter::Filter;
use exchanges::{Context, HeadRoom, enter, id_of};
use http_exchange::RequestHead;
use media_state::{MediaState, MediaTable};
use orb_io::{Duplex, Failed, NoMemory, Sink, Source};
use response_rules::Policy;
use std::alloc::Global;

/// The most bytes that one pull gives.
const PULL: usize = 8192;

/// A proxy that serves one exchange a connection, and keeps one table of media states over all of them.
#[derive(Drop)]
pub struct Proxy {
    media: MediaTable,
    head: HeadRoom,
    filter: Filter,
    // The request head that is sent on.
    text: Vec<u8>,
    asked: Option<Asked>,
}

/// A request that is not answered yet.
#[derive(Drop)]
pub(crate) struct Asked {
    /// What it says of the fetch that made it.
    asks: RequestHead,
    /// The state of its media resource.
    state: MediaState,
    target: ProxyTarget,
}

impl Proxy {
    /// A proxy that reads so many bytes of a body for a script, from 1,024 to 268,435,456. It takes all memory that it
    /// will use, but for what a request's target and head take.
    pub fn open(alloc: Global, limit: u64) -> Result<Proxy, NoMemory>
        requires low { 1024 ≤ limit }
        requires high { limit ≤ 268435456 }
        ensures limit { IfOk result (λ p. limit_of p ≡ limit) }
        ensures table { IfOk result (λ p. table_of p ≡ map.empty) }
        ensures idle { IfOk result IsIdle }
    {
        let media = MediaTable::open(alloc)?;
        let head = HeadRoom::open(alloc)?;
        let filter = Filter::open(alloc, limit)?;
        Ok(Proxy {
            media,
            head,
            filter,
            text: Vec::new(alloc),
            asked: None,
        })
    }

    /// Takes the request of a client: pulls until its head has come. What comes after the head is dropped, and so is a
    /// request that was taken before.
    ///
    /// Refused are, in this order: a head that doesn't end in 65,536 bytes, or bytes that are none; a request with a body;
    /// a bad media id; a bad target; and an id for which the table has no room. The table is then as before. `NoMemory`
    /// may come where there is no memory to read the target of a request, and to write its head.
    pub fn request<K: Source>(&mut self, alloc: Global, client: &mut K) -> Result<(), ProxyRefusal>
        ensures answers { Lost (K.left client.old) (K.left client.new)
            (RequestAnswers result (table_of self.old) self.new (K.left client.new)) }
        ensures cause { RequestCause result (K.faults client.old) (K.faults client.new) }
        ensures keeps { K.kept client.old client.new }
        ensures refused { OnErr result (table_of self.new ≡ table_of self.old) }
        ensures idle { OnErr result (IsIdle self.new) }
        ensures limit { limit_of self.new ≡ limit_of self.old }
    {
        self.asked = None;
        self.head.clear();
        let mut room = [0u8; PULL];
        match gather(&mut self.head, client, &mut room) {
            Ok(_) => self.hear(alloc),
            Err(HeadStop::Long) => Err(ProxyRefusal::HeadLimit),
            Err(HeadStop::Ended) => Err(ProxyRefusal::Cut),
            Err(HeadStop::Failed) => Err(ProxyRefusal::ReadFault),
        }
    }

    /// The host that the request is for, as its target has it.
    pub fn host(&self) -> &[u8]
        requires { (r : Request) × Holds self.now r }
        ensures { (r : Request) → Holds self.now r → result.now ≡ r.target.host }
    {
        match &self.asked {
            Some(asked) => host_of(&asked.target.uri),
            None => unreachable!(),
        }
    }

    /// The port that the request is for: 80 where its target has none.
    pub fn port(&self) -> u16
        requires { (r : Request) × Holds self.now r }
        ensures { (r : Request) → Holds self.now r → result ≡ r.target.port }
    {
        match &self.asked {
            Some(asked) => asked.target.port,
            None => unreachable!(),
        }
    }

    /// Answers the request that was taken: sends its head to upstream, and gives the client the response of upstream where
    /// it is allowed, and else a reply with status 403 in its place. What upstream sends after the response is dropped.
    ///
    /// The state that a whole response leaves is kept for the media id of the request; after every other answer the table
    /// is as before. `PeerFault` comes only where upstream failed, as a source or as a sink, and `WriteFault` only where the
    /// client did. It takes no memory.
    pub fn answer<U: Duplex, K: Sink>(&mut self, upstream: &mut U, client: &mut K) -> ProxyOutcome
        requires { (r : Request) × Holds self.old r }
        ensures sends { (r : Request) → Holds self.old r
            → Sends result (U.told upstream.old) (U.told upstream.new) (forwarded r) }
        ensures answers { (r : Request) → Holds self.old r
            → Gives (K.told client.old) (K.told client.new) []
            (Answered result (context_of (limit_of self.old) (table_of self.old) r.text.asks) (table_of self.old) (table_of self.new)
            (U.left upstream.old) (U.left upstream.new)) }
        ensures causes { AnswerCauses result (U.Source.faults upstream.old) (U.Source.faults upstream.new)
            (U.Sink.faults upstream.old) (U.Sink.faults upstream.new) (K.faults client.old) (K.faults client.new) }
        ensures keeps { K.kept client.old client.new }
        ensures idle { IsIdle self.new }
        ensures limit { limit_of self.new ≡ limit_of self.old }
    {
        let Some(asked) = self.asked.take() else {
            unreachable!()
        };
        let asks = asked.asks;
        let context = Context {
            policy: Policy::Orb,
            state: asked.state,
            asks,
            limit: self.filter.limit(),
        };
        match upstream.push(self.text.as_slice()) {
            Ok(()) => {}
            Err(Failed) => return ProxyOutcome::PeerFault,
        }
        match relay(&mut self.head, &mut self.filter, context, upstream, client) {
            Ok(state) => {
                self.media.leave(id_of(&asks), state);
                ProxyOutcome::Done
            }
            Err(outcome) => outcome,
        }
    }

    /// Takes the request whose head has come.
    fn hear(&mut self, alloc: Global) -> Result<(), ProxyRefusal>
        requires text { IsHeadText self.old.head }
        requires none { self.old.asked ≡ None }
        ensures hears { Hears result (table_of self.old) self.new self.old.head }
        ensures refused { OnErr result (table_of self.new ≡ table_of self.old) }
        ensures idle { OnErr result (IsIdle self.new) }
        ensures limit { limit_of self.new ≡ limit_of self.old }
    {
        let asks = match self.head.request() {
            Ok(asks) => asks,
            Err(kind) => return Err(ProxyRefusal::Bad { kind }),
        };
        let target = match prepare(alloc, self.head.as_slice(), &mut self.text) {
            Ok(target) => target,
            Err(TargetRefusal::BadTarget) => return Err(ProxyRefusal::BadTarget),
            Err(TargetRefusal::NoMemory) => return Err(ProxyRefusal::NoMemory),
        };
        match enter(&mut self.media, &asks) {
            Ok(state) => {
                self.asked = Some(Asked {
                    asks,
                    state,
                    target,
                });
                Ok(())
            }
            Err(_) => Err(ProxyRefusal::MediaFull),
        }
    }
}

#[cfg(test)]
mod tests {
    use super::*;
    use http_exchange::BadKind;
    use orb_io::{MemoryLink, MemorySink, MemorySource, NeverFails};
    use std::test::Fail;

    const LIMIT: u64 = 1024;

    /// Targets, and the host and the port of those that are taken.
    static TARGETS: [(&str, Option<(&str, u16)>); 16] = [
        ("http://a.test/p?q", Some(("a.test", 80))),
        ("HTTP://a.test:8080", Some(("a.test", 8080))),
        ("http://[::1]:65535?q", Some(("[::1]", 65535))),
        ("http://[::1]/", Some(("[::1]", 80))),
        ("/p", None),
        ("a.test:80", None),
        ("*", None),
        ("https://a.test/", None),
        ("http://user@a.test/", None),
        ("http://a.test/#f", None),
        ("http://:80/", None),
        ("http:///p", None),
        ("http://a.test:0/", None),
        ("http://a.test:65536/", None),
        ("http://a.test:/", None),
        ("http://a.test:+80/", None),
    ];

    /// What a proxy answers to these bytes of a client, in pieces of this size.
    fn heard(
        alloc: Global,
        proxy: &mut Proxy,
        bytes: &[u8],
        size: usize,
    ) -> Result<Result<(), ProxyRefusal>, Fail> {
        let mut client = NeverFails::new(bytes.to_vec(alloc)?, size.max(1));
        Ok(proxy.request(alloc, &mut client))
    }

    /// What a proxy answers to a request for the target.
    fn heard_target(
        alloc: Global,
        proxy: &mut Proxy,
        target: &str,
    ) -> Result<Result<(), ProxyRefusal>, Fail> {
        let mut head = b"GET ".to_vec(alloc)?;
        head.extend_from_slice(target.as_bytes())?;
        head.extend_from_slice(b" HTTP/1.1\r\n\r\n")?;
        heard(alloc, proxy, head.as_slice(), 7)
    }

    #[test]
    fn targets_are_taken_or_refused(rt: HostRuntime) -> Result<(), Fail> {
        let alloc = rt.alloc();
        let mut proxy = Proxy::open(alloc, LIMIT)?;
        for (target, owed) in &TARGETS {
            let answer = heard_target(alloc, &mut proxy, target)?;
            let owed_answer = match owed {
                Some(_) => Ok(()),
                None => Err(ProxyRefusal::BadTarget),
            };
            assert_eq!(rt; answer, owed_answer, "{target}");
            let taken = match &proxy.asked {
                Some(asked) => Some((host_of(&asked.target), asked.target.port)),
                None => None,
            };
            assert_eq!(rt;
                taken,
                (*owed).map(|(host, port)| (host.as_bytes(), port)),
                "{target}"
            );
        }
        Ok(())
    }

    /// The host of a target, or nothing.
    fn host_of(target: &ProxyTarget) -> &[u8] {
        match target.uri.host() {
            Some(host) => host.as_bytes(),
            None => b"",
        }
    }

    #[test]
    fn fields_of_one_connection_stay_behind(rt: HostRuntime) -> Result<(), Fail> {
        let alloc = rt.alloc();
        let head =
            b"PUT http://a.test?q HTTP/1.0\r\nhost: b\r\nAccept:x\r\nCONNECTION: X\r\nproxy-connection: x\r\nKeep-Alive: x\r\nAccept-Encoding: gzip\r\nOrb-Media: 7\r\nX:\r\n\r\nX: y\r\n\r\n";
        let sent_on =
            b"PUT /?q HTTP/1.1\r\nHost: a.test\r\nAccept: x\r\nX: \r\nConnection: close\r\n\r\n";
        let mut proxy = Proxy::open(alloc, LIMIT)?;
        assert_eq!(rt; heard(alloc, &mut proxy, head, 100)?, Ok(()));
        assert_eq!(rt; proxy.text.as_slice(), sent_on.as_slice());
        Ok(())
    }

    /// What a client sends, and why it is refused: the first cause in their order.
    static REFUSED: [(&[u8], ProxyRefusal); 8] = [
        (b"", ProxyRefusal::Cut),
        (b"GET / HTTP/1.1\r\n", ProxyRefusal::Cut),
        (
            b"GET\r\n\r\n",
            ProxyRefusal::Bad {
                kind: BadKind::BadHead,
            },
        ),
        (
            b"GET / HTTP/1.1\r\nContent-Length: 1\r\nOrb-Media: x\r\n\r\n",
            ProxyRefusal::Bad {
                kind: BadKind::RequestBody,
            },
        ),
        (
            b"GET / HTTP/1.1\r\nOrb-Media: x\r\n\r\n",
            ProxyRefusal::Bad {
                kind: BadKind::BadMediaId,
            },
        ),
        (
            b"GET / HTTP/1.1\r\nSec-Fetch-Mode: no-cors\r\nSec-Fetch-Dest: audio\r\nOrb-Media: 4096\r\n\r\n",
            ProxyRefusal::BadTarget,
        ),
        (
            b"GET http://a/ HTTP/1.1\r\nSec-Fetch-Mode: no-cors\r\nSec-Fetch-Dest: audio\r\nOrb-Media: 4096\r\n\r\n",
            ProxyRefusal::MediaFull,
        ),
        (b"GET http://a/ HTTP/1.1\r\n\r", ProxyRefusal::Cut),
    ];

    #[test]
    fn the_first_cause_refuses(rt: HostRuntime) -> Result<(), Fail> {
        let alloc = rt.alloc();
        let mut proxy = Proxy::open(alloc, LIMIT)?;
        for id in 0..4096 {
            assert_eq!(rt; proxy.media.admit(id), Ok(()));
        }
        for (bytes, refusal) in &REFUSED {
            assert_eq!(rt; heard(alloc, &mut proxy, bytes, 1)?, Err(*refusal));
            assert!(rt; proxy.asked.is_none());
        }
        let long = [b'a'; 65_536];
        assert_eq!(rt;
            heard(alloc, &mut proxy, &long, 9000)?,
            Err(ProxyRefusal::HeadLimit)
        );
        assert_eq!(rt;
            heard_at_fault(alloc, &mut proxy)?,
            Err(ProxyRefusal::ReadFault)
        );
        Ok(())
    }

    /// What a proxy answers to a client whose third pull fails.
    fn heard_at_fault(alloc: Global, proxy: &mut Proxy) -> Result<Result<(), ProxyRefusal>, Fail> {
        let mut client = MemorySource::new(b"GET".to_vec(alloc)?, 1, [2].to_vec(alloc)?);
        Ok(proxy.request(alloc, &mut client))
    }

    /// A request for a script.
    const REQUEST: &[u8] = b"GET http://a.test/p?q HTTP/1.1\r\nSec-Fetch-Mode: no-cors\r\n\r\n";

    /// What upstream gets of it.
    const SENT_ON: &[u8] =
        b"GET /p?q HTTP/1.1\r\nHost: a.test\r\nSec-Fetch-Mode: no-cors\r\nConnection: close\r\n\r\n";

    const SCRIPT: &[u8] =
        b"HTTP/1.1 200 OK\r\nContent-Type: text/javascript\r\nContent-Length: 2\r\n\r\nx;";

    const MARKED: &[u8] =
        b"HTTP/1.1 200 OK\r\nContent-Type: text/html\r\nX-Content-Type-Options: nosniff\r\n\r\n<p>";

    const REPLY: &[u8] =
        b"HTTP/1.1 403 Forbidden\r\nContent-Length: 0\r\nOrb-Rule: nosniff-blocklisted\r\n\r\n";

    const CHUNKED: &[u8] =
        b"HTTP/1.1 200 OK\r\nContent-Type: text/javascript\r\nTransfer-Encoding: chunked\r\n\r\n1\r\nx\r\n0\r\n\r\n";

    const BAD_CHUNK: &[u8] =
        b"HTTP/1.1 200 OK\r\nContent-Type: text/javascript\r\nTransfer-Encoding: chunked\r\n\r\n1\r\nxy";

    const CHUNKED_HEAD: &[u8] =
        b"HTTP/1.1 200 OK\r\nContent-Type: text/javascript\r\nTransfer-Encoding: chunked\r\n\r\n";

    const ENDLESS_HEAD: &[u8] = b"HTTP/1.1 200 OK\r\nX: ";

    /// What upstream sends, its pulls and pushes that fail, the pushes of the client that fail, how it ends, and what the
    /// client gets.
    type Row = (
        &'static [u8],
        &'static [u64],
        &'static [u64],
        &'static [u64],
        ProxyOutcome,
        &'static [u8],
    );

    const BAD_HEAD: ProxyOutcome = ProxyOutcome::Bad {
        kind: BadKind::BadHead,
    };

    const BAD_CHUNKS: ProxyOutcome = ProxyOutcome::Bad {
        kind: BadKind::BadChunk,
    };

    use ProxyOutcome::{Cut, Done, PeerFault, WriteFault};

    static ROWS: [Row; 12] = [
        (SCRIPT, &[], &[], &[], Done, SCRIPT),
        (MARKED, &[], &[], &[], Done, REPLY),
        (CHUNKED, &[], &[], &[], Done, CHUNKED),
        (BAD_CHUNK, &[], &[], &[], BAD_CHUNKS, CHUNKED_HEAD),
        (b"", &[], &[], &[], Cut, b""),
        (ENDLESS_HEAD, &[], &[], &[], Cut, b""),
        (b"HTTP\r\n\r\n", &[], &[], &[], BAD_HEAD, b""),
        (SCRIPT, &[0], &[], &[], PeerFault, b""),
        (MARKED, &[1], &[], &[], PeerFault, b""),
        (SCRIPT, &[], &[0], &[], PeerFault, b""),
        (SCRIPT, &[], &[], &[0], WriteFault, b""),
        (MARKED, &[], &[], &[0], WriteFault, b""),
    ];

    /// Upstream: its response, in pieces of this size, and its pulls and pushes that fail.
    fn upstream(
        alloc: Global,
        response: &[u8],
        size: usize,
        pulls: &[u64],
        pushes: &[u64],
    ) -> Result<MemoryLink, Fail> {
        let source = MemorySource::new(response.to_vec(alloc)?, size.max(1), pulls.to_vec(alloc)?);
        let sink = MemorySink::open(alloc, 200, pushes.to_vec(alloc)?)?;
        Ok(MemoryLink::new(source, sink))
    }

    /// How the request is answered by this upstream.
    fn answered(
        alloc: Global,
        proxy: &mut Proxy,
        upstream: &mut MemoryLink,
        client: &mut MemorySink,
    ) -> Result<ProxyOutcome, Fail> {
        let mut source = NeverFails::new(REQUEST.to_vec(alloc)?, 50);
        match proxy.request(alloc, &mut source) {
            Ok(()) => Ok(proxy.answer(upstream, client)),
            Err(_) => Err("the request is refused".into()),
        }
    }

    /// Whether a row is answered as it is owed, in pieces of this size.
    fn is_answered(
        alloc: Global,
        proxy: &mut Proxy,
        row: (&[u8], &[u64], &[u64], &[u64]),
        size: usize,
        owed: (ProxyOutcome, &[u8]),
    ) -> Result<bool, Fail> {
        let (response, pulls, sends, pushes) = row;
        let mut link = upstream(alloc, response, size, pulls, sends)?;
        let mut client = MemorySink::open(alloc, 200, pushes.to_vec(alloc)?)?;
        let outcome = answered(alloc, proxy, &mut link, &mut client)?;
        let sent_on = !sends.is_empty() || link.sink().bytes() == SENT_ON;
        Ok(sent_on && outcome == owed.0 && client.bytes() == owed.1)
    }

    #[test]
    fn responses_are_shown_or_refused(rt: HostRuntime) -> Result<(), Fail> {
        let alloc = rt.alloc();
        let mut proxy = Proxy::open(alloc, LIMIT)?;
        for (response, pulls, sends, pushes, outcome, shown) in &ROWS {
            let row = (*response, *pulls, *sends, *pushes);
            for size in [1, 200] {
                let right = is_answered(alloc, &mut proxy, row, size, (*outcome, *shown))?;
                assert!(rt; right, "{outcome:?} in pieces of {size}");
            }
        }
        Ok(())
    }
}
