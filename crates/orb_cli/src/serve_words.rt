//! The top calls of the words that serve connections.
ghost use Rattle.std.specs.Prelude.{map, string_bytes};
ghost use Rattle.command_line.specs.Taken.{Serve, Proxy};
ghost use Rattle.orb_cli.specs.Serving.{HasServeCauses, status_in_log};
ghost use Rattle.orb_cli.specs.Report.{client_status_of};
ghost use Rattle.orb_cli.specs.ServeWords.{IsServeAnswer};

use crate::outcome::ServeOutcome;
use crate::proxying::proxy_connections;
use crate::serving::serve_connections;
use command_line::{Command, Refused, read_words};
use orb_io::{Dialer, Listener, Sink};
use std::alloc::Global;

/// Runs the command line `serve ADDRESS COUNT` over a listener and a log.
///
/// It binds to the address, and serves the stated number of connections one after the other: what comes from each
/// is a recording of HTTP exchanges, of which the responses that are allowed go back, and a reply in the place of
/// each other. The log gets a line for each connection. All other words are refused. It returns if each `accept`
/// does. A fault is answered only where the listener or the log had one; want of memory only with nothing bound and
/// nothing written.
pub fn serve<L: Listener, O: Sink>(
    alloc: Global,
    words: &[String],
    listener: &mut L,
    log: &mut O,
) -> ServeOutcome
    ensures served { IsServeAnswer Serve status_in_log (map string_bytes words.now)
        (L.handed listener.old) (L.handed listener.new) (O.told log.old) (O.told log.new) result }
    ensures causes { HasServeCauses (L.bind_faults listener.old) (L.bind_faults listener.new)
        (L.accept_faults listener.old) (L.accept_faults listener.new)
        (O.faults log.old) (O.faults log.new) result }
{
    match read_words(alloc, words) {
        Ok(Command::Serve { address, count }) => {
            serve_connections(alloc, address, count, listener, log)
        }
        Ok(_) => ServeOutcome::Usage,
        Err(Refused::Usage) => ServeOutcome::Usage,
        Err(Refused::NoMemory) => ServeOutcome::NoMemory,
    }
}

/// Runs the command line `proxy ADDRESS COUNT` over a listener, a dialer and a log.
///
/// It binds to the address, and serves the stated number of connections one after the other, with one table of media
/// states: each is a client that asks by a request in absolute form, which goes to the host that its target names. The
/// client gets the response where it is allowed, and a reply in its place where it isn't. The log gets a line for each
/// connection. All other words are refused. It returns if each `accept` does, and each call on its links. A fault is
/// answered only where the listener or the log had one.
pub fn proxy<L: Listener, D: Dialer, O: Sink>(
    alloc: Global,
    words: &[String],
    listener: &mut L,
    dialer: &mut D,
    log: &mut O,
) -> ServeOutcome
    ensures served { IsServeAnswer Proxy client_status_of (map string_bytes words.now)
        (L.handed listener.old) (L.handed listener.new) (O.told log.old) (O.told log.new) result }
    ensures causes { HasServeCauses (L.bind_faults listener.old) (L.bind_faults listener.new)
        (L.accept_faults listener.old) (L.accept_faults listener.new)
        (O.faults log.old) (O.faults log.new) result }
{
    match read_words(alloc, words) {
        Ok(Command::Proxy { address, count }) => {
            proxy_connections(alloc, address, count, listener, dialer, log)
        }
        Ok(_) => ServeOutcome::Usage,
        Err(Refused::Usage) => ServeOutcome::Usage,
        Err(Refused::NoMemory) => ServeOutcome::NoMemory,
    }
}

#[cfg(test)]
mod tests {
    use super::*;
    use orb_io::{MemoryDialer, MemoryLink, MemoryListener, MemorySink, MemorySource};
    use std::test::Fail;

    /// A request, and a response that is allowed.
    const SCRIPT: &[u8] = b"GET / HTTP/1.1\r\nSec-Fetch-Mode: no-cors\r\n\r\n\
         HTTP/1.1 200 OK\r\nContent-Type: text/javascript\r\nContent-Length: 2\r\n\r\n\
         x;";

    /// That response.
    const RESPONSE: &[u8] =
        b"HTTP/1.1 200 OK\r\nContent-Type: text/javascript\r\nContent-Length: 2\r\n\r\nx;";

    /// The words, what comes from two links, the calls of the listener and of the log that fail, the answer, the log,
    /// and what the links got.
    type Row = (
        &'static str,
        [&'static [u8]; 2],
        &'static [u64],
        &'static [u64],
        ServeOutcome,
        &'static [u8],
        [&'static [u8]; 2],
    );

    use ServeOutcome::{AcceptFault, BindFault, Done, Usage, WriteFault};

    static ROWS: [Row; 10] = [
        (
            "serve here 2",
            [SCRIPT, b"GET"],
            &[],
            &[],
            Done,
            b"1 0\n2 3\n",
            [RESPONSE, b""],
        ),
        (
            "serve here 2",
            [b"GET / HTTP/1.1\r\nSec-", b"GET\r\n\r\n"],
            &[],
            &[],
            Done,
            b"1 3\n2 2\n",
            [b"", b""],
        ),
        (
            "serve here 1",
            [SCRIPT, SCRIPT],
            &[],
            &[],
            Done,
            b"1 0\n",
            [RESPONSE, b""],
        ),
        (
            "serve here 2",
            [SCRIPT, SCRIPT],
            &[0],
            &[],
            BindFault,
            b"",
            [b"", b""],
        ),
        (
            "serve here 2",
            [SCRIPT, SCRIPT],
            &[2],
            &[],
            AcceptFault,
            b"1 0\n",
            [RESPONSE, b""],
        ),
        (
            "serve here 3",
            [SCRIPT, SCRIPT],
            &[],
            &[],
            AcceptFault,
            b"1 0\n2 0\n",
            [RESPONSE, RESPONSE],
        ),
        (
            "serve here 2",
            [SCRIPT, SCRIPT],
            &[],
            &[0],
            WriteFault,
            b"",
            [RESPONSE, b""],
        ),
        (
            "serve here 2",
            [SCRIPT, SCRIPT],
            &[],
            &[1],
            WriteFault,
            b"1 0\n",
            [RESPONSE, RESPONSE],
        ),
        (
            "serve here 0",
            [SCRIPT, SCRIPT],
            &[],
            &[],
            Usage,
            b"",
            [b"", b""],
        ),
        ("filter", [SCRIPT, SCRIPT], &[], &[], Usage, b"", [b"", b""]),
    ];

    /// A link from which these bytes come.
    fn link(alloc: Global, bytes: &[u8]) -> Result<MemoryLink, Fail> {
        let source = MemorySource::new(bytes.to_vec(alloc)?, 50, Vec::new(alloc));
        let sink = MemorySink::open(alloc, 100, Vec::new(alloc))?;
        Ok(MemoryLink::new(source, sink))
    }

    fn words_of(alloc: Global, line: &str) -> Result<Vec<String>, Fail> {
        let mut words = Vec::new(alloc);
        for word in line.split(' ') {
            words.push(String::from_str(alloc, word)?)?;
        }
        Ok(words)
    }

    #[test]
    fn connections_are_served_and_given_back(rt: HostRuntime) -> Result<(), Fail> {
        let alloc = rt.alloc();
        for (line, recordings, calls, pushes, owed, lines, outputs) in &ROWS {
            let mut links = Vec::new(alloc);
            for bytes in recordings {
                links.push(Some(link(alloc, bytes)?))?;
            }
            let mut listener = MemoryListener::new(links, calls.to_vec(alloc)?);
            let mut log = MemorySink::open(alloc, 100, pushes.to_vec(alloc)?)?;
            let answer = serve(alloc, &words_of(alloc, line)?, &mut listener, &mut log);
            assert_eq!(rt; answer, *owed);
            assert_eq!(rt; log.bytes(), *lines);
            for (index, output) in outputs.iter().enumerate() {
                let given_back = listener.link(index).map(|link| link.sink().bytes());
                assert_eq!(rt; given_back, Some(*output));
            }
        }
        Ok(())
    }

    /// What a client of a proxy sends, what comes from upstream, the calls of the dialer that fail, the log, and what
    /// the client and upstream get.
    type ProxyRow = (
        &'static [u8],
        &'static [u8],
        &'static [u64],
        &'static [u8],
        &'static [u8],
        &'static [u8],
    );

    const REQUEST: &[u8] = b"GET http://a.test/p?q HTTP/1.1\r\nSec-Fetch-Mode: no-cors\r\n\r\n";

    const SENT_ON: &[u8] =
        b"GET /p?q HTTP/1.1\r\nHost: a.test\r\nSec-Fetch-Mode: no-cors\r\nConnection: close\r\n\r\n";

    const MARKED: &[u8] =
        b"HTTP/1.1 200 OK\r\nContent-Type: text/html\r\nX-Content-Type-Options: nosniff\r\n\r\n<p>";

    const REPLY: &[u8] =
        b"HTTP/1.1 403 Forbidden\r\nContent-Length: 0\r\nOrb-Rule: nosniff-blocklisted\r\n\r\n";

    static PROXY_ROWS: [ProxyRow; 6] = [
        (REQUEST, RESPONSE, &[], b"1 0\n", RESPONSE, SENT_ON),
        (REQUEST, MARKED, &[], b"1 0\n", REPLY, SENT_ON),
        (
            b"GET /p HTTP/1.1\r\n\r\n",
            RESPONSE,
            &[],
            b"1 2\n",
            b"",
            b"",
        ),
        (REQUEST, RESPONSE, &[0], b"1 5\n", b"", b""),
        (b"GET", RESPONSE, &[], b"1 3\n", b"", b""),
        (REQUEST, b"HTTP/1.1 200 OK\r\n", &[], b"1 3\n", b"", SENT_ON),
    ];

    /// That link alone.
    fn one_link(alloc: Global, bytes: &[u8]) -> Result<Vec<Option<MemoryLink>>, Fail> {
        let mut links = Vec::new(alloc);
        links.push(Some(link(alloc, bytes)?))?;
        Ok(links)
    }

    #[test]
    fn clients_are_answered_and_given_back(rt: HostRuntime) -> Result<(), Fail> {
        let alloc = rt.alloc();
        for (request, response, calls, lines, shown, sent_on) in &PROXY_ROWS {
            let mut listener = MemoryListener::new(one_link(alloc, request)?, Vec::new(alloc));
            let mut dialer = MemoryDialer::new(one_link(alloc, response)?, calls.to_vec(alloc)?);
            let mut log = MemorySink::open(alloc, 100, Vec::new(alloc))?;
            let words = words_of(alloc, "proxy here 1")?;
            let answer = proxy(alloc, &words, &mut listener, &mut dialer, &mut log);
            assert_eq!(rt; answer, Done);
            assert_eq!(rt; log.bytes(), *lines);
            let client = listener.link(0).map(|link| link.sink().bytes());
            assert_eq!(rt; client, Some(*shown));
            let upstream = dialer.link(0).map(|link| link.sink().bytes());
            assert_eq!(rt; upstream, Some(*sent_on));
        }
        Ok(())
    }
}
