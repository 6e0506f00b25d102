//! The listener and the links over the system's sockets. Nothing is known of what comes from there: they tell
//! neither bytes nor numbers, and count their faults.
ghost use Rattle.std.specs.Prelude.{◌≡◌, None};
ghost use Rattle.std.specs.Io.{ReadsAtMost};
ghost use Rattle.std.specs.Io.KnownBytes.{ReadConsumes};
ghost use Rattle.std.proofs.Common.{refl, ◌∙◌};
ghost use Rattle.orb_io.specs.Told.{Pulls, Pushes, HasCause, untold};
ghost use Rattle.orb_io.specs.Counts.{CountsFault};
ghost use Rattle.orb_io.specs.Streams.{PushAppends};
ghost use Rattle.orb_io.specs.Listeners.{HandsOut};

use crate::fault_count::raised;
use crate::listener::Listener;
use crate::outside::{Duplex, Failed, Sink, Source};
use crate::streams::{counted, write_and_flush};
use std::io::{Read, Write};
use std::marker::Model;
use std::net::{Net, OpenListener, TcpListener};
use std::str;

/// A connection.
#[derive(Drop)]
pub struct TcpLink<S> {
    stream: S,
    pull_faults: u64,
    push_faults: u64,
}

impl<S> TcpLink<S> {
    ghost use Rattle.orb_io.specs.TcpAdapters.{pull_faults, push_faults};

    /// Over the stream, with no fault so far.
    pub(crate) fn new(stream: S) -> TcpLink<S>
        ensures pulls { pull_faults result ≡ 0 }
        ensures pushes { push_faults result ≡ 0 }
    {
        TcpLink {
            stream,
            pull_faults: 0,
            push_faults: 0,
        }
    }
}

impl<S: Read + Write> Source for TcpLink<S> {
    ghost use Rattle.orb_io.specs.TcpAdapters.{stream_of, pull_faults, push_faults};

    ghost left = { λ _. None };

    ghost faults = { λ s. pull_faults s };

    ghost kept = { λ s t. push_faults t ≡ push_faults s };

    ghost kept_reflexive = { λ _. refl };

    ghost kept_transitive = { λ _ _ _ p q. q ∙ p };

    /// Reads once. Each error of a read is a fault, an interrupted one too.
    fn pull(&mut self, buf: &mut [u8]) -> Result<usize, Failed>
        ensures bound { ReadsAtMost result buf.new }
        ensures bytes { Pulls None None result buf.new }
        ensures cause { HasCause (pull_faults self.old) (pull_faults self.new) result }
        ensures keeps { push_faults self.new ≡ push_faults self.old }
        ensures counts { CountsFault (pull_faults self.old) (pull_faults self.new) result }
        ensures reads { ReadConsumes (S.remaining (stream_of self.old))
            (S.remaining (stream_of self.new)) result buf.new }
    {
        counted(self.stream.read(buf), &mut self.pull_faults)
    }
}

impl<S: Read + Write> Sink for TcpLink<S> {
    ghost use Rattle.orb_io.specs.TcpAdapters.{stream_of, pull_faults, push_faults};

    ghost told = { λ _. untold };

    ghost faults = { λ s. push_faults s };

    ghost kept = { λ s t. pull_faults t ≡ pull_faults s };

    ghost told_agrees = { λ _. record { number = tt; fits = tt } };

    ghost kept_reflexive = { λ _. refl };

    ghost kept_transitive = { λ _ _ _ p q. q ∙ p };

    /// Writes the whole piece and flushes. Each error is a fault, an interrupted write too, and so
    /// is a write that takes nothing of what is left.
    fn push(&mut self, piece: &[u8]) -> Result<(), Failed>
        ensures bytes { Pushes result untold untold piece.now }
        ensures cause { HasCause (push_faults self.old) (push_faults self.new) result }
        ensures keeps { pull_faults self.new ≡ pull_faults self.old }
        ensures counts { CountsFault (push_faults self.old) (push_faults self.new) result }
        ensures writes { PushAppends (S.contents (stream_of self.old))
            (S.contents (stream_of self.new)) result piece.now }
    {
        counted(
            write_and_flush(&mut self.stream, piece),
            &mut self.push_faults,
        )
    }
}

impl<S: Read + Write> Duplex for TcpLink<S> {
    ghost pull_leaves_told = { λ _ _ _. refl };

    ghost pull_leaves_faults = { λ _ _ same. same };

    ghost push_leaves_left = { λ _ _ _. refl };

    ghost push_leaves_faults = { λ _ _ same. same };
}

/// A listener over TCP. It doesn't tell how many links it handed out.
#[derive(Drop)]
pub struct TcpListening<'r, R: Net> {
    net: &'r R,
    listener: Option<R::Listener>,
    bind_faults: u64,
    accept_faults: u64,
}

impl<'r, R: Net> Model for TcpListening<'r, R> {
    ghost use Rattle.orb_io.specs.Listeners.{ListenerFaults};

    ghost Value = { ListenerFaults };

    ghost view = { λ s. record { bind_faults = s.bind_faults; accept_faults = s.accept_faults } };
}

impl<'r, R: Net> TcpListening<'r, R> {
    /// Bound to no address yet, with no fault so far.
    pub fn new(net: &'r R) -> TcpListening<'r, R>
        ensures { result ≡ record { bind_faults = 0; accept_faults = 0 } }
    {
        TcpListening {
            net,
            listener: None,
            bind_faults: 0,
            accept_faults: 0,
        }
    }
}

impl<'r, R: Net> Listener for TcpListening<'r, R> {
    type Link = TcpLink<R::Stream>;

    ghost bind_faults = { λ s. s.bind_faults };

    ghost accept_faults = { λ s. s.accept_faults };

    ghost handed = { λ _. None };

    /// Binds to the address, a host and a port as `127.0.0.1:8080`. What was bound before is closed. An address that
    /// isn't text, and each error of the system, is a fault.
    fn bind(&mut self, addr: &[u8]) -> Result<(), Failed>
        ensures cause { HasCause self.old.bind_faults self.new.bind_faults result }
        ensures accepts { self.new.accept_faults ≡ self.old.accept_faults }
        ensures counts { CountsFault self.old.bind_faults self.new.bind_faults result }
    {
        let Ok(addr) = str::from_utf8(addr) else {
            return Err(raised(&mut self.bind_faults));
        };
        match TcpListener::bind(self.net, addr) {
            Ok(listener) => {
                self.listener = Some(listener);
                Ok(())
            }
            Err(_) => Err(raised(&mut self.bind_faults)),
        }
    }

    /// Waits for a connection. Each error of the system is a fault, and so is a call before any address was bound.
    fn accept(&mut self) -> Result<TcpLink<R::Stream>, Failed>
        ensures cause { HasCause self.old.accept_faults self.new.accept_faults result }
        ensures binds { self.new.bind_faults ≡ self.old.bind_faults }
        ensures handed { HandsOut None None result }
        ensures counts { CountsFault self.old.accept_faults self.new.accept_faults result }
    {
        let Some(listener) = &self.listener else {
            return Err(raised(&mut self.accept_faults));
        };
        match listener.accept() {
            Ok((stream, _)) => Ok(TcpLink::new(stream)),
            Err(_) => Err(raised(&mut self.accept_faults)),
        }
    }

    /// Closes the connection.
    fn give_back(&mut self, link: TcpLink<R::Stream>) {
        drop(link);
    }
}

#[cfg(test)]
mod tests {
    use super::*;
    use std::net::{Shutdown, TcpStream};
    use std::test::Fail;

    #[test]
    fn a_link_reads_and_writes_until_it_is_given_back(rt: HostRuntime) -> Result<(), Fail> {
        let mut listening = TcpListening::new(&rt);
        assert!(rt; listening.accept().is_err());
        assert!(rt; listening.bind(b"\xff").is_err());
        assert!(rt; listening.bind(b"nowhere").is_err());
        assert_eq!(rt; listening.bind(b"127.0.0.1:0"), Ok(()));
        let Some(listener) = &listening.listener else {
            panic!(rt; "bound, and no listener");
        };
        let mut peer = TcpStream::connect(&rt, listener.local_addr()?)?;
        peer.write_all(b"ask")?;
        peer.shutdown(Shutdown::Write)?;
        let Ok(mut link) = listening.accept() else {
            panic!(rt; "no link was handed out");
        };
        let mut asked = Vec::new(rt.alloc());
        let mut buf = [0u8; 2];
        for _ in 0..4 {
            let count = link.pull(&mut buf).unwrap_or(0);
            asked.extend_from_slice(&buf[..count])?;
        }
        assert_eq!(rt; asked.as_slice(), b"ask".as_slice());
        assert_eq!(rt; link.push(b"answer"), Ok(()));
        listening.give_back(link);
        let mut answered = Vec::new(rt.alloc());
        peer.read_to_end(&mut answered)?;
        assert_eq!(rt; answered.as_slice(), b"answer".as_slice());
        assert_eq!(rt; (listening.bind_faults, listening.accept_faults), (2, 1));
        Ok(())
    }
}
