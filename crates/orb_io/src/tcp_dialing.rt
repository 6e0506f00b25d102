//! The dialer over the system's sockets. It tells nothing but its faults.
ghost use Rattle.std.specs.Prelude.{◌≡◌};
ghost use Rattle.orb_io.specs.Told.{HasCause};
ghost use Rattle.orb_io.specs.Counts.{CountsFault};

use crate::dialer::Dialer;
use crate::fault_count::raised;
use crate::outside::Failed;
use crate::tcp::TcpLink;
use std::marker::Model;
use std::net::{Net, TcpStream};
use std::str;

/// A dialer over TCP.
#[derive(Drop)]
pub struct TcpDialing<'r, R: Net> {
    net: &'r R,
    faults: u64,
}

impl<'r, R: Net> Model for TcpDialing<'r, R> {
    ghost use Rattle.std.specs.Prelude.{ℕ};

    ghost Value = { ℕ };

    ghost view = { λ s. s.faults };
}

impl<'r, R: Net> TcpDialing<'r, R> {
    /// With no fault so far.
    pub fn new(net: &'r R) -> TcpDialing<'r, R>
        ensures { result ≡ 0 }
    {
        TcpDialing { net, faults: 0 }
    }
}

impl<'r, R: Net> Dialer for TcpDialing<'r, R> {
    type Link = TcpLink<R::Stream>;

    ghost faults = { λ s. s };

    /// Connects to the first address of the host that answers. A host that isn't text, and each error of the system, is
    /// a fault.
    fn dial(&mut self, host: &[u8], port: u16) -> Result<TcpLink<R::Stream>, Failed>
        ensures cause { HasCause self.old self.new result }
        ensures counts { CountsFault self.old self.new result }
    {
        let Ok(host) = str::from_utf8(host) else {
            return Err(raised(&mut self.faults));
        };
        match TcpStream::connect(self.net, (without_brackets(host), port)) {
            Ok(stream) => Ok(TcpLink::new(stream)),
            Err(_) => Err(raised(&mut self.faults)),
        }
    }

    /// Closes the connection.
    fn give_back(&mut self, link: TcpLink<R::Stream>) {
        drop(link);
    }
}

/// The address between brackets, where the host is one.
fn without_brackets(host: &str) -> &str {
    match host.strip_prefix('[') {
        Some(rest) => rest.strip_suffix(']').unwrap_or(host),
        None => host,
    }
}

#[cfg(test)]
mod tests {
    use super::*;
    use crate::outside::{Sink, Source};
    use std::io::{Read, Write};
    use std::net::TcpListener;
    use std::test::Fail;

    #[test]
    fn a_dialled_link_reads_and_writes(rt: HostRuntime) -> Result<(), Fail> {
        let listener = TcpListener::bind(&rt, "127.0.0.1:0")?;
        let port = listener.local_addr()?.port();
        let mut dialing = TcpDialing::new(&rt);
        assert!(rt; dialing.dial(b"\xff", port).is_err());
        assert!(rt; dialing.dial(b"[127.0.0.1", port).is_err());
        let Ok(mut link) = dialing.dial(b"[127.0.0.1]", port) else {
            panic!(rt; "no link was dialled");
        };
        assert_eq!(rt; link.push(b"ask"), Ok(()));
        let (mut peer, _) = listener.accept()?;
        let mut asked = [0u8; 3];
        peer.read_exact(&mut asked)?;
        assert_eq!(rt; asked.as_slice(), b"ask".as_slice());
        peer.write_all(b"x")?;
        assert_eq!(rt; link.pull(&mut asked), Ok(1));
        dialing.give_back(link);
        assert_eq!(rt; peer.read(&mut asked)?, 0);
        assert_eq!(rt; dialing.faults, 2);
        Ok(())
    }
}
