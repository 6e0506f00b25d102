//! A dialer in memory.
ghost use Rattle.std.specs.Prelude.{◌≡◌, IsNone, IfSome, Some, None};
ghost use Rattle.orb_io.specs.Told.{HasCause};
ghost use Rattle.orb_io.specs.Links.{links_at_first, link_at, links_with};
ghost use Rattle.orb_io.specs.Dialers.{DialsInMemory};

use crate::dialer::Dialer;
use crate::fault_count::raised;
use crate::memory_link::MemoryLink;
use crate::outside::Failed;
use crate::ready_links::ReadyLinks;
use std::marker::Model;

/// A dialer whose links stand ready in memory, whatever is dialled. It takes no memory.
#[derive(Drop)]
pub struct MemoryDialer {
    links: ReadyLinks,
    faults: u64,
}

impl Model for MemoryDialer {
    ghost use Rattle.orb_io.specs.Dialers.{DialerState};

    ghost Value = { DialerState };

    ghost view = { λ s. record { links = s.links; faults = s.faults } };
}

impl MemoryDialer {
    /// Hands the links out in their order, each once, and passes over places without one. The calls of
    /// `dial` are numbered from 0, and those whose numbers stand in `fails` fail. It fails too where no link is left.
    pub fn new(links: Vec<Option<MemoryLink>>, fails: Vec<u64>) -> MemoryDialer
        ensures { result ≡ record { links = links_at_first links.items fails.items; faults = 0 } }
    {
        MemoryDialer {
            links: ReadyLinks::new(links, fails),
            faults: 0,
        }
    }

    /// The link at the place, from 0; `None` exactly where none stands there.
    pub fn link(&self, index: usize) -> Option<&MemoryLink>
        ensures none { IsNone result → link_at self.now.links.places index ≡ None }
        ensures some { IfSome result (λ l. link_at self.now.links.places index ≡ Some l.now) }
    {
        self.links.link(index)
    }
}

impl Dialer for MemoryDialer {
    type Link = MemoryLink;

    ghost faults = { λ s. s.faults };

    fn dial(&mut self, _host: &[u8], _port: u16) -> Result<MemoryLink, Failed>
        ensures cause { HasCause self.old.faults self.new.faults result }
        ensures does { DialsInMemory self.old self.new result }
    {
        match self.links.hand_out() {
            Ok(link) => Ok(link),
            Err(Failed) => Err(raised(&mut self.faults)),
        }
    }

    /// Puts the link at the place from which the last was handed out. Where that place isn't empty, or no link
    /// was handed out yet, the link is dropped.
    fn give_back(&mut self, link: MemoryLink)
        ensures faults { self.new.faults ≡ self.old.faults }
        ensures does { self.new ≡ record self.old { links = links_with self.old.links link } }
    {
        self.links.put_back(link);
    }
}

#[cfg(test)]
mod tests {
    use super::*;
    use crate::memory_sink::MemorySink;
    use crate::memory_source::MemorySource;
    use std::test::Fail;

    /// Whether a call fails, and where links stand once the link was given back.
    const DIALS: [(bool, [bool; 4]); 5] = [
        (false, [false, true, false, true]),
        (true, [false, true, false, true]),
        (true, [false, true, false, true]),
        (false, [false, true, false, true]),
        (true, [false, true, false, true]),
    ];

    #[test]
    fn dials_each_link_once_and_takes_one_back(rt: HostRuntime) -> Result<(), Fail> {
        let alloc = rt.alloc();
        let mut links = Vec::new(alloc);
        for _ in 0..2 {
            links.push(None)?;
            let source = MemorySource::new(Vec::new(alloc), 1, Vec::new(alloc));
            let sink = MemorySink::open(alloc, 0, Vec::new(alloc))?;
            links.push(Some(MemoryLink::new(source, sink)))?;
        }
        let mut dialer = MemoryDialer::new(links, [1, 2].to_vec(alloc)?);
        for (fails, stand) in DIALS {
            let dialled = dialer.dial(b"a.test", 80);
            assert_eq!(rt; dialled.is_err(), fails);
            if let Ok(link) = dialled {
                dialer.give_back(link);
            }
            for (index, stands) in stand.iter().enumerate() {
                assert_eq!(rt; dialer.link(index).is_some(), *stands);
            }
        }
        assert_eq!(rt; dialer.faults, 3);
        Ok(())
    }
}
