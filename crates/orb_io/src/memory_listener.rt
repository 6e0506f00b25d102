//! A listener in memory.
ghost use Rattle.std.specs.Prelude.{◌≡◌, IsNone, IfSome, Some, None};
ghost use Rattle.orb_io.specs.Told.{HasCause};
ghost use Rattle.orb_io.specs.Links.{links_at_first, link_at, links_with};
ghost use Rattle.orb_io.specs.Listeners.{HandsOut, BindsInMemory, AcceptsInMemory};

use crate::fault_count::raised;
use crate::listener::Listener;
use crate::memory_link::MemoryLink;
use crate::outside::Failed;
use crate::ready_links::ReadyLinks;
use std::marker::Model;

/// A listener whose links stand ready in memory. It takes no memory.
#[derive(Drop)]
pub struct MemoryListener {
    links: ReadyLinks,
    handed: u64,
    bind_faults: u64,
    accept_faults: u64,
}

impl Model for MemoryListener {
    ghost use Rattle.std.specs.Prelude.{◌≤◌};
    ghost use Rattle.orb_io.specs.Listeners.{ListenerState};

    ghost Value = { ListenerState };

    ghost view = { λ s. record {
      links = s.links;
      handed = s.handed;
      bind_faults = s.bind_faults;
      accept_faults = s.accept_faults;
    } };

    ghost invariant = { λ s. s.handed ≤ s.links.next };
}

impl MemoryListener {
    /// Hands the links out in their order, each once, and passes over places without one. The
    /// calls of `bind` and `accept` are numbered together from 0, and those whose numbers stand in
    /// `fails` fail. `accept` fails too where no link is left.
    pub fn new(links: Vec<Option<MemoryLink>>, fails: Vec<u64>) -> MemoryListener
        ensures { result ≡ record {
          links = links_at_first links.items fails.items;
          handed = 0;
          bind_faults = 0;
          accept_faults = 0;
        } }
    {
        MemoryListener {
            links: ReadyLinks::new(links, fails),
            handed: 0,
            bind_faults: 0,
            accept_faults: 0,
        }
    }

    /// The link at the place, from 0; `None` exactly where none stands there.
    pub fn link(&self, index: usize) -> Option<&MemoryLink>
        ensures none { IsNone result → link_at self.now.links.places index ≡ None }
        ensures some { IfSome result (λ l. link_at self.now.links.places index ≡ Some l.now) }
    {
        self.links.link(index)
    }
}

impl Listener for MemoryListener {
    type Link = MemoryLink;

    ghost bind_faults = { λ s. s.bind_faults };

    ghost accept_faults = { λ s. s.accept_faults };

    ghost handed = { λ s. Some s.handed };

    /// Fails at its numbers, and else does nothing with the address.
    fn bind(&mut self, _addr: &[u8]) -> Result<(), Failed>
        ensures cause { HasCause self.old.bind_faults self.new.bind_faults result }
        ensures accepts { self.new.accept_faults ≡ self.old.accept_faults }
        ensures handed { Some self.new.handed ≡ Some self.old.handed }
        ensures does { BindsInMemory self.old self.new result }
    {
        if self.links.call_fails() {
            return Err(raised(&mut self.bind_faults));
        }
        Ok(())
    }

    fn accept(&mut self) -> Result<MemoryLink, Failed>
        ensures cause { HasCause self.old.accept_faults self.new.accept_faults result }
        ensures binds { self.new.bind_faults ≡ self.old.bind_faults }
        ensures handed { HandsOut (Some self.old.handed) (Some self.new.handed) result }
        ensures does { AcceptsInMemory self.old self.new result }
    {
        match self.links.hand_out() {
            Ok(link) => {
                self.handed += 1;
                Ok(link)
            }
            Err(Failed) => Err(raised(&mut self.accept_faults)),
        }
    }

    /// Puts the link at the place from which the last was handed out. Where that place isn't empty, or no link
    /// was handed out yet, the link is dropped.
    fn give_back(&mut self, link: MemoryLink)
        ensures binds { self.new.bind_faults ≡ self.old.bind_faults }
        ensures accepts { self.new.accept_faults ≡ self.old.accept_faults }
        ensures handed { Some self.new.handed ≡ Some self.old.handed }
        ensures does { self.new ≡ record self.old { links = links_with self.old.links link } }
    {
        self.links.put_back(link);
    }
}

#[cfg(test)]
mod tests {
    use super::*;
    use crate::memory_sink::MemorySink;
    use crate::memory_source::MemorySource;
    use crate::outside::Sink;
    use std::alloc::Global;
    use std::test::Fail;

    enum Call {
        Bind,
        Accept,
        GiveBack(&'static str),
    }

    /// What is called, the name of a link that is handed out, whether it failed, and what then stands.
    static ROWS: [(Call, &str, bool, [&str; 4]); 11] = [
        (Call::GiveBack("x"), "", false, ["", "a", "", "b"]),
        (Call::Bind, "", false, ["", "a", "", "b"]),
        (Call::Bind, "", true, ["", "a", "", "b"]),
        (Call::Accept, "", true, ["", "a", "", "b"]),
        (Call::Accept, "a", false, ["", "", "", "b"]),
        (Call::GiveBack("x"), "", false, ["", "x", "", "b"]),
        (Call::GiveBack("y"), "", false, ["", "x", "", "b"]),
        (Call::Accept, "b", false, ["", "x", "", ""]),
        (Call::Accept, "", true, ["", "x", "", ""]),
        (Call::GiveBack("b"), "", false, ["", "x", "", "b"]),
        (Call::Accept, "", true, ["", "x", "", "b"]),
    ];

    /// A link that shows this name.
    fn named(alloc: Global, name: &str) -> Result<MemoryLink, Fail> {
        let source = MemorySource::new(Vec::new(alloc), 1, Vec::new(alloc));
        let mut sink = MemorySink::open(alloc, 1, Vec::new(alloc))?;
        let _ = sink.push(name.as_bytes());
        Ok(MemoryLink::new(source, sink))
    }

    /// The name of a link, and nothing where none stands.
    fn name_of(link: Option<&MemoryLink>) -> &[u8] {
        match link {
            Some(link) => link.sink().bytes(),
            None => b"",
        }
    }

    #[test]
    fn hands_out_each_link_once_and_takes_one_back(rt: HostRuntime) -> Result<(), Fail> {
        let alloc = rt.alloc();
        let mut links = Vec::new(alloc);
        for name in ["a", "b"] {
            links.push(None)?;
            links.push(Some(named(alloc, name)?))?;
        }
        let mut listener = MemoryListener::new(links, [1, 2].to_vec(alloc)?);
        for (call, name, fails, stand) in &ROWS {
            match call {
                Call::Bind => assert_eq!(rt; listener.bind(b"here").is_err(), *fails),
                Call::Accept => {
                    let link = listener.accept().ok();
                    assert_eq!(rt; link.is_none(), *fails);
                    assert_eq!(rt; name_of(link.as_ref()), name.as_bytes());
                }
                Call::GiveBack(name) => listener.give_back(named(alloc, name)?),
            }
            for (index, name) in stand.iter().enumerate() {
                assert_eq!(rt; name_of(listener.link(index)), name.as_bytes());
            }
        }
        assert_eq!(rt; listener.bind_faults, 1);
        assert_eq!(rt; listener.accept_faults, 3);
        assert_eq!(rt; listener.handed, 2);
        assert!(rt; listener.link(4).is_none());
        Ok(())
    }
}
