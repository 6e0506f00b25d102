//! Links that stand ready in memory, for a listener or a dialer to hand out.
ghost use Rattle.std.specs.Prelude.{◌≡◌, ◌<◌, ◌^◌, IsNone, IfSome, IfOk, Some, None};
ghost use Rattle.orb_io.specs.Links.{links_at_first, fails_next, called, link_at, IsFirstPlace, TakesNext, HandsNext, links_with};

use crate::memory_link::MemoryLink;
use crate::outside::Failed;
use std::marker::Model;

/// Links at their places, some of which may be empty, each to be handed out once. It takes no memory.
#[derive(Drop)]
pub(crate) struct ReadyLinks {
    places: Vec<Option<MemoryLink>>,
    // The place after that of the last link handed out.
    next: usize,
    fails: Vec<u64>,
    calls: u64,
}

impl Model for ReadyLinks {
    ghost use Rattle.std.specs.Prelude.{◌≤◌, length};
    ghost use Rattle.orb_io.specs.Links.{LinksState};

    ghost Value = { LinksState };

    ghost view = { λ s. record {
      places = s.places.items;
      next = s.next;
      fails = s.fails.items;
      calls = s.calls;
    } };

    ghost invariant = { λ s. s.next ≤ length s.places.items };
}

impl ReadyLinks {
    /// Calls are numbered from 0, and those whose numbers stand in `fails` fail.
    pub(crate) fn new(places: Vec<Option<MemoryLink>>, fails: Vec<u64>) -> ReadyLinks
        ensures { result ≡ links_at_first places.items fails.items }
    {
        ReadyLinks {
            places,
            next: 0,
            fails,
            calls: 0,
        }
    }

    /// The link at the place, from 0; `None` exactly where none stands there.
    pub(crate) fn link(&self, index: usize) -> Option<&MemoryLink>
        ensures none { IsNone result → link_at self.now.places index ≡ None }
        ensures some { IfSome result (λ l. link_at self.now.places index ≡ Some l.now) }
    {
        self.places.get(index)?.as_ref()
    }

    /// Whether this call is one that fails; it is counted.
    pub(crate) fn call_fails(&mut self) -> bool
        ensures fails { result ≡ fails_next self.old }
        ensures after { self.new ≡ called self.old }
    {
        let fails = self.fails.contains(&self.calls);
        self.calls = self.calls.saturating_add(1);
        fails
    }

    /// Hands out the next link. It fails at its numbers, and where no link is left.
    pub(crate) fn hand_out(&mut self) -> Result<MemoryLink, Failed>
        ensures hands { HandsNext self.old self.new result }
        ensures fits { IfOk result (λ _. self.new.next < 2 ^ 64) }
    {
        if self.call_fails() {
            return Err(Failed);
        }
        match self.take_next() {
            Some(link) => Ok(link),
            None => Err(Failed),
        }
    }

    /// The next link, where there is one.
    fn take_next(&mut self) -> Option<MemoryLink>
        ensures takes { TakesNext self.old self.new result }
        ensures fits { IfSome result (λ _. self.new.next < 2 ^ 64) }
    {
        let place = next_place(&self.places, self.next)?;
        self.next = place + 1;
        self.places[place].take()
    }

    /// Puts the link at the place from which the last was handed out. Where that place isn't empty, or no link
    /// was handed out yet, the link is dropped.
    pub(crate) fn put_back(&mut self, link: MemoryLink)
        ensures { self.new ≡ links_with self.old link }
    {
        let Some(last) = self.next.checked_sub(1) else {
            return;
        };
        if self.places[last].is_none() {
            self.places[last] = Some(link);
        }
    }
}

/// The first place from this one on at which a link stands.
fn next_place(places: &[Option<MemoryLink>], from: usize) -> Option<usize>
    ensures { IsFirstPlace places.now from result }
{
    for (place, link) in places.iter().enumerate() {
        if place >= from && link.is_some() {
            return Some(place);
        }
    }
    None
}
