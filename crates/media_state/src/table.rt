//! A table of media states by id, in memory that is taken once.
//!
//! It is a vector with room for all the ids that it may keep, so that nothing after
//! [`MediaTable::open`] can fail for want of memory. Its entries stand in the order of their ids: no ids are slow to find.
ghost use Rattle.std.specs.Prelude.{◌≡◌, ◌↔◌, ◌≤◌, true, IfOk, IfErr, OnOk, OnErr, IsErr};
ghost use Rattle.std.specs.Ordering.{nat_cmp};
ghost use Rattle.std.specs.FinMap as map;
ghost use Rattle.media_state.specs.Table.{admitted, HasNoRoom, Enters, IsKept, stored};
ghost use Rattle.media_state.specs.Entries.{AreInOrder, StandsAt, HasGapAt};

use crate::states::MediaState;
use orb_io::NoMemory;
use std::alloc::Global;
use std::marker::Model;

/// The most ids that a table keeps.
const MOST_IDS: usize = 4096;

/// The table keeps as many ids as it may.
#[derive(Clone, Copy, Debug, PartialEq, Eq)]
pub struct Full;

/// The states of at most 4,096 ids.
#[derive(Drop)]
pub struct MediaTable {
    entries: Vec<(u64, MediaState)>,
}

impl Model for MediaTable {
    ghost use Rattle.std.specs.Prelude.{◌≤◌, vec_len, vec_capacity};
    ghost use Rattle.std.specs.Ordering.{nat_cmp};
    ghost use Rattle.std.specs.FinMap as map;
    ghost use Rattle.media_state.specs.Table.{States};
    ghost use Rattle.media_state.specs.Entries.{AreInOrder};
    ghost use Rattle.std.specs.Coded.{coded_ℕ};
    ghost use Rattle.media_state.specs.contracts.states.MediaState as state;

    ghost Value = { States };

    ghost coded = { map.code coded_ℕ state.the_row.coded };

    ghost view = { λ t. map.from_sorted t.entries.items };

    ghost invariant = { λ t. (vec_len t.entries ≤ 4096)
        × (4096 ≤ vec_capacity t.entries) × AreInOrder t.entries.items };
}

impl MediaTable {
    /// An empty table, with room for all the ids that it may keep.
    #[tactic(auto, using(crate::proofs::TableLemmas::view_none))]
    pub fn open(alloc: Global) -> Result<MediaTable, NoMemory>
        ensures { IfOk result (λ table. table ≡ map.empty) }
    {
        match Vec::with_capacity(alloc, MOST_IDS) {
            Ok(entries) => Ok(MediaTable { entries }),
            Err(_) => Err(NoMemory),
        }
    }

    /// The state that is kept of the id; `None` exactly where the id isn't kept.
    pub fn look(&self, id: u64) -> Option<MediaState>
        ensures { result ≡ map.get self.now id }
    {
        match search(&self.entries, id) {
            Ok(place) => Some(self.entries[place].1),
            Err(_) => None,
        }
    }

    /// Keeps the id: as `Initial` where it is new, and as it is where it is kept. `Full` exactly where
    /// 4,096 other ids are kept; the table is then as before.
    pub fn admit(&mut self, id: u64) -> Result<(), Full>
        ensures ok { OnOk result (self.new ≡ admitted self.old id) }
        ensures full { IsErr result ↔ HasNoRoom self.old id }
        ensures err { OnErr result (self.new ≡ self.old) }
        ensures bounded { map.len self.new ≤ 4096 }
    {
        let Err(place) = search(&self.entries, id) else {
            return Ok(());
        };
        if self.entries.len() == MOST_IDS {
            return Err(Full);
        }
        match self.entries.insert(place, (id, MediaState::Initial)) {
            Ok(()) => Ok(()),
            Err(_) => unreachable!(),
        }
    }

    /// Keeps the state of an id that is kept. All other ids stay as they are.
    pub fn set(&mut self, id: u64, state: MediaState)
        requires { map.contains_key self.old id ≡ true }
        ensures { self.new ≡ map.insert self.old id state }
    {
        match search(&self.entries, id) {
            Ok(place) => self.entries[place] = (id, state),
            Err(_) => unreachable!(),
        }
    }

    /// The state that a request for media finds, by the id of its resource; without one each is the first. The id
    /// is kept; [`Full`] exactly where there is no room for it, and the table is then as before.
    pub fn enter(&mut self, id: Option<u64>) -> Result<MediaState, Full>
        ensures { Enters self.old self.new id result }
    {
        let Some(id) = id else {
            return Ok(MediaState::Initial);
        };
        match self.admit(id) {
            Ok(()) => Ok(self.look(id).unwrap_or(MediaState::Initial)),
            Err(full) => Err(full),
        }
    }

    /// Keeps the state that its response leaves, where there is an id.
    pub fn leave(&mut self, id: Option<u64>, state: MediaState)
        requires { IsKept self.old id }
        ensures { self.new ≡ stored self.old id state }
    {
        if let Some(id) = id {
            self.set(id, state);
        }
    }

    /// Forgets all ids, and keeps the room for them.
    #[tactic(auto, using(crate::proofs::TableLemmas::view_none))]
    pub fn clear(&mut self)
        ensures { self.new ≡ map.empty }
    {
        self.entries.clear();
    }
}

/// The place of the id's entry, or the one where it would stand.
fn search(entries: &[(u64, MediaState)], id: u64) -> Result<usize, usize>
    requires { AreInOrder entries.now }
    ensures found { IfOk result (StandsAt entries.now id) }
    ensures gap { IfErr result (HasGapAt entries.now id) }
{
    entries.binary_search_by_key(&id, |entry| entry.0)
}

#[cfg(test)]
mod tests {
    use super::*;
    use std::test::Fail;

    const UNKNOWN: MediaState = MediaState::Subsequent { complete: None };

    #[test]
    fn states_are_kept_by_id(rt: HostRuntime) -> Result<(), Fail> {
        let mut table = MediaTable::open(rt.alloc())?;
        for id in [7, u64::MAX, 7] {
            assert_eq!(rt; table.admit(id), Ok(()));
        }
        assert_eq!(rt; table.look(0), None);
        assert_eq!(rt; table.look(7), Some(MediaState::Initial));
        if table.look(7).is_some() {
            table.set(7, UNKNOWN);
        }
        assert_eq!(rt; table.admit(7), Ok(()));
        assert_eq!(rt; table.look(7), Some(UNKNOWN));
        assert_eq!(rt; table.look(u64::MAX), Some(MediaState::Initial));
        table.clear();
        assert_eq!(rt; table.look(7), None);
        Ok(())
    }

    #[test]
    fn a_full_table_admits_what_it_keeps(rt: HostRuntime) -> Result<(), Fail> {
        let mut table = MediaTable::open(rt.alloc())?;
        for _ in 0..2 {
            for id in 0..4096 {
                assert_eq!(rt; table.admit(id), Ok(()), "{id}");
            }
            assert_eq!(rt; table.admit(5), Ok(()));
            assert_eq!(rt; table.admit(4096), Err(Full));
            assert_eq!(rt; table.look(4096), None);
            assert_eq!(rt; table.look(4095), Some(MediaState::Initial));
            table.clear();
        }
        Ok(())
    }
}
