//! The recorder in memory, and the one that holds nothing.

ghost use Rattle.std.specs.Prelude.{◌≡◌, [], length, slice_get, IsTrue, IsFalse, IfOk, IsOk};
ghost use Rattle.std.specs.Option.{option_map};

use crate::entry::{CoreEntry, LaneEntry};
use crate::recorder::{Entry, RecordFault, Recorder};
use px_types::{Mem, NoMemory};
use std::alloc::Global;
use std::marker::Model;

/// A recorder that holds its entries in memory, up to two limits; its entries are visible.
#[derive(Debug, Drop)]
pub struct MemRecorder<E: Entry> {
    entries: Vec<E>,
    bytes: usize,
    most_entries: usize,
    most_bytes: usize,
    fulls: u64,
}

impl<E: Entry> Model for MemRecorder<E> {
    ghost use Rattle.std.specs.Prelude.{◌≡◌, ◌-◌, vec_len, vec_capacity};
    ghost use Rattle.px_annals.specs.History.{sum_of, sizes_by};
    ghost use Rattle.px_annals.specs.Memory.{MemoryRecorder};

    ghost Value = { MemoryRecorder E };

    ghost view = { λ r. record {
      held = r.entries.items;
      room = vec_capacity r.entries - vec_len r.entries;
      limit = record { entries = r.most_entries; bytes = r.most_bytes };
      fulls = r.fulls;
    } };

    ghost invariant = { λ r. r.bytes ≡ sum_of (sizes_by E.bytes r.entries.items) };
}

impl<E: Entry + Drop> MemRecorder<E> {
    /// An empty recorder that may hold `entries` entries, and `bytes` bytes in all: its last entry may pass the second limit. It has room
    /// for a first entry.
    pub fn new(alloc: Global, entries: usize, bytes: usize) -> Mem<MemRecorder<E>>
        ensures held { IfOk result (λ r. r.held ≡ []) }
        ensures limit { IfOk result (λ r. r.limit ≡ record { entries = entries; bytes = bytes }) }
        ensures fulls { IfOk result (λ r. r.fulls ≡ 0) }
    {
        Ok(MemRecorder {
            entries: Vec::with_capacity(alloc, 1)?,
            bytes: 0,
            most_entries: entries,
            most_bytes: bytes,
            fulls: 0,
        })
    }

    /// How many entries it holds.
    pub fn len(&self) -> usize
        ensures { result ≡ length self.now.held }
    {
        self.entries.len()
    }

    /// How often it was found full.
    pub fn fulls(&self) -> u64
        ensures { result ≡ self.now.fulls }
    {
        self.fulls
    }

    /// The entry at place `at`, from 0; `None` exactly where there are no more than that.
    pub fn entry(&self, at: usize) -> Option<&E>
        ensures { option_map (λ entry. entry.now) result ≡ slice_get self.now.held at }
    {
        self.entries.get(at)
    }
}

impl<E: Entry + Drop> Recorder<E> for MemRecorder<E> {
    ghost use Rattle.std.specs.Prelude.{◌≤◌, Some};

    ghost visible = { λ r. Some r.held };

    ghost limit = { λ r. Some r.limit };

    ghost takes = { λ r bytes. 1 ≤ r.room };

    ghost faults = { λ r. 0 };

    ghost fulls = { λ r. r.fulls };

    fn keeps(&self) -> bool
        ensures { IsTrue result }
    {
        true
    }

    fn ready(&mut self, _bytes: usize) -> Result<(), RecordFault> {
        if self.entries.len() >= self.most_entries || self.bytes >= self.most_bytes {
            self.fulls = self.fulls.saturating_add(1);
            return Err(RecordFault::Full {
                entries: self.entries.len(),
                bytes: self.bytes,
            });
        }
        if self.entries.reserve(1).is_err() {
            return Err(RecordFault::NoMemory);
        }
        Ok(())
    }

    fn note(&mut self, entry: E) {
        self.bytes = self.bytes.saturating_add(entry.size());
        self.entries.push(entry).unwrap();
    }

    ghost takes_less = { λ r more less below can. can };
}

/// A recorder of either kind of entry that holds nothing, shows nothing and never fails.
#[derive(Clone, Copy, Debug)]
pub struct NoRecorder;

impl Recorder<LaneEntry> for NoRecorder {
    ghost use Rattle.std.specs.Prelude.{None, ⊤};

    ghost visible = { λ r. None };

    ghost limit = { λ r. None };

    ghost takes = { λ r bytes. ⊤ };

    ghost faults = { λ r. 0 };

    ghost fulls = { λ r. 0 };

    fn keeps(&self) -> bool
        ensures { IsFalse result }
    {
        false
    }

    fn ready(&mut self, _bytes: usize) -> Result<(), RecordFault>
        ensures { IsOk result }
    {
        Ok(())
    }

    fn note(&mut self, _entry: LaneEntry) {}

    ghost takes_less = { λ r more less below can. can };
}

impl Recorder<CoreEntry> for NoRecorder {
    ghost use Rattle.std.specs.Prelude.{None, ⊤};

    ghost visible = { λ r. None };

    ghost limit = { λ r. None };

    ghost takes = { λ r bytes. ⊤ };

    ghost faults = { λ r. 0 };

    ghost fulls = { λ r. 0 };

    fn keeps(&self) -> bool
        ensures { IsFalse result }
    {
        false
    }

    fn ready(&mut self, _bytes: usize) -> Result<(), RecordFault>
        ensures { IsOk result }
    {
        Ok(())
    }

    fn note(&mut self, _entry: CoreEntry) {}

    ghost takes_less = { λ r more less below can. can };
}
