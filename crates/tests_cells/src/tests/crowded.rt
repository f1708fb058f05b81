ghost use Rattle.std.specs.Prelude.{◌≡◌, []};

use crate::tests::numbered::number_after;
use px_annals::{LaneEntry, RecordFault, Recorder};
use std::alloc::Global;

/// A recorder that is full once, when it holds `full_at` entries.
#[derive(Drop)]
pub struct Crowded {
    entries: Vec<LaneEntry>,
    full_at: usize,
    fulls: u64,
}

impl Crowded {
    pub fn new(alloc: Global, full_at: usize) -> Crowded
        ensures { result.entries.items ≡ [] }
    {
        Crowded {
            entries: Vec::new(alloc),
            full_at,
            fulls: 0,
        }
    }

    /// The number of messages in its entries, where they are numbered from 0 in order.
    pub fn recorded(&self) -> Option<u32> {
        let mut number = 0;
        for entry in self.entries.as_slice() {
            number = number_after(entry, number)?;
        }
        Some(number)
    }

    pub fn fulls(&self) -> u64 {
        self.fulls
    }
}

impl Recorder<LaneEntry> for Crowded {
    ghost use Rattle.std.specs.Prelude.{◌<◌, Some, None, vec_len, vec_capacity};

    ghost visible = { λ r. Some r.entries.items };

    ghost limit = { λ r. None };

    ghost takes = { λ r bytes. vec_len r.entries < vec_capacity r.entries };

    ghost faults = { λ r. 0 };

    ghost fulls = { λ r. r.fulls };

    fn keeps(&self) -> bool {
        true
    }

    fn ready(&mut self, _bytes: usize) -> Result<(), RecordFault> {
        let entries = self.entries.len();
        if entries == self.full_at && self.fulls == 0 {
            self.fulls = 1;
            return Err(RecordFault::Full { entries, bytes: 0 });
        }
        if self.entries.reserve(1).is_err() {
            return Err(RecordFault::NoMemory);
        }
        Ok(())
    }

    fn note(&mut self, entry: LaneEntry) {
        self.entries.push(entry).unwrap();
    }

    ghost takes_less = { λ r more less below can. can };
}
