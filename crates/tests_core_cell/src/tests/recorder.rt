ghost use Rattle.std.specs.Prelude.{◌≡◌, []};

use px_annals::{CoreEntry, Entry, RecordFault, Recorder};
use std::alloc::Global;

// A recorder that is full once, when it holds `full_at` entries.
#[derive(Drop)]
pub(crate) struct Crowded {
    entries: Vec<CoreEntry>,
    full_at: usize,
    fulls: u64,
}

impl Crowded {
    pub fn new(alloc: Global, full_at: usize) -> Crowded
        ensures none { result.entries.items ≡ [] }
        ensures fulls { result.fulls ≡ 0 }
    {
        Crowded {
            entries: Vec::new(alloc),
            full_at,
            fulls: 0,
        }
    }

    // Whether both hold entries of the same sizes, in order.
    pub fn matches(&self, other: &Crowded) -> bool {
        let mut pairs = self.entries.iter().zip(other.entries.iter());
        self.len() == other.len() && pairs.all(|(one, two)| one.size() == two.size())
    }

    pub fn len(&self) -> usize {
        self.entries.len()
    }

    pub fn fulls(&self) -> u64 {
        self.fulls
    }
}

impl Recorder<CoreEntry> for Crowded {
    ghost use Rattle.std.specs.Prelude.{◌<◌, Some, None, vec_len, vec_capacity};

    ghost visible = { λ r. Some r.entries.items };

    ghost limit = { λ r. None };

    ghost takes = { λ r bytes. vec_len r.entries < vec_capacity r.entries };

    ghost faults = { λ r. 0 };

    ghost fulls = { λ r. r.fulls };

    fn keeps(&self) -> bool {
        true
    }

    fn ready(&mut self, _bytes: usize) -> Result<(), RecordFault> {
        let entries = self.entries.len();
        if entries == self.full_at && self.fulls == 0 {
            self.fulls = 1;
            return Err(RecordFault::Full { entries, bytes: 0 });
        }
        if self.entries.reserve(1).is_err() {
            return Err(RecordFault::NoMemory);
        }
        Ok(())
    }

    fn note(&mut self, entry: CoreEntry) {
        self.entries.push(entry).unwrap();
    }

    ghost takes_less = { λ r more less below can. can };
}
